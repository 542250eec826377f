ghost use Rattle.std.specs.Prelude.{ℕ, ◌≡◌, ◌<◌, ◌≤◌, ◌≢◌, MatchOption};
ghost use Rattle.action_table.specs.Table.{number_of, display_name_of, key_of, row_of, action_seconds};
ghost use Rattle.action_table.specs.declared.action.Action.{Action};

use crate::row;

/// An action of a craft. The order of the variants is the action order.
#[derive(Clone, Copy, PartialEq, Eq, Default, Debug)]
pub enum Action {
    #[default]
    BasicSynthesis,
    BasicTouch,
    MastersMend,
    Observe,
    WasteNot,
    Veneration,
    StandardTouch,
    GreatStrides,
    Innovation,
    WasteNotII,
    ByregotsBlessing,
    MuscleMemory,
    CarefulSynthesis,
    Manipulation,
    PrudentTouch,
    Reflect,
    PreparatoryTouch,
    Groundwork,
    DelicateSynthesis,
    AdvancedTouch,
    PrudentSynthesis,
    TrainedFinesse,
    RefinedTouch,
    ImmaculateMend,
    TrainedPerfection,
    TrainedEye,
}

impl Action {
    /// How many actions there are.
    pub const COUNT: u8 = 26;

    /// All actions, in the action order.
    pub const ALL: [Action; 26] = [
        Action::BasicSynthesis,
        Action::BasicTouch,
        Action::MastersMend,
        Action::Observe,
        Action::WasteNot,
        Action::Veneration,
        Action::StandardTouch,
        Action::GreatStrides,
        Action::Innovation,
        Action::WasteNotII,
        Action::ByregotsBlessing,
        Action::MuscleMemory,
        Action::CarefulSynthesis,
        Action::Manipulation,
        Action::PrudentTouch,
        Action::Reflect,
        Action::PreparatoryTouch,
        Action::Groundwork,
        Action::DelicateSynthesis,
        Action::AdvancedTouch,
        Action::PrudentSynthesis,
        Action::TrainedFinesse,
        Action::RefinedTouch,
        Action::ImmaculateMend,
        Action::TrainedPerfection,
        Action::TrainedEye,
    ];

    /// The place of the action in the action order, counted from 0.
    pub fn number(self) -> u8
        ensures value { result ≡ number_of self }
        ensures range { result < Self.COUNT }
    {
        self as u8
    }

    /// The action at a place of the action order; none from `COUNT` on.
    pub fn from_number(n: u8) -> Option<Action>
        ensures { MatchOption result (Self.COUNT ≤ n) (λ action. number_of action ≡ n) }
    {
        if n < Action::COUNT {
            Some(Action::ALL[n as usize])
        } else {
            None
        }
    }

    /// How many seconds the action takes, the same at every level.
    #[tactic(auto, using(crate::proofs::Seconds::seconds_at), unfolding(crate::specs::Table::action_seconds))]
    pub fn seconds(self) -> u32
        ensures value { result ≡ action_seconds self }
        ensures small { result ≤ 3 }
        ensures row { (level : ℕ) → (row_of self level).seconds ≡ result }
    {
        row(self, 1).seconds
    }

    /// The name of the action in a macro line, as "Byregot's Blessing".
    pub fn display_name(self) -> &'static str
        ensures { result.now ≡ display_name_of self }
    {
        match self {
            Action::BasicSynthesis => "Basic Synthesis",
            Action::BasicTouch => "Basic Touch",
            Action::MastersMend => "Master's Mend",
            Action::Observe => "Observe",
            Action::WasteNot => "Waste Not",
            Action::Veneration => "Veneration",
            Action::StandardTouch => "Standard Touch",
            Action::GreatStrides => "Great Strides",
            Action::Innovation => "Innovation",
            Action::WasteNotII => "Waste Not II",
            Action::ByregotsBlessing => "Byregot's Blessing",
            Action::MuscleMemory => "Muscle Memory",
            Action::CarefulSynthesis => "Careful Synthesis",
            Action::Manipulation => "Manipulation",
            Action::PrudentTouch => "Prudent Touch",
            Action::Reflect => "Reflect",
            Action::PreparatoryTouch => "Preparatory Touch",
            Action::Groundwork => "Groundwork",
            Action::DelicateSynthesis => "Delicate Synthesis",
            Action::AdvancedTouch => "Advanced Touch",
            Action::PrudentSynthesis => "Prudent Synthesis",
            Action::TrainedFinesse => "Trained Finesse",
            Action::RefinedTouch => "Refined Touch",
            Action::ImmaculateMend => "Immaculate Mend",
            Action::TrainedPerfection => "Trained Perfection",
            Action::TrainedEye => "Trained Eye",
        }
    }

    /// The name of the action in a settings file, as "byregots_blessing".
    pub fn key_name(self) -> &'static str
        ensures { result.now ≡ key_of self }
    {
        match self {
            Action::BasicSynthesis => "basic_synthesis",
            Action::BasicTouch => "basic_touch",
            Action::MastersMend => "masters_mend",
            Action::Observe => "observe",
            Action::WasteNot => "waste_not",
            Action::Veneration => "veneration",
            Action::StandardTouch => "standard_touch",
            Action::GreatStrides => "great_strides",
            Action::Innovation => "innovation",
            Action::WasteNotII => "waste_not_ii",
            Action::ByregotsBlessing => "byregots_blessing",
            Action::MuscleMemory => "muscle_memory",
            Action::CarefulSynthesis => "careful_synthesis",
            Action::Manipulation => "manipulation",
            Action::PrudentTouch => "prudent_touch",
            Action::Reflect => "reflect",
            Action::PreparatoryTouch => "preparatory_touch",
            Action::Groundwork => "groundwork",
            Action::DelicateSynthesis => "delicate_synthesis",
            Action::AdvancedTouch => "advanced_touch",
            Action::PrudentSynthesis => "prudent_synthesis",
            Action::TrainedFinesse => "trained_finesse",
            Action::RefinedTouch => "refined_touch",
            Action::ImmaculateMend => "immaculate_mend",
            Action::TrainedPerfection => "trained_perfection",
            Action::TrainedEye => "trained_eye",
        }
    }

    /// The action with this key name; none for any other text.
    pub fn from_key(text: &str) -> Option<Action>
        ensures { MatchOption result ((action : Action) → key_of action ≢ text.now) (λ action. key_of action ≡ text.now) }
    {
        match text {
            "basic_synthesis" => Some(Action::BasicSynthesis),
            "basic_touch" => Some(Action::BasicTouch),
            "masters_mend" => Some(Action::MastersMend),
            "observe" => Some(Action::Observe),
            "waste_not" => Some(Action::WasteNot),
            "veneration" => Some(Action::Veneration),
            "standard_touch" => Some(Action::StandardTouch),
            "great_strides" => Some(Action::GreatStrides),
            "innovation" => Some(Action::Innovation),
            "waste_not_ii" => Some(Action::WasteNotII),
            "byregots_blessing" => Some(Action::ByregotsBlessing),
            "muscle_memory" => Some(Action::MuscleMemory),
            "careful_synthesis" => Some(Action::CarefulSynthesis),
            "manipulation" => Some(Action::Manipulation),
            "prudent_touch" => Some(Action::PrudentTouch),
            "reflect" => Some(Action::Reflect),
            "preparatory_touch" => Some(Action::PreparatoryTouch),
            "groundwork" => Some(Action::Groundwork),
            "delicate_synthesis" => Some(Action::DelicateSynthesis),
            "advanced_touch" => Some(Action::AdvancedTouch),
            "prudent_synthesis" => Some(Action::PrudentSynthesis),
            "trained_finesse" => Some(Action::TrainedFinesse),
            "refined_touch" => Some(Action::RefinedTouch),
            "immaculate_mend" => Some(Action::ImmaculateMend),
            "trained_perfection" => Some(Action::TrainedPerfection),
            "trained_eye" => Some(Action::TrainedEye),
            _ => None,
        }
    }
}
