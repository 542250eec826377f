//! The actions of a craft: their numbers, names and rows.
#![tactic(auto)]

ghost use Rattle.std.specs.Prelude.{◌≡◌, ◌≤◌};
ghost use Rattle.action_table.specs.Table.{row_of, IsRow};

mod action;
mod memory;
mod rows;

pub use action::Action;
pub use memory::WantMemory;
pub use rows::Row;

/// The row of an action at a crafter's level, 1 to 100.
pub fn row(action: Action, level: u32) -> Row
    requires low { 1 ≤ level }
    requires high { level ≤ 100 }
    ensures value { result ≡ row_of action level }
    ensures bounds { IsRow result }
{
    match action {
        Action::BasicSynthesis => Row::synthesis(1, 0, 10, if level < 31 { 100 } else { 120 }),
        Action::BasicTouch => Row::touch(5, 18, 10, 100, 1),
        Action::MastersMend => Row::rest(7, 88),
        Action::Observe => Row::rest(13, 7),
        Action::WasteNot => Row::buff(15, 56),
        Action::Veneration => Row::buff(15, 18),
        Action::StandardTouch => Row::touch(18, 32, 10, 125, 1).in_combo(),
        Action::GreatStrides => Row::buff(21, 32),
        Action::Innovation => Row::buff(26, 18),
        Action::WasteNotII => Row::buff(47, 98),
        Action::ByregotsBlessing => Row::touch(50, 24, 10, 100, 0),
        Action::MuscleMemory => Row::synthesis(54, 6, 10, 300),
        Action::CarefulSynthesis => Row::synthesis(62, 7, 10, if level < 82 { 150 } else { 180 }),
        Action::Manipulation => Row::buff(65, 96),
        Action::PrudentTouch => Row::touch(66, 25, 5, 100, 1),
        Action::Reflect => Row::touch(69, 6, 10, 300, 2),
        Action::PreparatoryTouch => Row::touch(71, 40, 20, 200, 2),
        Action::Groundwork => Row::synthesis(72, 18, 20, if level < 86 { 300 } else { 360 }),
        Action::DelicateSynthesis => Row {
            progress: if level < 94 { 100 } else { 150 },
            ..Row::touch(76, 32, 10, 100, 1)
        },
        Action::AdvancedTouch => Row::touch(84, 46, 10, 150, 1).in_combo(),
        Action::PrudentSynthesis => Row::synthesis(88, 18, 5, 180),
        Action::TrainedFinesse => Row::touch(90, 32, 0, 100, 1),
        Action::RefinedTouch => Row::touch(92, 24, 10, 100, 1),
        Action::ImmaculateMend => Row::rest(98, 112),
        Action::TrainedPerfection => Row::rest(100, 0),
        Action::TrainedEye => Row::touch(80, 250, 10, 0, 0),
    }
}
