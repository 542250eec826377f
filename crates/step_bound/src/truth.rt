// What the words of the step table say.
ghost use Rattle.std.specs.Prelude.{◌≡◌, ◌≤◌};
ghost use Rattle.craft_settings.specs.Ranges.{AreSettings, IsFromTo};

use action_table::Action;
use craft_settings::Settings;
use race_core::Truth;
use relaxed_moves::{Scale, step_size};
use table_bound::Bound;

/// The step table of a craft: the entry of an index is the step optimum of the number of moves and the relaxed state
/// that it stands for, and a quality is reached where a complete legal macro has it. The grain is 1 to 64.
#[derive(Clone, Copy)]
pub struct StepTruth {
    pub g: Settings,
    pub grain: u32,
    pub ghost settings: { AreSettings g },
    pub ghost grain_range: { IsFromTo 1 64 grain },
}

impl StepTruth {
    /// The truth of a craft and a grain from 1 to 64.
    pub fn new(g: &Settings, grain: u32) -> StepTruth
        requires { IsFromTo 1 64 grain }
        ensures g { result.g ≡ g.now }
        ensures grain { result.grain ≡ grain }
    {
        let _level = g.level;
        StepTruth { g: *g, grain }
    }
}

impl Truth for StepTruth {
    ghost use Rattle.step_rules.specs.Macro.{IsReached};
    ghost use Rattle.relaxed_moves.specs.Places.{step_size_of};
    ghost use Rattle.table_bound.proofs.Fits.{size_fits, entry_fits, reached_fits};
    ghost use Rattle.step_bound.specs.Truths.{moves_rules, moves_entry, are_moves_rules};

    ghost size = { λ t. step_size_of t.grain };

    ghost entry = { λ t. moves_entry t.g t.grain };

    ghost reached = { λ t. IsReached t.g };

    fn size(&self) -> usize {
        step_size(self.grain)
    }

    ghost size_fits = { λ t. size_fits (moves_rules t.g t.grain) (are_moves_rules t.g t.grain t.settings t.grain_range) };

    ghost entry_fits = { λ t. entry_fits (moves_rules t.g t.grain) (are_moves_rules t.g t.grain t.settings t.grain_range) };

    ghost reached_fits = { λ t. reached_fits t.g t.settings };
}

impl Bound for StepTruth {
    ghost use Rattle.std.proofs.Common.{refl};
    ghost use Rattle.step_bound.specs.Truths.{moves_rules, are_moves_rules};

    ghost rules = { λ t. moves_rules t.g t.grain };

    fn settings(&self) -> &Settings {
        &self.g
    }

    fn grain(&self) -> u32 {
        self.grain
    }

    fn price(&self, _scale: &Scale, _action: Action) -> u32 {
        1
    }

    ghost rules_hold = { λ t. are_moves_rules t.g t.grain t.settings t.grain_range };

    ghost sizes = { λ _. refl };

    ghost entries = { λ _ _. refl };
}
