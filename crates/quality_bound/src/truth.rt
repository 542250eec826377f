// What the words of the quality table say.
ghost use Rattle.std.specs.Prelude.{◌≡◌, ◌≤◌};
ghost use Rattle.craft_settings.specs.Ranges.{AreSettings, IsFromTo};

use action_table::Action;
use craft_settings::Settings;
use race_core::Truth;
use relaxed_moves::{Scale, move_cost_by, quality_size};
use table_bound::Bound;

/// The quality table of a craft: the entry of an index is the budget optimum of the budget and the relaxed state that
/// it stands for, and a quality is reached where a complete legal macro has it. The grain is 1 to 64.
#[derive(Clone, Copy)]
pub struct QualityTruth {
    pub g: Settings,
    pub grain: u32,
    pub ghost settings: { AreSettings g },
    pub ghost grain_range: { IsFromTo 1 64 grain },
}

impl QualityTruth {
    /// The truth of a craft and a grain from 1 to 64.
    pub fn new(g: &Settings, grain: u32) -> QualityTruth
        requires { IsFromTo 1 64 grain }
        ensures g { result.g ≡ g.now }
        ensures grain { result.grain ≡ grain }
    {
        let _level = g.level;
        QualityTruth { g: *g, grain }
    }
}

impl Truth for QualityTruth {
    ghost use Rattle.step_rules.specs.Macro.{IsReached};
    ghost use Rattle.relaxed_moves.specs.Places.{quality_size_of};
    ghost use Rattle.table_bound.proofs.Fits.{size_fits, entry_fits, reached_fits};
    ghost use Rattle.quality_bound.specs.Truths.{quality_rules, quality_entry, are_quality_rules};

    ghost size = { λ t. quality_size_of t.g t.grain };

    ghost entry = { λ t. quality_entry t.g t.grain };

    ghost reached = { λ t. IsReached t.g };

    fn size(&self) -> usize {
        quality_size(&self.g, self.grain)
    }

    ghost size_fits = { λ t. size_fits (quality_rules t.g t.grain) (are_quality_rules t.g t.grain t.settings t.grain_range) };

    ghost entry_fits = { λ t. entry_fits (quality_rules t.g t.grain) (are_quality_rules t.g t.grain t.settings t.grain_range) };

    ghost reached_fits = { λ t. reached_fits t.g t.settings };
}

impl Bound for QualityTruth {
    ghost use Rattle.std.proofs.Common.{refl};
    ghost use Rattle.quality_bound.specs.Truths.{quality_rules, are_quality_rules};

    ghost rules = { λ t. quality_rules t.g t.grain };

    fn settings(&self) -> &Settings {
        &self.g
    }

    fn grain(&self) -> u32 {
        self.grain
    }

    fn price(&self, scale: &Scale, action: Action) -> u32 {
        move_cost_by(&self.g, &scale.weights, action)
    }

    ghost rules_hold = { λ t. are_quality_rules t.g t.grain t.settings t.grain_range };

    ghost sizes = { λ _. refl };

    ghost entries = { λ _ _. refl };
}
