// The two tables of bounds.
use crate::limits::Limits;
use action_table::WantMemory;
use craft_settings::Settings;
use craft_state::State;
use quality_bound::{QualityTruth, limit_by};
use relaxed_moves::Scale;
use seat_tables::{Seat, Shared};
use std::alloc::Global;
use std::marker::Model;
use step_bound::{StepTruth, within_by};

/// The tables of the two bounds of a craft, a seat at each, and the craft's scale, which is made once.
#[derive(Drop)]
pub struct Tables {
    quality: Shared<QualityTruth>,
    quality_seat: Seat<QualityTruth>,
    steps: Shared<StepTruth>,
    steps_seat: Seat<StepTruth>,
    scale: Scale,
}

impl Model for Tables {
    ghost use Rattle.front_check.specs.Judging.{Bounds};
    ghost use Rattle.front_check.specs.Seated.{AreSeated};

    ghost Value = { Bounds };

    ghost view = { λ t. record { g = t.quality.truth.g; grain = t.quality.truth.grain } };

    ghost invariant = { λ t. AreSeated t.quality t.quality_seat t.steps t.steps_seat t.scale };
}

impl Limits for Tables {
    ghost bounds = { λ t. t };

    fn make(alloc: Global, g: &Settings, grain: u32) -> Result<Tables, WantMemory> {
        let (quality, quality_seat) = Shared::new(alloc, QualityTruth::new(g, grain))?;
        let (steps, steps_seat) = Shared::new(alloc, StepTruth::new(g, grain))?;
        Ok(Tables {
            quality,
            quality_seat,
            steps,
            steps_seat,
            scale: Scale::new(g, grain),
        })
    }

    fn limit(&mut self, s: &State) -> Option<u32> {
        limit_by(&self.quality, &mut self.quality_seat, &self.scale, s)
    }

    fn within(&mut self, s: &State, steps: u32) -> Option<u32> {
        within_by(&self.steps, &mut self.steps_seat, &self.scale, s, steps)
    }
}
