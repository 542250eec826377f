// What a core keeps of one seat.
ghost use Rattle.std.specs.Prelude.{◌≡◌, ◌++◌, ◌∷◌, [], Some, IfOk, None};
ghost use Rattle.race_core.specs.Seats.{SeatStateFields, noting};
ghost use Rattle.race_core.specs.Events.{found};

use action_table::WantMemory;
use std::alloc::Global;
use std::marker::Model;

#[derive(Drop)]
pub(crate) struct SeatState {
    seen: Vec<usize>,
    floor: Option<u32>,
    // One for each step of the seat. They take no bytes.
    steps: Vec<()>,
    last: Option<(usize, u64)>,
}

impl Model for SeatState {
    ghost use Rattle.std.specs.Prelude.{vec_len};
    ghost use Rattle.race_core.specs.Seats.{SeatStateFields};

    ghost Value = { SeatStateFields };

    ghost view = { λ s. record { seen = s.seen.items; floor = s.floor; steps = vec_len s.steps; last = s.last } };
}

impl SeatState {
    pub(crate) fn new(alloc: Global) -> SeatState
        ensures { result ≡ record { seen = []; floor = None; steps = 0; last = None } }
    {
        SeatState {
            seen: Vec::new(alloc),
            floor: None,
            steps: Vec::new(alloc),
            last: None,
        }
    }

    pub(crate) fn copy(&self) -> Result<SeatState, WantMemory>
        ensures { IfOk result (λ s. s ≡ self.now) }
    {
        Ok(SeatState {
            seen: self.seen.clone()?,
            floor: self.floor,
            steps: self.steps.clone()?,
            last: self.last,
        })
    }

    // One more step.
    pub(crate) fn note(mut self, place: usize, word: u64) -> Result<SeatState, WantMemory>
        ensures { IfOk result (λ s. s ≡ noting place word self) }
    {
        self.steps.push(())?;
        self.last = Some((place, word));
        Ok(self)
    }

    pub(crate) fn with_index(mut self, index: usize) -> Result<SeatState, WantMemory>
        ensures { IfOk result (λ s. s ≡ record self { seen = self.seen ++ index ∷ [] }) }
    {
        self.seen.push(index)?;
        Ok(self)
    }

    // With the index, if the word found there is not 0.
    pub(crate) fn with_found(self, index: usize, word: u64) -> Result<SeatState, WantMemory>
        ensures { IfOk result (λ s. s ≡ record self { seen = self.seen ++ found index word }) }
    {
        if word == 0 {
            Ok(self)
        } else {
            self.with_index(index)
        }
    }

    pub(crate) fn with_all(mut self, other: &SeatState) -> Result<SeatState, WantMemory>
        ensures { IfOk result (λ s. s ≡ record self { seen = self.seen ++ other.now.seen }) }
    {
        self.seen.extend_from_slice(other.seen.as_slice())?;
        Ok(self)
    }

    pub(crate) fn floor(&self) -> Option<u32>
        ensures { result ≡ self.now.floor }
    {
        self.floor
    }

    pub(crate) fn with_floor(mut self, floor: Option<u32>) -> SeatState
        ensures { result ≡ record self { floor = floor } }
    {
        self.floor = floor;
        self
    }
}
