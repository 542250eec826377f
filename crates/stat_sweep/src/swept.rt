use crate::plan::Plan;

/// What a sweep over base qualities finds.
#[derive(Drop)]
pub enum Swept {
    /// No macro completes the craft, whatever the base quality.
    Nothing,
    /// The greatest base quality isn't enough. `at` is the best macro there.
    Short {
        at: Plan,
    },
    /// The least base quality that is enough, with the best macro there, and the best macro at one less, which is
    /// there where the base quality is above 1.
    Least {
        base: u32,
        at: Plan,
        below: Option<Plan>,
    },
}
