// The prices and the units that are chosen for a craft.
ghost use Rattle.std.specs.Prelude.{◌≡◌, ◌≤◌, ◌*◌, max};
ghost use Rattle.craft_settings.specs.Rules.{cap_of};
ghost use Rattle.priced_moves.specs.Moves.{AreSmallUnits, ceiling, progress_units};
ghost use Rattle.priced_moves.specs.Prices.{AreFair, AreSmall};
ghost use Rattle.priced_bound.specs.Choices.{ArePricesBy, ArePricesOf, AreUnitsOf, IsGreatestDivisor, divides, divides_each, most_fives, fine_progress, fine_share, is_by_points};

use action_table::{Action, row};
use craft_settings::{Settings, allowed};
use priced_moves::{Prices, Units};
use relaxed_moves::is_listed;

/// What steps, CP and durability cost by a table.
#[derive(Clone, Copy, PartialEq, Eq, Debug)]
pub enum Pricing {
    /// CP is free, and a step costs as much as the most durability that one rest gives.
    Durability,
    /// A step costs as much as 32 points of CP, and 4 of these make one of a budget.
    Steps,
    /// The same with 8 points in place of 4, for half of the words.
    CoarseSteps,
    /// Steps are free, and prices are told in halves of a point of CP.
    FreeSteps,
}

// How many points of CP a step costs.
pub(crate) const STEP_POINTS: u32 = 32;
// How many points make one of a budget.
pub(crate) const FOUR_POINTS: u32 = 4;

pub(crate) const EIGHT_POINTS: u32 = 8;
// In how many parts a point is told where steps are free.
pub(crate) const HALVES: u32 = 2;
// The greatest efficiency of a synthesis in percent.
pub(crate) const MOST_EFFICIENCY: u32 = 360;
// The finest unit of progress is this part of a percent of the base: Veneration adds halves.
pub(crate) const FINE_SHARE: u32 = 200;
// Progress of less points is counted by points.
pub(crate) const FEW_POINTS: u32 = 64;
/// The most that a table tells of a gain, in units of quality.
pub(crate) const MOST_WORTH: u32 = 65534;

// The prices of a craft.
pub(crate) fn prices_of(g: &Settings, pricing: Pricing) -> Prices
    ensures prices { ArePricesOf g.now pricing result }
    ensures fair { AreFair g.now result }
    ensures small { AreSmall result }
{
    match pricing {
        Pricing::Durability => priced(g, 0, most_fives(g), 1),
        Pricing::Steps => priced(g, 1, STEP_POINTS, FOUR_POINTS),
        Pricing::CoarseSteps => priced(g, 1, STEP_POINTS, EIGHT_POINTS),
        Pricing::FreeSteps => priced(g, HALVES, 0, HALVES),
    }
}

// The most fives of durability that one allowed rest gives, 1 where there is none.
fn most_fives(g: &Settings) -> u32
    ensures value { result ≡ most_fives g.now }
    ensures low { 1 ≤ result }
    ensures high { result ≤ 19 }
{
    let mended = if allowed(g, Action::MastersMend) {
        6
    } else {
        1
    };
    let kept = if allowed(g, Action::Manipulation) {
        8
    } else {
        1
    };
    let whole = if allowed(g, Action::ImmaculateMend) {
        g.durability / 5 - 1
    } else {
        1
    };
    mended.max(kept.max(whole))
}

// The units of a craft: its progress takes at most so many, and the quality that counts no more than a word tells.
pub(crate) fn units_of(g: &Settings, most: u32) -> Units
    requires low { 1 ≤ most }
    requires high { most ≤ 1000 }
    ensures units { AreUnitsOf g.now most result }
    ensures small { AreSmallUnits result }
    ensures few { progress_units result g.now.progress ≤ most }
    ensures cap { cap_of g.now ≤ result.quality * MOST_WORTH }
{
    let divisor = divisor(g);
    let share = fine_share(g, divisor);
    let fine = fine_progress(g, divisor);
    Units {
        progress: whole_units(g.progress * share, fine, most),
        share,
        quality: quality_unit(g.cap()),
    }
}

// Whether progress is counted by points.
fn is_by_points(g: &Settings, divisor: u32) -> bool
    requires { divisor ≤ MOST_EFFICIENCY }
    ensures { result ≡ is_by_points g.now divisor }
{
    g.progress < FEW_POINTS || g.base_progress * divisor < FINE_SHARE
}

// The points of the finest unit of progress, times its share.
fn fine_progress(g: &Settings, divisor: u32) -> u32
    requires low { 1 ≤ divisor }
    requires high { divisor ≤ MOST_EFFICIENCY }
    ensures value { result ≡ fine_progress g.now divisor }
    ensures low { 1 ≤ result }
    ensures high { result ≤ 1800000 }
{
    if is_by_points(g, divisor) {
        1
    } else {
        g.base_progress * divisor
    }
}

// The share of the finest unit of progress.
fn fine_share(g: &Settings, divisor: u32) -> u32
    requires { divisor ≤ MOST_EFFICIENCY }
    ensures value { result ≡ fine_share g.now divisor }
    ensures high { result ≤ FINE_SHARE }
{
    if is_by_points(g, divisor) {
        1
    } else {
        FINE_SHARE
    }
}

// The greatest number that divides the progress efficiencies of all moves.
fn divisor(g: &Settings) -> u32
    ensures { IsGreatestDivisor g.now result }
{
    for past in 0..MOST_EFFICIENCY - 1 {
        let number = MOST_EFFICIENCY - past;
        if divides_each(g, number) {
            return number;
        }
    }
    1
}

// Whether a number divides the progress efficiencies of all moves.
fn divides_each(g: &Settings, number: u32) -> bool
    requires { 1 ≤ number }
    ensures { result ≡ divides_each g.now number }
{
    Action::ALL.iter().all(|&action| divides(g, number, action))
}

// Whether an action is no move, or a number divides its progress efficiency.
fn divides(g: &Settings, number: u32, action: Action) -> bool
    requires { 1 ≤ number }
    ensures { result ≡ divides g.now number action }
{
    !is_listed(g, action) || row(action, g.level).progress % number == 0
}

// Prices with these of CP, a step and a coin.
fn priced(g: &Settings, cp: u32, step: u32, coin: u32) -> Prices
    requires cp { cp ≤ 1000 }
    requires step { step ≤ 10000 }
    requires low { 1 ≤ coin }
    requires high { coin ≤ max cp step }
    ensures prices { ArePricesBy g.now cp step coin result }
    ensures fair { AreFair g.now result }
    ensures small { AreSmall result }
{
    Prices::fair(g, cp, step, coin)
}

// The least number of the finest units, as points, of which so many points take at most so many.
fn whole_units(points: u32, fine: u32, most: u32) -> u32
    requires some { 1 ≤ points }
    requires points { points ≤ 20000000 }
    requires fine_low { 1 ≤ fine }
    requires fine_high { fine ≤ 1800000 }
    requires most_low { 1 ≤ most }
    requires most_high { most ≤ 1000 }
    ensures value { result ≡ fine * ceiling points (fine * most) }
    ensures low { 1 ≤ result }
    ensures few { ceiling points result ≤ most }
{
    let together = fine * most;
    let times = points.div_ceil(together);
    fine * times
}

// The least unit of quality by which a cap fits a word.
fn quality_unit(cap: u32) -> u32
    ensures value { result ≡ max 1 (ceiling cap MOST_WORTH) }
    ensures low { 1 ≤ result }
    ensures covers { cap ≤ result * MOST_WORTH }
{
    let words = cap.div_ceil(MOST_WORTH);
    words.max(1)
}
