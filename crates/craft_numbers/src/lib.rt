//! The formulas of a craft.
#![tactic(auto)]

ghost use Rattle.std.specs.Prelude.{◌≡◌, ◌≤◌, ◌+◌, min};
ghost use Rattle.craft_numbers.specs.Gains.{progress_gain_of, quality_gain_of, base_value_of, bonus_of};

/// The progress that an action gives, in points, rounded down once. `base` (at most 5000) is what an efficiency of 100
/// percent gives, and `p` (at most 400) the action's efficiency in percent. Veneration adds half of it, and Muscle
/// Memory the whole.
pub fn progress_gain(base: u32, p: u32, veneration: bool, muscle: bool) -> u32
    requires base_range { base ≤ 5000 }
    requires p_range { p ≤ 400 }
    ensures value { result ≡ progress_gain_of base p veneration muscle }
    ensures range { result ≤ 50000 }
{
    let percent = 100 + bonus(veneration, 50) + bonus(muscle, 100);
    base * p * percent / 10000
}

// A bonus of so many percent where `on` holds.
fn bonus(on: bool, percent: u32) -> u32
    ensures value { result ≡ bonus_of on percent }
    ensures range { result ≤ percent }
{
    if on { percent } else { 0 }
}

/// The quality that an action gives, in points, rounded down once. `base` (at most 5000) is what an efficiency of 100
/// percent gives, and `q` (at most 400) the action's efficiency in percent. Each of the `iq` stacks of Inner Quiet (at
/// most 10) adds a tenth. Of the gain with the stacks Innovation adds half, and Great Strides the whole.
#[tactic(auto, using(crate::proofs::Bounds::gain_product))]
pub fn quality_gain(base: u32, q: u32, iq: u32, innovation: bool, strides: bool) -> u32
    requires base_range { base ≤ 5000 }
    requires q_range { q ≤ 400 }
    requires iq_range { iq ≤ 10 }
    ensures value { result ≡ quality_gain_of base q iq innovation strides }
    ensures range { result ≤ 100000 }
{
    let percent = 100 + bonus(innovation, 50) as u64 + bonus(strides, 100) as u64;
    (base as u64 * q as u64 * (100 + 10 * iq as u64) * percent / 1000000) as u32
}

/// The base value that a crafter's stat gives, in points: `modifier` percent of `10 * stat / div + plus`, rounded down
/// once. `stat` (at most 10000) is craftsmanship or control, `div` (1 to 1000) the recipe's divisor for it, and `plus`
/// (at most 35) what doesn't depend on the stat: 2 for progress, 35 for quality. `modifier` is at most 100.
pub fn base_of(stat: u32, div: u32, plus: u32, modifier: u32) -> u32
    requires stat_range { stat ≤ 10000 }
    requires div_low { 1 ≤ div }
    requires div_high { div ≤ 1000 }
    requires plus_range { plus ≤ 35 }
    requires modifier_range { modifier ≤ 100 }
    ensures { result ≡ base_value_of stat div plus modifier }
{
    (10 * stat + plus * div) * modifier / (100 * div)
}

/// The sum of two amounts, each at most 200000, or `cap` where the sum is more.
pub fn cap_add(a: u32, b: u32, cap: u32) -> u32
    requires a_range { a ≤ 200000 }
    requires b_range { b ≤ 200000 }
    ensures { result ≡ min cap (a + b) }
{
    cap.min(a + b)
}

#[cfg(test)]
mod tests;
