//! Sample crafts, each made from a number.
#![tactic(auto)]

ghost use Rattle.std.specs.Prelude.{◌≡◌, ◌≤◌};
ghost use Rattle.sample_craft.specs.Sample.{most_number, sample_of};

mod generator;

use action_table::Action;
use craft_settings::Settings;
use generator::Generator;

/// The settings of the sample craft with the number `n`, at most 999999.
///
/// A low crafter's craft is drawn, and the same number always gives the same one: level 20 to 50, CP 80 to 150,
/// durability 20 to 40, progress 100 to 300, quality 200 to 600, and base values of 40 to 80 and 60 to 120. There is
/// no initial quality, all quality counts, and of the actions Trained Eye alone is forbidden.
pub fn settings_of(n: u32) -> Settings
    requires { n ≤ most_number }
    ensures { result ≡ sample_of n }
{
    let mut generator = Generator { state: n };
    let level = 20 + generator.draw() % 31;
    let cp = 80 + generator.draw() % 71;
    let durability = 20 + 5 * (generator.draw() % 5);
    let progress = 100 + generator.draw() % 201;
    let quality = 200 + generator.draw() % 401;
    let base_progress = 40 + generator.draw() % 41;
    let base_quality = 60 + generator.draw() % 61;
    Settings {
        level,
        cp,
        durability,
        progress,
        quality,
        initial: 0,
        base_progress,
        base_quality,
        forbidden: 1 << Action::TrainedEye.number(),
        target: quality,
        backload: false,
    }
}

#[cfg(test)]
mod tests;
