//! Crafts that the tests of several crates take. Nothing but tests uses them.
#![tactic(auto)]

ghost use Rattle.std.specs.Prelude.{◌≡◌, ◌≤◌, ◌%◌};
ghost use Rattle.craft_settings.specs.Ranges.{IsFromTo};
ghost use Rattle.test_crafts.specs.Crafts.{craft_of};

use craft_settings::Settings;
use std::alloc::{AllocError, Global};

/// One synthesis completes it, and nothing else can be done.
pub const EASY: Settings = Settings {
    level: 1,
    cp: 0,
    durability: 10,
    progress: 100,
    quality: 100,
    initial: 0,
    base_progress: 100,
    base_quality: 100,
    forbidden: 33554432,
    target: 100,
    backload: false,
};

/// Its best macro is a touch and a synthesis.
pub const ONE_TOUCH: Settings = Settings {
    level: 5,
    cp: 18,
    durability: 20,
    quality: 500,
    target: 500,
    ..EASY
};

/// Its best macro is two touches and a synthesis.
pub const TWO_TOUCHES: Settings = Settings {
    level: 11,
    cp: 36,
    durability: 30,
    ..ONE_TOUCH
};

/// Its best macro has four actions, and gives a quality of 150.
pub const FOUR_STEPS: Settings = Settings {
    level: 26,
    cp: 54,
    progress: 150,
    ..ONE_TOUCH
};

/// Its best macro has six actions, and gives its whole quality.
pub const ORDINARY: Settings = Settings {
    level: 50,
    cp: 180,
    durability: 40,
    progress: 150,
    quality: 400,
    base_progress: 50,
    base_quality: 101,
    target: 400,
    ..EASY
};

/// A craft of the highest level.
pub const LARGE: Settings = Settings {
    level: 100,
    cp: 600,
    durability: 70,
    progress: 7000,
    quality: 15000,
    base_progress: 290,
    base_quality: 355,
    target: 15000,
    ..EASY
};

/// The settings file of a craft with base values of 100, by its level, CP, durability, progress and quality.
pub fn craft_file(alloc: Global, numbers: [u32; 5]) -> Result<String, AllocError> {
    let [level, cp, durability, progress, quality] = numbers;
    format!(in alloc;
        "[crafter]\nlevel = {level}\ncp = {cp}\n[recipe]\ndurability = {durability}\nprogress = {progress}\nquality = {quality}\n[base]\nprogress = 100\nquality = 100\n"
    )
}

// Drawn crafts, named by their levels.

/// A drawn craft of level 14.
pub const LEVEL_14: Settings = Settings {
    level: 14,
    cp: 115,
    durability: 50,
    progress: 55,
    quality: 574,
    initial: 125,
    base_progress: 191,
    base_quality: 287,
    forbidden: 33554432,
    target: 527,
    backload: false,
};

/// A drawn craft of level 73.
pub const LEVEL_73: Settings = Settings {
    level: 73,
    cp: 92,
    durability: 20,
    progress: 469,
    quality: 1031,
    initial: 0,
    base_progress: 153,
    base_quality: 85,
    forbidden: 49807188,
    target: 1031,
    backload: true,
};

/// A drawn craft of level 80.
pub const LEVEL_80: Settings = Settings {
    level: 80,
    cp: 119,
    durability: 65,
    progress: 164,
    quality: 116,
    initial: 0,
    base_progress: 164,
    base_quality: 116,
    forbidden: 67042814,
    target: 116,
    backload: true,
};

/// A drawn craft of level 87.
pub const LEVEL_87: Settings = Settings {
    level: 87,
    cp: 38,
    durability: 20,
    progress: 48,
    quality: 680,
    initial: 0,
    base_progress: 72,
    base_quality: 125,
    forbidden: 41942974,
    target: 631,
    backload: false,
};

/// A drawn craft of level 96.
pub const LEVEL_96: Settings = Settings {
    level: 96,
    cp: 26,
    durability: 30,
    progress: 175,
    quality: 44,
    initial: 0,
    base_progress: 165,
    base_quality: 44,
    forbidden: 0,
    target: 44,
    backload: false,
};

/// A drawn craft of level 99.
pub const LEVEL_99: Settings = Settings {
    level: 99,
    cp: 110,
    durability: 65,
    progress: 334,
    quality: 2250,
    initial: 0,
    base_progress: 167,
    base_quality: 242,
    forbidden: 25017782,
    target: 2250,
    backload: true,
};

/// A craft with base values of 100, of which all quality counts, and for which nothing is forbidden.
pub fn craft(level: u32, cp: u32, durability: u32, progress: u32, quality: u32) -> Settings
    requires level { IsFromTo 1 100 level }
    requires cp { cp ≤ 1000 }
    requires durability { IsFromTo 10 100 durability }
    requires fives { durability % 5 ≡ 0 }
    requires progress { IsFromTo 1 100000 progress }
    requires quality { quality ≤ 100000 }
    ensures { result ≡ craft_of level cp durability progress quality }
{
    Settings {
        level,
        cp,
        durability,
        progress,
        quality,
        initial: 0,
        base_progress: 100,
        base_quality: 100,
        forbidden: 0,
        target: quality,
        backload: false,
    }
}
