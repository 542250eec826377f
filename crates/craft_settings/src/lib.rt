//! The settings of a craft, and the reader of a settings file.
#![tactic(auto)]

ghost use Rattle.std.specs.Prelude.{◌≡◌};

mod checks;
mod document;
mod fault;
mod forbid;
mod keys;
pub mod laws;
mod numbers;
mod reader;
#[cfg(test)]
mod tests;
mod unknown;

use action_table::{Action, row};
pub use fault::{KeyText, SettingsFault};
pub use keys::Key;
pub use reader::{MAX_LENGTH, read};
use std::marker::Model;

/// One crafter and one recipe.
///
/// `level` is the crafter's (1 to 100) and `cp` what a craft starts with (at most 1000). `durability` (10 to 100, a
/// multiple of 5), `progress` (1 to 100000) and `quality` (at most 100000) are the recipe's, and `initial` is the
/// quality at the start (at most 100000). `base_progress` and `base_quality` (1 to 5000) are what an action of
/// 100 percent adds. Bit n of `forbidden` is set where the action with the number n is forbidden. Quality above
/// `target` (at most 100000) counts no more than it. Under `backload` no quality comes after the first progress.
#[derive(Clone, Copy, PartialEq, Eq, Hash, Debug)]
pub struct Settings {
    pub level: u32,
    pub cp: u32,
    pub durability: u32,
    pub progress: u32,
    pub quality: u32,
    pub initial: u32,
    pub base_progress: u32,
    pub base_quality: u32,
    pub forbidden: u32,
    pub target: u32,
    pub backload: bool,
}

impl Model for Settings {
    ghost use Rattle.craft_settings.specs.Ranges.{SettingsFields, AreSettings};

    ghost Value = { SettingsFields };

    ghost use Rattle.craft_settings.specs.Inside.{settings_fields, settings_inside};

    ghost view = { settings_fields };

    ghost invariant = { λ g. AreSettings (settings_fields g) };

    ghost inverse = { settings_inside };
}

impl Settings {
    ghost use Rattle.craft_settings.specs.Rules.{is_learned, is_forbidden, is_allowed, cap_of};

    /// Whether the crafter's level is at least the level from which on the action is known.
    pub fn is_learned(&self, action: Action) -> bool
        ensures { result ≡ is_learned self.now action }
    {
        row(action, self.level).level <= self.level
    }

    /// Whether the settings forbid an action, whatever the crafter's level is.
    pub fn is_forbidden(&self, action: Action) -> bool
        ensures { result ≡ is_forbidden self.now action }
    {
        self.forbidden >> action.number() & 1 == 1
    }

    /// The most quality that counts, in points: the lesser of the recipe's quality and the target.
    pub fn cap(&self) -> u32
        ensures { result ≡ cap_of self.now }
    {
        self.quality.min(self.target)
    }
}

ghost use Rattle.craft_settings.specs.Rules.{is_allowed};

/// Whether an action may be used in this craft at all: the crafter's level suffices for it, and the settings don't
/// forbid it. Whether it is legal in a state is another question.
pub fn allowed(g: &Settings, action: Action) -> bool
    ensures { result ≡ is_allowed g.now action }
{
    g.is_learned(action) && !g.is_forbidden(action)
}
