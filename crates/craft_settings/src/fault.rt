// Why a settings file is refused.
ghost use Rattle.std.specs.Prelude.{◌≡◌, List, ℕ, string_bytes};

use crate::keys::Key;
use action_table::WantMemory;
use std::marker::Model;
use thiserror::Error;

/// A text that stands in the file. Contracts see its bytes.
#[derive(Debug, Drop)]
pub struct KeyText {
    text: String,
}

impl Model for KeyText {
    ghost Value = { List ℕ };

    ghost view = { λ k. string_bytes k.text };
}

impl KeyText {
    pub(crate) fn new(text: String) -> KeyText
        ensures { result ≡ string_bytes text }
    {
        KeyText { text }
    }

    /// The bytes of the text, which are UTF-8.
    pub fn bytes(&self) -> &[u8]
        ensures { result.now ≡ self.now }
    {
        self.text.as_bytes()
    }
}

/// Why a settings file is refused. The faults stand in the order in which they are looked for.
#[derive(Debug, Drop, Error)]
pub enum SettingsFault {
    /// There are more than 65536 bytes.
    #[error("the settings are too long")]
    TooLong,
    /// The bytes aren't UTF-8, or aren't a TOML document.
    #[error("the settings are not a TOML document")]
    NotToml,
    /// A key isn't in the list. The path is its table's name, a dot and its name.
    #[error("a key of the settings is not known")]
    UnknownKey { path: KeyText },
    /// A key that the form needs is absent.
    #[error("a key of the settings is missing")]
    Missing { path: Key },
    /// A value isn't of the kind of its key.
    #[error("a value of the settings is of the wrong kind")]
    WrongKind { path: Key },
    /// A number, of the file or computed from the stats, isn't in the range of its key.
    #[error("a number of the settings is out of range")]
    OutOfRange { path: Key, value: i64 },
    /// The base values are given, and a key of the stats too.
    #[error("base values and stats are both given")]
    TwoBases,
    /// A forbidden name is no key name of an action.
    #[error("a forbidden action is not known")]
    UnknownAction { name: KeyText },
    /// Memory was asked for and refused.
    #[error("there is not enough memory")]
    WantMemory,
}

impl From<WantMemory> for SettingsFault {
    ghost use Rattle.craft_settings.specs.declared.fault.SettingsFault.TheVariants.{WantMemory as MemoryFault};

    ghost from_gives = { λ _ e. e ≡ MemoryFault };

    fn from(_: WantMemory) -> Self {
        SettingsFault::WantMemory
    }
}
