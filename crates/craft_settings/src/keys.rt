// The keys of a settings file.
ghost use Rattle.std.specs.Prelude.{◌≡◌, ◌<◌, ℕ, map};
ghost use Rattle.craft_settings.specs.declared.keys.TheConstants.{KEYS};
ghost use Rattle.craft_settings.specs.Inside.{row_seen};
ghost use Rattle.craft_settings.specs.Keys.{rows, row_of, has_key, key_text, section_name};

use std::marker::Model;

/// The table that a key stands in.
#[derive(Clone, Copy, Debug)]
pub(crate) enum Section {
    Top,
    Crafter,
    Recipe,
    Base,
    Actions,
}

/// What the value of a key is.
#[derive(Clone, Copy, Debug)]
pub(crate) enum Kind {
    Table,
    /// An integer in a range.
    Number { low: u32, high: u32 },
    /// A multiple of 5 in a range.
    Fives { low: u32, high: u32 },
    Flag,
    /// An array of strings.
    Names,
}

/// Which form of the settings needs a key.
#[derive(Clone, Copy, Debug)]
pub(crate) enum Need {
    Never,
    Always,
    InStats,
    InBase,
}

/// What the list says of a key.
#[derive(Clone, Copy, Debug)]
pub(crate) struct Row {
    pub(crate) section: Section,
    /// The name in the table.
    pub(crate) name: &'static str,
    /// The path: the name of the table, a dot, and the name in it.
    pub(crate) text: &'static str,
    pub(crate) kind: Kind,
    pub(crate) need: Need,
}

macro_rules! path {
    (Top, $name:literal) => {
        $name
    };
    (Crafter, $name:literal) => {
        concat!("crafter.", $name)
    };
    (Recipe, $name:literal) => {
        concat!("recipe.", $name)
    };
    (Base, $name:literal) => {
        concat!("base.", $name)
    };
    (Actions, $name:literal) => {
        concat!("actions.", $name)
    };
}

macro_rules! row {
    ($section:ident $name:literal, $kind:expr, $need:ident) => {
        Row {
            section: Section::$section,
            name: $name,
            text: path!($section, $name),
            kind: $kind,
            need: Need::$need,
        }
    };
}

/// How many keys there are.
pub(crate) const KEYS: usize = 24;

// The list of the second version. The first version hasn't `recipe.trained_eye`.
const ROWS: [Row; KEYS] = [
    row!(Top "version", Kind::Number { low: 1, high: 2 }, Never),
    row!(Top "crafter", Kind::Table, Never),
    row!(Crafter "level", Kind::Number { low: 1, high: 100 }, Always),
    row!(Crafter "cp", Kind::Number { low: 0, high: 1000 }, Always),
    row!(Crafter "craftsmanship", Kind::Number { low: 0, high: 10000 }, InStats),
    row!(Crafter "control", Kind::Number { low: 0, high: 10000 }, InStats),
    row!(Top "recipe", Kind::Table, Never),
    row!(Recipe "durability", Kind::Fives { low: 10, high: 100 }, Always),
    row!(Recipe "progress", Kind::Number { low: 1, high: 100000 }, Always),
    row!(Recipe "quality", Kind::Number { low: 0, high: 100000 }, Always),
    row!(Recipe "initial_quality", Kind::Number { low: 0, high: 100000 }, Never),
    row!(Recipe "progress_div", Kind::Number { low: 1, high: 1000 }, InStats),
    row!(Recipe "quality_div", Kind::Number { low: 1, high: 1000 }, InStats),
    row!(Recipe "progress_mod", Kind::Number { low: 1, high: 100 }, Never),
    row!(Recipe "quality_mod", Kind::Number { low: 1, high: 100 }, Never),
    row!(Recipe "penalty", Kind::Flag, Never),
    row!(Recipe "target", Kind::Number { low: 0, high: 100000 }, Never),
    row!(Recipe "trained_eye", Kind::Flag, Never),
    row!(Top "base", Kind::Table, Never),
    row!(Base "progress", Kind::Number { low: 1, high: 5000 }, InBase),
    row!(Base "quality", Kind::Number { low: 1, high: 5000 }, InBase),
    row!(Top "actions", Kind::Table, Never),
    row!(Actions "forbid", Kind::Names, Never),
    row!(Actions "backload", Kind::Flag, Never),
];

#[tactic(auto, unfolding(crate::specs::Keys::rows, crate::specs::Keys::section_name))]
fn rows() -> &'static [Row; KEYS]
    ensures { map row_seen result.now ≡ rows }
{
    &ROWS
}

/// A key of a settings file: its place, from 0 to 23, in the list of the second version, which has every key.
#[derive(Clone, Copy, Debug, PartialEq, Eq)]
pub struct Key(u8);

impl Model for Key {
    ghost Value = { ℕ };

    ghost view = { λ k. k.0 };

    ghost invariant = { λ k. k.0 < KEYS };

    ghost inverse = { λ n. record { 0 = n } };
}

impl Section {
    #[tactic(auto, unfolding(crate::specs::Keys::section_name))]
    pub(crate) fn name(self) -> &'static str
        ensures { result.now ≡ section_name self }
    {
        match self {
            Section::Top => "",
            Section::Crafter => "crafter",
            Section::Recipe => "recipe",
            Section::Base => "base",
            Section::Actions => "actions",
        }
    }
}

impl Key {
    pub(crate) const LEVEL: Key = Key(2);

    pub(crate) const CP: Key = Key(3);

    pub(crate) const CRAFTSMANSHIP: Key = Key(4);

    pub(crate) const CONTROL: Key = Key(5);

    pub(crate) const DURABILITY: Key = Key(7);

    pub(crate) const PROGRESS: Key = Key(8);

    pub(crate) const QUALITY: Key = Key(9);

    pub(crate) const INITIAL_QUALITY: Key = Key(10);

    pub(crate) const PROGRESS_DIV: Key = Key(11);

    pub(crate) const QUALITY_DIV: Key = Key(12);

    pub(crate) const PROGRESS_MOD: Key = Key(13);

    pub(crate) const QUALITY_MOD: Key = Key(14);

    pub(crate) const PENALTY: Key = Key(15);

    pub(crate) const TARGET: Key = Key(16);

    pub(crate) const TRAINED_EYE: Key = Key(17);

    pub(crate) const BASE_PROGRESS: Key = Key(19);

    pub(crate) const BASE_QUALITY: Key = Key(20);

    pub(crate) const FORBID: Key = Key(22);

    pub(crate) const BACKLOAD: Key = Key(23);

    /// The key at a place of the list.
    pub(crate) fn new(place: usize) -> Key
        requires { place < KEYS }
        ensures { result ≡ place }
    {
        Key(place as u8)
    }

    /// Whether a version has the key.
    pub(crate) fn is_in(self, two: bool) -> bool
        ensures { result ≡ has_key two self }
    {
        two || self != Key::TRAINED_EYE
    }

    /// What the list says of the key.
    pub(crate) fn row(self) -> &'static Row
        ensures { row_seen result.now ≡ row_of self }
    {
        &rows()[usize::from(self.0)]
    }

    /// The path of the key: the name of its table, a dot, and its name.
    pub fn text(&self) -> &'static str
        ensures { result.now ≡ key_text self.now }
    {
        self.row().text
    }
}
