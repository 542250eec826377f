// What a word says.
ghost use Rattle.std.specs.Prelude.{◌≡◌, ◌+◌, ◌^◌, ◌<◌, MatchOption};
ghost use Rattle.race_core.specs.Codes.{code, quality};

/// What the table says of an index.
#[derive(Clone, Copy, PartialEq, Eq, Debug)]
pub enum Entry {
    /// There is no list of moves.
    NoList,
    /// The best value.
    Best(u32),
}

impl Entry {
    /// The word that says this entry: 1 for NoList, 2 + v for Best(v).
    pub fn to_word(self) -> u64
        ensures { result ≡ code self }
    {
        match self {
            Entry::NoList => 1,
            Entry::Best(value) => 2 + u64::from(value),
        }
    }

    /// The entry that a word says, None for the empty word 0. A word is below 2 ^ 32 + 2.
    pub fn from_word(word: u64) -> Option<Entry>
        requires { word < 2 ^ 32 + 2 }
        ensures { MatchOption result (word ≡ 0) (λ entry. word ≡ code entry) }
    {
        match word {
            0 => None,
            1 => Some(Entry::NoList),
            _ => Some(Entry::Best((word - 2) as u32)),
        }
    }
}

/// The quality that a mark says: q for 1 + q, None for 0. A mark is at most 2 ^ 32.
pub fn quality_of_mark(mark: u64) -> Option<u32>
    requires { mark < 2 ^ 32 + 1 }
    ensures { result ≡ quality mark }
{
    match mark {
        0 => None,
        _ => Some((mark - 1) as u32),
    }
}
