// Words of a table of bounds.
ghost use Rattle.std.specs.Prelude.{◌≤◌, IfSome};

use action_table::WantMemory;
use craft_settings::Settings;
use relaxed_moves::{BUCKET_STATES, Relaxed, at_bucket, of_index};
use std::alloc::Global;
use test_crafts::{LEVEL_14, LEVEL_73, LEVEL_80, LEVEL_87, LEVEL_96, LEVEL_99};

/// What a table of bounds says in one word: a budget or a number of moves, the number of the effects, the bucket, and
/// the optimum.
pub type Word = (u32, usize, u32, Option<u32>);

// The crafts of the tables that are asked, and their grains.
const CRAFTS: [(Settings, u32); 6] = [
    (LEVEL_14, 8),
    (LEVEL_87, 1),
    (LEVEL_73, 12),
    (LEVEL_96, 6),
    (LEVEL_80, 9),
    (LEVEL_99, 8),
];

/// A table of bounds, and a seat at it.
pub trait Table: Drop {
    ghost use Rattle.std.specs.Prelude.{◌≤◌};

    /// The table of a craft.
    fn make(alloc: Global, g: &Settings, grain: u32) -> Result<Self, WantMemory>
        requires low { 1 ≤ grain }
        requires high { grain ≤ 64 };

    /// The optimum of a budget or a number of moves, which `first` is; None where the table doesn't have the place.
    fn look(&mut self, first: u32, x: &Relaxed) -> Option<Option<u32>>;
}

// The relaxed state of a word, by the number of its effects and its bucket, where a table of this grain has it.
fn state_of(grain: u32, effects: usize, bucket: u32) -> Option<Relaxed>
    requires low { 1 ≤ grain }
    requires high { grain ≤ 64 }
    ensures { IfSome result (λ x. x.bucket ≤ grain) }
{
    if effects >= BUCKET_STATES || bucket > grain {
        return None;
    }
    let (_, x) = of_index(grain, effects);
    Some(at_bucket(&x, bucket))
}

// Whether the table says this.
fn says<T: Table>(table: &mut T, grain: u32, word: &Word) -> bool
    requires low { 1 ≤ grain }
    requires high { grain ≤ 64 }
{
    let (first, effects, bucket, most) = *word;
    match state_of(grain, effects, bucket) {
        Some(x) => table.look(first, &x) == Some(most),
        None => false,
    }
}

// Whether the table of a craft says all of these words.
fn says_all<T: Table>(
    alloc: Global,
    g: &Settings,
    grain: u32,
    words: &[Word],
) -> Result<bool, WantMemory>
    requires low { 1 ≤ grain }
    requires high { grain ≤ 64 }
{
    let mut table = T::make(alloc, g, grain)?;
    for word in words {
        if !says(&mut table, grain, word) {
            return Ok(false);
        }
    }
    Ok(true)
}

/// Whether the tables of six drawn crafts, of levels 14, 87, 73, 96, 80 and 99, say all of these words.
pub fn say_drawn<T: Table>(alloc: Global, drawn: &[[Word; 8]; 6]) -> Result<bool, WantMemory> {
    for ((g, grain), words) in CRAFTS.iter().zip(drawn) {
        let grain = (*grain).clamp(1, 64);
        if !says_all::<T>(alloc, g, grain, words)? {
            return Ok(false);
        }
    }
    Ok(true)
}
