// The words of the program that finds the best macro alone.
ghost use Rattle.std.specs.Prelude.{◌≡◌, ◌↔◌, IfOk, IsErrOf, MatchResult, None, Some, map, string_bytes};
ghost use Rattle.craft_settings.specs.Ranges.{IsFromTo};
ghost use Rattle.solve_words.specs.Best.{best_words_of};

use crate::fault::WordsFault;
use crate::values::number_or;
use crate::{DEFAULT_WORKERS, options};
use std::alloc::Global;

/// Reads the words after the name of the program that finds the best macro alone: none, or `--workers` once, with a
/// number of 1 to 64, as `--workers N` or `--workers=N`. It answers how many workers search, 4 where the words don't
/// say. BadWords comes for all other words, and for no others.
pub fn read_best_words(alloc: Global, words: &[String]) -> Result<u32, WordsFault>
    ensures ok { IfOk result (λ workers. best_words_of (map string_bytes words.now) ≡ Some workers) }
    ensures range { IfOk result (IsFromTo 1 64) }
    ensures bad { IsErrOf result WordsFault.BadWords
        ↔ (best_words_of (map string_bytes words.now) ≡ None × ¬ IsErrOf result WordsFault.WantMemory) }
{
    workers_in(alloc, words)
}

// The number of workers that the words say.
fn workers_in(alloc: Global, words: &[String]) -> Result<u32, WordsFault>
    ensures form { MatchResult result (λ workers. best_words_of (map string_bytes words.now) ≡ Some workers)
        (λ e. e ≡ WordsFault.BadWords → best_words_of (map string_bytes words.now) ≡ None) }
    ensures range { IfOk result (IsFromTo 1 64) }
{
    let matches = options(alloc, &["workers"], words)?;
    let Some(workers) = number_or(matches.get_str("workers"), DEFAULT_WORKERS) else {
        return Err(WordsFault::BadWords);
    };
    Ok(workers)
}
