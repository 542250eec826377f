// Lines 1 and 2.
ghost use Rattle.std.specs.Prelude.{◌≡◌, ◌≤◌, ◌↔◌, IsTrue, ◌++◌, ◌==◌, not, length, ℕ, IfOk, OnOk, MatchOption, string_bytes};
ghost use Rattle.action_table.specs.declared.action.Action.{Action as ActionFields};
ghost use Rattle.craft_settings.specs.Ranges.{IsFromTo};
ghost use Rattle.certificate_text.specs.Text.{space, first_line, best_line};
ghost use Rattle.std.specs.Fmt.{decimal};
ghost use Rattle.std.specs.List.{prefix_len};
ghost use Rattle.action_table.specs.Table.{number_of};
ghost use Rattle.front_check.specs.Named.{Names, NamesNone, action_word};

use action_table::Action;
use certificate_text::{end_of, read_number};
use std::alloc::{AllocError, Global};
use std::fmt::Write;

// The greatest grain.
const MOST_GRAIN: u32 = 64;

const SPACE: u8 = b' ';

/// The grain that line 1 names.
pub(crate) fn read_grain(alloc: Global, line: &[u8]) -> Result<Option<u32>, AllocError>
    ensures { IfOk result (λ found. MatchOption found
        ((grain : ℕ) → IsFromTo 1 64 grain → line.now ≡ first_line grain → ⊥)
        (λ grain. IsFromTo 1 64 grain × (line.now ≡ first_line grain))) }
{
    for grain in 1..MOST_GRAIN + 1 {
        let named = names_grain(alloc, line, grain)?;
        if named {
            return Ok(Some(grain));
        }
    }
    Ok(None)
}

// Whether line 1 names a grain.
fn names_grain(alloc: Global, line: &[u8], grain: u32) -> Result<bool, AllocError>
    ensures { IfOk result (λ yes. IsTrue yes ↔ (line.now ≡ first_line grain)) }
{
    let says = format!(in alloc; "raphael certificate 1 grain {grain}")?;
    Ok(line == says.as_bytes())
}

/// The macro that line 2 names.
pub(crate) fn read_best(alloc: Global, line: &[u8]) -> Result<Option<Vec<Action>>, AllocError>
    ensures { IfOk result (λ found. MatchOption found (NamesNone line.now) (λ actions. line.now ≡ best_line actions.items)) }
{
    let listed = list_actions(alloc, line)?;
    match listed {
        Some(actions) => {
            let says = print_best(alloc, actions.as_slice())?;
            if line == says.as_bytes() {
                Ok(Some(actions))
            } else {
                Ok(None)
            }
        }
        None => Ok(None),
    }
}

/// The second line of a certificate, without its line feed: `best` and the numbers of the actions in order, each after one
/// space. Errors: only where memory runs out.
pub fn print_best(alloc: Global, actions: &[Action]) -> Result<String, AllocError>
    ensures { IfOk result (λ text. string_bytes text ≡ best_line actions.now) }
{
    let mut text = String::new(alloc);
    write!(text, "best")?;
    for action in actions {
        push_word(&mut text, *action)?;
    }
    Ok(text)
}

fn push_word(text: &mut String, action: Action) -> Result<(), AllocError>
    ensures { OnOk result (string_bytes text.new ≡ string_bytes text.old ++ action_word action) }
{
    let number = action.number();
    write!(text, " {number}")
}

// The only macro that a line can name.
fn list_actions(alloc: Global, line: &[u8]) -> Result<Option<Vec<Action>>, AllocError>
    ensures { IfOk result (λ found. MatchOption found (NamesNone line.now) (λ actions. Names line.now actions.items)) }
{
    let mut actions = Vec::new(alloc);
    let mut from = 4;
    while from < line.len() {
        let rest = &line[from + 1..];
        let end = word_end(rest);
        match read_action(&rest[..end]) {
            Some(action) => actions.push(action)?,
            None => return Ok(None),
        }
        from += 1 + end;
    }
    Ok(Some(actions))
}

// How many bytes come before the first space.
fn word_end(bytes: &[u8]) -> usize
    ensures value { result ≡ prefix_len (λ byte. not (byte == space)) bytes.now }
    ensures inside { result ≤ length bytes.now }
{
    match end_of(bytes, SPACE) {
        Some(end) => end,
        None => bytes.len(),
    }
}

// The only action whose number a word can be.
fn read_action(word: &[u8]) -> Option<Action>
    ensures { MatchOption result ((action : ActionFields) → word.now ≡ decimal (number_of action) → ⊥)
        (λ found. (action : ActionFields) → word.now ≡ decimal (number_of action) → action ≡ found) }
{
    let number = match read_number(word) {
        Some(number) => number,
        None => return None,
    };
    if number >= u32::from(Action::COUNT) {
        return None;
    }
    Action::from_number(number as u8)
}
