// The three kinds of line.
ghost use Rattle.std.specs.Prelude.{◌≡◌, ◌≢◌, ◌≤◌, ◌++◌, ◌⊎◌, ◌↔◌, ◌==◌, IsTrue, MatchOption, length, position, codes};
ghost use Rattle.std.specs.Str.Lines.{strip_carriage_return};
ghost use Rattle.action_table.specs.declared.action.Action.{Action};
ghost use Rattle.action_table.specs.Table.{display_name_of};
ghost use Rattle.macro_read.specs.Lines.{Text, IsNumber, IsHeading, IsWait, IsCommand, IsActionLine, IsOfKind};
ghost use Rattle.macro_read.specs.Reading.{IsUnderstood};

use action_table::Action;

/// What a line of macro text is.
#[derive(Clone, Copy, Debug, PartialEq, Eq)]
pub(crate) enum Line {
    /// It has nothing in it.
    Empty,
    /// It begins a block.
    Heading,
    /// It names an action.
    Names(Action),
}

// How many digits the number of a block may have.
const HEADING_DIGITS: usize = 3;

// How many digits the seconds of a wait may have.
const WAIT_DIGITS: usize = 2;

// The line without one CR at its end.
pub(crate) fn without_return(line: &[u8]) -> &[u8]
    ensures { result.now ≡ strip_carriage_return line.now }
{
    match line {
        [text @ .., b'\r'] => text,
        _ => line,
    }
}

// The first place of a byte.
pub(crate) fn first_place(bytes: &[u8], wanted: u8) -> Option<usize>
    ensures { result ≡ position (λ byte. byte == wanted) bytes.now }
{
    bytes.iter().position(|byte| *byte == wanted)
}

// What follows this front.
fn after<'a>(text: &'a [u8], front: &[u8]) -> Option<&'a [u8]>
    ensures { MatchOption result ((rest : Text) → text.now ≢ front.now ++ rest) (λ rest. text.now ≡ front.now ++ rest.now) }
{
    text.strip_prefix(front)
}

// What stands before this end.
fn before<'a>(text: &'a [u8], end: &[u8]) -> Option<&'a [u8]>
    ensures { MatchOption result ((rest : Text) → text.now ≢ rest ++ end.now) (λ rest. text.now ≡ rest.now ++ end.now) }
{
    text.strip_suffix(end)
}

fn is_number(text: &[u8], most: usize) -> bool
    ensures { IsTrue result ↔ IsNumber most text.now }
{
    !text.is_empty() && text.len() <= most && text.iter().all(|byte| byte.is_ascii_digit())
}

fn is_heading(line: &[u8]) -> bool
    ensures { IsTrue result ↔ IsHeading line.now }
{
    after(line, b"macro ").is_some_and(|number| is_number(number, HEADING_DIGITS))
}

fn is_wait(text: &[u8]) -> bool
    ensures { IsTrue result ↔ IsWait text.now }
{
    after(text, b" <wait.")
        .and_then(|rest| before(rest, b">"))
        .is_some_and(|number| is_number(number, WAIT_DIGITS))
}

// The action with this display name.
fn action_named(name: &[u8]) -> Option<Action>
    ensures { MatchOption result ((action : Action) → display_name_of action ≢ name.now) (λ action. display_name_of action ≡ name.now) }
{
    for &action in Action::ALL.iter() {
        if action.display_name().as_bytes() == name {
            return Some(action);
        }
    }
    None
}

// The action whose display name stands before the first quotation mark, and what follows that mark.
fn name_and_rest(text: &[u8]) -> Option<(Action, &[u8])>
    ensures { MatchOption result ((action : Action) (rest : Text) → text.now ≢ display_name_of action ++ (codes "\"" ++ rest))
        (λ found. text.now ≡ display_name_of found.0 ++ (codes "\"" ++ found.1.now)) }
{
    let end = first_place(text, b'"')?;
    let action = action_named(&text[..end])?;
    Some((action, &text[end + 1..]))
}

// What follows the command and the first quotation mark.
fn quoted(line: &[u8]) -> Option<&[u8]>
    ensures { MatchOption result ((command rest : Text) → IsCommand command → line.now ≢ command ++ (codes " \"" ++ rest))
        (λ rest. (command : Text) × IsCommand command × (line.now ≡ command ++ (codes " \"" ++ rest.now))) }
{
    match after(line, b"/ac \"") {
        Some(rest) => Some(rest),
        None => after(line, b"/action \""),
    }
}

// The action that the line of an action names.
fn action_in(line: &[u8]) -> Option<Action>
    ensures { MatchOption result ((action : Action) → IsActionLine action line.now → ⊥) (λ action. IsActionLine action line.now) }
{
    let (action, wait) = name_and_rest(quoted(line)?)?;
    if wait.is_empty() || is_wait(wait) {
        Some(action)
    } else {
        None
    }
}

/// What a line is; none where it is of none of the three kinds.
pub(crate) fn kind_of(line: &[u8]) -> Option<Line>
    ensures { MatchOption result (IsUnderstood line.now → ⊥) (IsOfKind line.now) }
{
    if line.is_empty() {
        return Some(Line::Empty);
    }
    if is_heading(line) {
        return Some(Line::Heading);
    }
    match action_in(line) {
        Some(action) => Some(Line::Names(action)),
        None => None,
    }
}
