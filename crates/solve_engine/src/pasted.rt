// A macro that is pasted after settings.
ghost use Rattle.std.specs.Prelude.{◌≡◌, ◌≤◌, IfErr, IfOk, IfSome, length, option_map};
ghost use Rattle.craft_settings.specs.Reading.{max_length};
ghost use Rattle.run_io.specs.declared.reading.TheConstants.{READ_MOST};
ghost use Rattle.solve_engine.specs.Input.{AreParts};
ghost use Rattle.solve_engine.specs.Pasted.{IsHaltOfInput, IsHaltOfMacro, IsInput, IsPasted, bad_line, no_mark_line};

use action_table::{Action, WantMemory};
use craft_settings::{MAX_LENGTH, Settings};
use macro_read::{MacroFault, divide, macro_of};
use run_io::{Halt, Status, settings_in};
use std::alloc::Global;

/// A craft, and a macro for it.
#[derive(Drop)]
pub(crate) struct Pasted {
    pub(crate) craft: Settings,
    pub(crate) actions: Vec<Action>,
}

/// The settings and the macro of an input. It halts where either is refused, and for want of memory.
pub(crate) fn pasted_in(alloc: Global, input: &[u8]) -> Result<Pasted, Halt>
    requires { length input.now ≤ READ_MOST }
    ensures found { IfOk result (λ p. IsInput input.now p.craft p.actions.items) }
    ensures halts { IfErr result (IsHaltOfInput input.now) }
{
    let (settings, rest) = parts_within(input, MAX_LENGTH);
    let craft = settings_in(alloc, settings)?;
    let actions = actions_in(alloc, rest)?;
    Ok(Pasted { craft, actions })
}

/// The settings of an input, and what follows them after the line `---`, if there is such a line. An input of more bytes
/// than `most` isn't divided.
pub(crate) fn parts_within(input: &[u8], most: usize) -> (&[u8], Option<&[u8]>)
    ensures are { AreParts most input.now result.0.now (option_map (λ text. text.now) result.1) }
    ensures short { IfSome result.1 (λ text. length text.now ≤ most) }
{
    if input.len() > most {
        return (input, None);
    }
    match divide(input) {
        Some((settings, rest)) => (settings, Some(rest)),
        None => (input, None),
    }
}

// The actions of the macro text that follows settings.
fn actions_in(alloc: Global, rest: Option<&[u8]>) -> Result<Vec<Action>, Halt>
    requires { IfSome rest (λ text. length text.now ≤ max_length) }
    ensures found { IfOk result (λ actions. IsPasted (option_map (λ text. text.now) rest.entry) actions.items) }
    ensures halts { IfErr result (IsHaltOfMacro (option_map (λ text. text.now) rest.entry)) }
{
    let Some(text) = rest else {
        return Err(Halt::refused(Status::BadMacro, no_mark_text(alloc)?));
    };
    match macro_of(alloc, text) {
        Ok(actions) => Ok(actions),
        Err(MacroFault::BadLine { line }) => Err(Halt::refused(
            Status::BadMacro,
            bad_line_text(alloc, line)?,
        )),
        Err(MacroFault::WantMemory) => Err(Halt::WantMemory),
    }
}

fn no_mark_text(alloc: Global) -> Result<Vec<u8>, WantMemory>
    ensures { IfOk result (λ line. line.items ≡ no_mark_line) }
{
    Ok(Vec::from_slice(alloc, b"macro: no --- line\n")?)
}

fn bad_line_text(alloc: Global, line: u32) -> Result<Vec<u8>, WantMemory>
    ensures { IfOk result (λ told. told.items ≡ bad_line line) }
{
    let told = format!(in alloc; "macro: line {line} not understood\n")?;
    Ok(told.into_bytes())
}
