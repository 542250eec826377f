//! The text of a macro, in blocks that the game takes.
#![tactic(auto)]

ghost use Rattle.std.specs.Prelude.{◌≡◌, ◌≤◌, ◌++◌, IfOk, OnOk, string_bytes};
ghost use Rattle.macro_text.specs.Blocks.{blocks_of, block_text, action_line};

use action_table::{Action, WantMemory};
use std::alloc::{AllocError, Global};
use std::fmt::Write;

#[cfg(test)]
mod tests;

// How many actions a block takes.
const BLOCK_LENGTH: usize = 15;

/// The text of these actions: they are cut into fifteens, of which the last may have fewer. Each gives a block, the
/// line `macro i` with i from 1 on, and then a line `/ac "Name" <wait.s>` for each of its actions, with the action's
/// display name and its seconds. Each line ends with one LF byte. Of no actions the text is empty. Errors: only where memory
/// runs out.
pub fn blocks(alloc: Global, actions: &[Action]) -> Result<Vec<u8>, WantMemory>
    ensures { IfOk result (λ text. text.items ≡ blocks_of actions.now) }
{
    let mut text = String::new(alloc);
    let mut number = 0;
    for block in actions.chunks(BLOCK_LENGTH) {
        number += 1;
        push_block(&mut text, number, block)?;
    }
    Ok(text.into_bytes())
}

fn push_block(text: &mut String, number: usize, block: &[Action]) -> Result<(), AllocError>
    ensures { OnOk result (string_bytes text.new ≡ string_bytes text.old ++ block_text number block.now) }
{
    writeln!(text, "macro {number}")?;
    for action in block {
        push_action_line(text, *action)?;
    }
    Ok(())
}

fn push_action_line(text: &mut String, action: Action) -> Result<(), AllocError>
    ensures { OnOk result (string_bytes text.new ≡ string_bytes text.old ++ action_line action) }
{
    let name = action.display_name();
    let seconds = action.seconds();
    writeln!(text, "/ac \"{name}\" <wait.{seconds}>")
}
