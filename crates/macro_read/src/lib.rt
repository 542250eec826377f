//! Macro text that is read back: the actions that its lines name, and the line between settings and macro text.
#![tactic(auto)]

ghost use Rattle.std.specs.Prelude.{◌≡◌, ◌≤◌, ◌↔◌, List, length, IfOk, IfErr};
ghost use Rattle.action_table.specs.declared.action.Action.{Action};
ghost use Rattle.macro_text.specs.Blocks.{blocks_of};
ghost use Rattle.macro_read.specs.Reading.{IsMacroText, IsFault};

mod fault;
pub mod laws;
mod lines;
mod mark;
#[cfg(test)]
mod tests;

use action_table::{Action, WantMemory};
pub use fault::MacroFault;
use lines::{Line, kind_of, without_return};
use macro_text::blocks;
pub use mark::divide;
use std::alloc::Global;

/// The actions that a macro text of at most 65536 bytes names, in order.
///
/// LF ends each line, and the last one may end with the text. One CR before the end of a line isn't part of it. A
/// line is empty; or the heading of a block: `macro`, one space and one to three ASCII digits; or it names an action:
/// `/ac` or `/action`, one space, the action's display name in quotation marks, and perhaps one space and `<wait.N>`
/// with one or two ASCII digits N. The numbers tell nothing. BadLine comes exactly for a text that has another line,
/// and gives the number of the first one, counted from 1.
pub fn macro_of(alloc: Global, bytes: &[u8]) -> Result<Vec<Action>, MacroFault>
    requires { length bytes.now ≤ 65536 }
    ensures ok { IfOk result (λ found. (actions : List Action) → IsMacroText bytes.now actions ↔ (actions ≡ found.items)) }
    ensures fault { IfErr result (IsFault bytes.now) }
{
    let mut actions = Vec::new(alloc);
    let mut number = 0;
    for line in bytes.split(|byte| *byte == b'\n') {
        number += 1;
        let kind = match kind_of(without_return(line)) {
            Some(kind) => kind,
            None => return Err(MacroFault::BadLine { line: number }),
        };
        if let Line::Names(action) = kind {
            actions.push(action)?;
        }
    }
    Ok(actions)
}

/// The macro blocks of at most 1000 actions, and the actions that are read back from them: they are the same.
pub fn read_back(alloc: Global, actions: &[Action]) -> Result<(Vec<u8>, Vec<Action>), WantMemory>
    requires { length actions.now ≤ 1000 }
    ensures text { IfOk result (λ both. both.0.items ≡ blocks_of actions.now) }
    ensures fits { IfOk result (λ both. IsMacroText both.0.items both.1.items) }
    ensures same { IfOk result (λ both. both.1.items ≡ actions.now) }
{
    let text = blocks(alloc, actions)?;
    match macro_of(alloc, &text) {
        Ok(read) => Ok((text, read)),
        Err(MacroFault::WantMemory) => Err(WantMemory),
        Err(MacroFault::BadLine { .. }) => unreachable!(),
    }
}
