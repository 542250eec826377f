// The actions that are done, and the list that the words give of them.
ghost use Rattle.std.specs.Prelude.{◌≡◌, None, Some, IfOk, MatchOption};
ghost use Rattle.solve_words.specs.Done.{done_of};

use action_table::{Action, WantMemory};
use std::alloc::Global;
use std::marker::Model;

/// Actions that are already done. Contracts see them as their list.
#[derive(Debug, Drop)]
pub struct Done {
    pub actions: Vec<Action>,
}

impl Model for Done {
    ghost use Rattle.std.specs.Prelude.{List};
    ghost use Rattle.action_table.specs.declared.action.Action.{Action};

    ghost Value = { List Action };

    ghost view = { λ d. d.actions.items };
}

// The actions whose key names a text lists, with single commas between them. None for any other text.
pub(crate) fn done_in(alloc: Global, text: &str) -> Result<Option<Done>, WantMemory>
    ensures { IfOk result (λ found. MatchOption found (done_of text.now ≡ None) (λ done. done_of text.now ≡ Some done)) }
{
    let mut actions = Vec::new(alloc);
    for name in text.split(',') {
        let Some(action) = Action::from_key(name) else {
            return Ok(None);
        };
        actions.push(action)?;
    }
    Ok(Some(Done { actions }))
}
