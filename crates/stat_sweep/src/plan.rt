use action_table::Action;
use std::marker::Model;

/// The actions of a macro. Contracts see it as their list.
#[derive(Drop)]
pub struct Plan {
    pub actions: Vec<Action>,
}

impl Model for Plan {
    ghost use Rattle.std.specs.Prelude.{List};
    ghost use Rattle.action_table.specs.declared.action.Action.{Action};

    ghost Value = { List Action };

    ghost view = { λ p. p.actions.items };
}
