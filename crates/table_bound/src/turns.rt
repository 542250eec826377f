// What a relaxed move does to a whole column.
ghost use Rattle.std.specs.Prelude.{◌≡◌, ◌≤◌, IfSome, MatchOption};
ghost use Rattle.relaxed_moves.specs.Scales.{IsScale};
ghost use Rattle.table_bound.specs.Columns.{IsPlaced, LeadsNowhere, LeadsDown};

use crate::bound::Bound;
use crate::words::{Column, column_of};
use action_table::Action;
use relaxed_moves::{Scale, is_move, move_gain, move_on_by};

// A move of a column: the column after it, what it gains, and how many buckets it leads down.
#[derive(Clone, Copy)]
pub(crate) struct Turn {
    pub column: Column,
    pub gain: u32,
    pub down: usize,
}

// The turn by an action from a column, None where it is no move or takes more than the budget.
pub(crate) fn turn_by<T: Bound>(
    truth: &T,
    scale: &Scale,
    column: &Column,
    action: Action,
) -> Option<Turn>
    requires scale { IsScale (T.rules truth.now).g (T.rules truth.now).grain scale.now }
    requires column { IsPlaced (T.rules truth.now) column.now.budget column.now.x column.now.bottom }
    ensures turn { MatchOption result (LeadsNowhere (T.rules truth.now) column.now.budget column.now.x action) (λ turn.
        LeadsDown (T.rules truth.now) column.now.budget column.now.x action turn.column.budget turn.gain turn.down turn.column.x) }
    ensures placed { IfSome result (λ turn. IsPlaced (T.rules truth.now) turn.column.budget turn.column.x turn.column.bottom) }
{
    let g = truth.settings();
    let grain = truth.grain();
    if !is_move(g, &column.x, action) {
        return None;
    }
    let price = truth.price(scale, action);
    if column.budget < price {
        return None;
    }
    let next = move_on_by(g, grain, scale.unit, &column.x, action);
    let down = (grain - next.bucket) as usize;
    Some(Turn {
        column: column_of(truth, column.budget - price, &next),
        gain: move_gain(g, &column.x, action),
        down,
    })
}
