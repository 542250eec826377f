//! Which of two complete macros is better.
#![tactic(auto)]

ghost use Rattle.std.specs.Prelude.{◌≡◌, ◌+◌, ◌*◌, ◌≤◌, length};
ghost use Rattle.action_table.specs.Table.{action_seconds};
ghost use Rattle.craft_settings.specs.Ranges.{AreSettings};
ghost use Rattle.macro_order.specs.Order.{score_of, seconds_of, is_better, precedes};

use action_table::Action;
use craft_settings::Settings;
use step_rules::{counted, is_complete, replay, start};

pub mod laws;
mod scores;

pub use scores::Score;

/// The score of a list that is a complete legal macro from the start, and None of any other list.
pub fn score(g: &Settings, actions: &[Action]) -> Option<Score>
    ensures { result ≡ score_of g.now actions.now }
{
    match replay(g, &start(g), actions) {
        Ok(last) if is_complete(g, &last) => {
            Some(Score {
                quality: counted(g, &last),
                steps: actions.len() as u32,
                seconds: seconds(actions),
            })
        }
        _ => None,
    }
}

/// How many seconds a list of at most 1000 actions takes: the sum over its actions, each of which takes 2 or 3.
pub fn seconds(actions: &[Action]) -> u32
    requires { length actions.now ≤ 1000 }
    ensures value { result ≡ seconds_of actions.now }
    ensures small { result ≤ 3 * length actions.now }
{
    let mut total = 0;
    for &action in actions {
        total += action.seconds();
    }
    total
}

/// Whether the first of two macros with their scores is better: it has more quality, or as much in fewer steps, or
/// then in fewer seconds, or then the smaller action number where the lists first differ.
pub fn better(a: &Score, first: &[Action], b: &Score, second: &[Action]) -> bool
    requires first { length first.now ≡ a.now.steps }
    requires second { length second.now ≡ b.now.steps }
    ensures { result ≡ is_better a.now first.now b.now second.now }
{
    if a.quality != b.quality {
        a.quality > b.quality
    } else if a.steps != b.steps {
        a.steps < b.steps
    } else if a.seconds != b.seconds {
        a.seconds < b.seconds
    } else {
        is_before(first, second)
    }
}

/// Whether the first of two lists of one length has the smaller action number where they first differ.
pub fn is_before(first: &[Action], second: &[Action]) -> bool
    requires { length first.now ≡ length second.now }
    ensures { result ≡ precedes first.now second.now }
{
    for (place, a) in first.iter().enumerate() {
        let (a, b) = (a.number(), second[place].number());
        if a != b {
            return a < b;
        }
    }
    false
}

#[cfg(test)]
mod tests;
