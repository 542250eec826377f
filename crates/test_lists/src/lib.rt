//! All lists of legal actions from a state, for tests that try each of them. Nothing but tests uses it.
#![tactic(auto)]

ghost use Rattle.std.specs.Prelude.{◌≡◌, ◌+◌, ℕ, Some, false, IfOk, IfSome, OnOk, All};
ghost use Rattle.craft_state.specs.Craft.{StateFields};
ghost use Rattle.step_rules.specs.Legality.{IsWithin, is_over, start_of};
ghost use Rattle.step_rules.specs.Run.{run_of};
ghost use Rattle.test_lists.specs.Lists.{IsListed};

use action_table::{Action, WantMemory};
use craft_settings::Settings;
use craft_state::State;
use std::alloc::Global;
use step_rules::{check, is_final, replay, start, step};

/// A list of legal actions, the state that it leads to, and how many seconds it takes.
#[derive(Drop)]
pub struct Listed {
    pub actions: Vec<Action>,
    pub state: State,
    pub seconds: u32,
}

/// The state after these actions from the start, where they are legal and the craft isn't over.
pub fn open_after(g: &Settings, actions: &[Action]) -> Option<State>
    ensures ran { IfSome result (λ s. run_of g.now (start_of g.now) actions.now ≡ Some s) }
    ensures within { IfSome result (IsWithin g.now) }
    ensures live { IfSome result (λ s. is_over g.now s ≡ false) }
{
    let Ok(s) = replay(g, &start(g), actions) else {
        return None;
    };
    if is_final(g, &s) { None } else { Some(s) }
}

/// All lists of `n` legal actions from a state, in action order.
pub fn all_lists(
    alloc: Global,
    g: &Settings,
    from: &State,
    n: u32,
) -> Result<Vec<Listed>, WantMemory>
    requires { IsWithin g.now from.now }
    ensures { IfOk result (λ lists. All (IsListed g.now from.now n) lists.items) }
{
    let mut lists = Vec::new(alloc);
    lists.push(Listed {
        actions: Vec::new(alloc),
        state: *from,
        seconds: 0,
    })?;
    for _turn in 0..n {
        lists = longer_lists(alloc, g, &lists)?;
    }
    Ok(lists)
}

// The lists of one more action.
fn longer_lists(alloc: Global, g: &Settings, lists: &[Listed]) -> Result<Vec<Listed>, WantMemory>
    requires { All (λ l. IsWithin g.now l.state) lists.now }
    ensures { IfOk result (λ longer.
        (from : StateFields) (n : ℕ) → All (IsListed g.now from n) lists.now → All (IsListed g.now from (n + 1)) longer.items) }
{
    let mut longer = Vec::new(alloc);
    for listed in lists {
        push_longer(alloc, g, listed, &mut longer)?;
    }
    Ok(longer)
}

// Appends the lists of one more action than a list.
fn push_longer(
    alloc: Global,
    g: &Settings,
    listed: &Listed,
    longer: &mut Vec<Listed>,
) -> Result<(), WantMemory>
    requires { IsWithin g.now listed.now.state }
    ensures { OnOk result ((from : StateFields) (n : ℕ) → IsListed g.now from n listed.now →
        All (IsListed g.now from (n + 1)) longer.old.items → All (IsListed g.now from (n + 1)) longer.new.items) }
{
    for &action in Action::ALL.iter() {
        if let Some(next) = longer_by(alloc, g, listed, action)? {
            longer.push(next)?;
        }
    }
    Ok(())
}

// The list with an action more, where that is legal.
#[tactic(auto, using(crate::proofs::Longer::listed_longer))]
fn longer_by(
    alloc: Global,
    g: &Settings,
    listed: &Listed,
    action: Action,
) -> Result<Option<Listed>, WantMemory>
    requires { IsWithin g.now listed.now.state }
    ensures { IfOk result (λ next. IfSome next (λ l.
        (from : StateFields) (n : ℕ) → IsListed g.now from n listed.now → IsListed g.now from (n + 1) l)) }
{
    if check(g, &listed.state, action).is_err() {
        return Ok(None);
    }
    let mut actions = Vec::new(alloc);
    actions.extend_from_slice(&listed.actions)?;
    actions.push(action)?;
    Ok(Some(Listed {
        actions,
        state: step(g, &listed.state, action),
        seconds: listed.seconds.saturating_add(action.seconds()),
    }))
}

#[cfg(test)]
mod tests;
