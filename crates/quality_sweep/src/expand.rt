// Looking at the children of states.
ghost use Rattle.std.specs.Prelude.{◌≡◌, ◌∷◌, [], All, IfOk};
ghost use Rattle.action_table.specs.Table.{all_actions};
ghost use Rattle.quality_sweep.specs.Ahead.{IsOutlook};
ghost use Rattle.quality_sweep.specs.Sweeping.{IsWaiting, IsChild, Visits, Expands, Explores};

use crate::candidate::Candidate;
use crate::ceiling::Ceiling;
use crate::outlook::Outlook;
use crate::quality::is_above;
use action_table::{Action, WantMemory};
use craft_state::State;
use step_rules::{check, counted, is_complete, is_final, step};

/// Expands the candidates of a batch, one after another. What is found takes the place of what `found` held, and the
/// best quality that is then known is answered.
pub(crate) fn explore<C: Ceiling>(
    outlook: &Outlook<'_, C>,
    batch: &[Candidate],
    found: &mut Vec<Candidate>,
    best: Option<u32>,
) -> Result<Option<u32>, WantMemory>
    requires looks { IsOutlook outlook.now.g.now (C.allows outlook.now.ceiling.now) (C.limit_of outlook.now.ceiling.now)
        outlook.now.from.now }
    requires waits { All (IsWaiting outlook.now.g.now (C.allows outlook.now.ceiling.now) outlook.now.from.now) batch.now }
    ensures { IfOk result (λ after.
        Explores outlook.now.g.now (C.allows outlook.now.ceiling.now) outlook.now.from.now batch.now found.new.items best after) }
{
    found.clear();
    let mut best = best;
    for candidate in batch {
        best = expand(outlook, candidate, found, best)?;
    }
    Ok(best)
}

// Looks at the children of a candidate: the open ones that may lead to more than the best quality are added to the
// found ones.
fn expand<C: Ceiling>(
    outlook: &Outlook<'_, C>,
    parent: &Candidate,
    found: &mut Vec<Candidate>,
    best: Option<u32>,
) -> Result<Option<u32>, WantMemory>
    requires looks { IsOutlook outlook.now.g.now (C.allows outlook.now.ceiling.now) (C.limit_of outlook.now.ceiling.now)
        outlook.now.from.now }
    requires waits { IsWaiting outlook.now.g.now (C.allows outlook.now.ceiling.now) outlook.now.from.now parent.now }
    ensures { IfOk result (λ after. Expands outlook.now.g.now (C.allows outlook.now.ceiling.now) outlook.now.from.now
        parent.now.state all_actions found.old.items found.new.items best after) }
{
    let mut best = best;
    for &action in Action::ALL.iter() {
        best = act(outlook, parent, action, found, best)?;
    }
    Ok(best)
}

// Looks at the child by one action, where it is legal.
fn act<C: Ceiling>(
    outlook: &Outlook<'_, C>,
    parent: &Candidate,
    action: Action,
    found: &mut Vec<Candidate>,
    best: Option<u32>,
) -> Result<Option<u32>, WantMemory>
    requires looks { IsOutlook outlook.now.g.now (C.allows outlook.now.ceiling.now) (C.limit_of outlook.now.ceiling.now)
        outlook.now.from.now }
    requires waits { IsWaiting outlook.now.g.now (C.allows outlook.now.ceiling.now) outlook.now.from.now parent.now }
    ensures { IfOk result (λ after. Expands outlook.now.g.now (C.allows outlook.now.ceiling.now) outlook.now.from.now
        parent.now.state (action ∷ []) found.old.items found.new.items best after) }
{
    if check(outlook.g, &parent.state, action).is_err() {
        return Ok(best);
    }
    let child = step(outlook.g, &parent.state, action);
    let after = visit(outlook, &child, found, best)?;
    Ok(after)
}

// Adds an open child that may lead to more quality, and takes the quality of a complete one.
fn visit<C: Ceiling>(
    outlook: &Outlook<'_, C>,
    child: &State,
    found: &mut Vec<Candidate>,
    best: Option<u32>,
) -> Result<Option<u32>, WantMemory>
    requires looks { IsOutlook outlook.now.g.now (C.allows outlook.now.ceiling.now) (C.limit_of outlook.now.ceiling.now)
        outlook.now.from.now }
    requires child { IsChild outlook.now.g.now (C.allows outlook.now.ceiling.now) outlook.now.from.now child.now }
    ensures { IfOk result (λ after. Visits outlook.now.g.now (C.allows outlook.now.ceiling.now) outlook.now.from.now
        child.now found.old.items found.new.items best after) }
{
    if is_complete(outlook.g, child) {
        let quality = counted(outlook.g, child);
        if is_above(quality, best) {
            return Ok(Some(quality));
        }
        return Ok(best);
    }
    if is_final(outlook.g, child) {
        return Ok(best);
    }
    let limit = match outlook.ceiling.limit(child) {
        Some(limit) => limit,
        None => return Ok(best),
    };
    if !is_above(outlook.g.cap().min(limit), best) {
        return Ok(best);
    }
    found.push(Candidate {
        state: *child,
        limit,
        rank: outlook.ceiling.rank(child, limit),
    })?;
    Ok(best)
}
