// The sweep under a floor.
ghost use Rattle.std.specs.Prelude.{◌≡◌, ◌⊎◌, ◌∷◌, [], ◌+◌, ◌<◌, All, IfOk, OnOk, length};
ghost use Rattle.quality_sweep.specs.Ahead.{IsGreatestAbove, IsOutlook};
ghost use Rattle.quality_sweep.specs.Places.{place_of};
ghost use Rattle.quality_sweep.specs.Sweeping.{IsWaiting, Becomes, Chooses, Puts, Holds};

use crate::candidate::Candidate;
use crate::ceiling::Ceiling;
use crate::expand::explore;
use crate::outlook::Outlook;
use crate::places::{DEPTH, measure, width_of};
use crate::quality::is_above;
use crate::shelves::Shelves;
use action_table::WantMemory;
use craft_settings::Settings;
use pareto_front::Kept;
use std::alloc::Global;

/// The greatest quality above a floor with which a list completes the craft, and None where no list has more than the
/// floor; without a floor, where no list completes the craft.
///
/// Each state that may lead to more is expanded once, in the order of the places, so that a state that isn't less than
/// another comes before it. What is kept of a window of progress is dropped with the window.
pub(crate) fn sweep_above<C: Ceiling>(
    alloc: Global,
    outlook: &Outlook<'_, C>,
    floor: Option<u32>,
) -> Result<Option<u32>, WantMemory>
    requires looks { IsOutlook outlook.now.g.now (C.allows outlook.now.ceiling.now) (C.limit_of outlook.now.ceiling.now)
        outlook.now.from.now }
    ensures { IfOk result (IsGreatestAbove outlook.now.g.now outlook.now.from.now floor) }
{
    let mut shelves = Shelves::new(alloc, outlook.g, width_of(outlook.g))?;
    shelves.put(&first(outlook))?;
    let count = shelves.len();
    let mut front = Front {
        shelves,
        kept: Kept::new(alloc),
        best: floor,
    };
    for place in 0..count {
        enter(alloc, place, &mut front);
        clear(alloc, outlook, place, &mut front)?;
    }
    match front.best {
        None => Ok(None),
        Some(quality) => {
            if !is_above(quality, floor) {
                return Ok(None);
            }
            Ok(Some(quality))
        }
    }
}

/// The state that is looked through, whose completions keep to the cap.
pub(crate) fn first<C: Ceiling>(outlook: &Outlook<'_, C>) -> Candidate
    requires looks { IsOutlook outlook.now.g.now (C.allows outlook.now.ceiling.now) (C.limit_of outlook.now.ceiling.now)
        outlook.now.from.now }
    ensures waits { IsWaiting outlook.now.g.now (C.allows outlook.now.ceiling.now) outlook.now.from.now result }
    ensures state { result.state ≡ outlook.now.from.now }
{
    Candidate {
        state: *outlook.from,
        limit: outlook.g.cap(),
        rank: outlook.g.cap(),
    }
}

// How far a sweep has come: what waits, what is kept of the window, and the floor or the best quality above it.
#[derive(Drop)]
struct Front {
    shelves: Shelves,
    kept: Kept,
    best: Option<u32>,
}

// Drops what is kept of the last window where the next one begins.
fn enter(alloc: Global, place: usize, front: &mut Front)
    ensures shelves { front.new.shelves ≡ front.old.shelves }
    ensures best { front.new.best ≡ front.old.best }
    ensures kept { (front.new.kept ≡ front.old.kept) ⊎ (front.new.kept ≡ []) }
{
    if place % DEPTH == 0 {
        front.kept = Kept::new(alloc);
    }
}

// Looks at the states of one place.
fn clear<C: Ceiling>(
    alloc: Global,
    outlook: &Outlook<'_, C>,
    place: usize,
    front: &mut Front,
) -> Result<(), WantMemory>
    requires looks { IsOutlook outlook.now.g.now (C.allows outlook.now.ceiling.now) (C.limit_of outlook.now.ceiling.now)
        outlook.now.from.now }
    requires inside { place < length front.old.shelves.lists }
    requires holds { Holds outlook.now.g.now (C.allows outlook.now.ceiling.now) outlook.now.from.now
        place front.old.kept front.old.shelves front.old.best }
    ensures holds { OnOk result (Holds outlook.now.g.now (C.allows outlook.now.ceiling.now) outlook.now.from.now
        (place + 1) front.new.kept front.new.shelves front.new.best) }
    ensures becomes { OnOk result (Becomes outlook.now.g.now outlook.now.from.now front.old.best front.new.best) }
    ensures count { OnOk result (length front.new.shelves.lists ≡ length front.old.shelves.lists) }
{
    let mut batch = front.shelves.take(place);
    batch.sort_unstable_by_key(rank);
    let mut chosen = Vec::new(alloc);
    choose(outlook.g, &batch, front.best, &mut front.kept, &mut chosen)?;
    let mut found = Vec::new(alloc);
    front.best = explore(outlook, &chosen, &mut found, front.best)?;
    put_all(&mut front.shelves, &found)?;
    Ok(())
}

// Less for a state that is not less than another.
fn rank(c: &Candidate) -> u32 {
    u32::MAX - (measure(&c.state) + c.state.quality)
}

// Keeps the candidates of a batch that may lead to more than the best quality, and that no kept state covers; they are
// chosen.
fn choose(
    g: &Settings,
    batch: &[Candidate],
    best: Option<u32>,
    kept: &mut Kept,
    chosen: &mut Vec<Candidate>,
) -> Result<(), WantMemory>
    ensures { OnOk result (Chooses g.now batch.now best kept.old kept.new chosen.old.items chosen.new.items) }
{
    for candidate in batch {
        choose_one(g, candidate, best, kept, chosen)?;
    }
    Ok(())
}

// The same for one candidate.
fn choose_one(
    g: &Settings,
    candidate: &Candidate,
    best: Option<u32>,
    kept: &mut Kept,
    chosen: &mut Vec<Candidate>,
) -> Result<(), WantMemory>
    ensures { OnOk result (Chooses g.now (candidate.now ∷ []) best kept.old kept.new chosen.old.items chosen.new.items) }
{
    if !is_above(g.cap().min(candidate.limit), best) {
        return Ok(());
    }
    let is_new = kept.offer(&candidate.state)?;
    if is_new {
        chosen.push(*candidate)?;
    }
    Ok(())
}

// Puts candidates on their shelves.
fn put_all(shelves: &mut Shelves, found: &[Candidate]) -> Result<(), WantMemory>
    requires { All (λ c. place_of shelves.old.width c.state < length shelves.old.lists) found.now }
    ensures { OnOk result (Puts found.now shelves.old shelves.new) }
{
    for candidate in found {
        shelves.put(candidate)?;
    }
    Ok(())
}
