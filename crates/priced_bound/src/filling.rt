// The parts of a table, and what is done with what they tell.
ghost use Rattle.std.specs.Prelude.{◌≡◌, ◌≤◌, ◌+◌, ◌*◌, ◌/◌, min, IfOk};
ghost use Rattle.craft_settings.specs.Rules.{cap_of};
ghost use Rattle.relaxed_moves.specs.Optimum.{option_max, is_enough};
ghost use Rattle.priced_graph.specs.Sights.{sights_of, node_count};
ghost use Rattle.priced_bound.specs.Tables.{AreComboLists, AreNeeds, IsTableOf};

use crate::choices::MOST_WORTH;
use crate::reckoning::{MOST_PROMISE, Reckoning};
use action_table::WantMemory;
use craft_state::{Combo, State};
use priced_graph::{Sights, graph_of};
use priced_moves::{Edge, Seen, combo_edges};
use std::alloc::Global;
use std::thread::Threads;
use walk_table::{Limits, WalkTable};

// The edges that a combo adds at each sight of a craft.
pub(crate) fn combo_lists(
    alloc: Global,
    r: &Reckoning,
    combo: Combo,
) -> Result<Vec<Vec<Edge>>, WantMemory>
    ensures { IfOk result (λ v. AreComboLists r.now combo (node_count (sights_of r.now.g)) v.items) }
{
    let sights = Sights::of(&r.settings);
    let mut lists = Vec::new(alloc);
    for node in 0..sights.nodes() {
        let x = Seen {
            combo,
            ..sights.seen(node)
        };
        let edges = combo_edges(alloc, &r.prices, &r.settings, &r.units, &x)?;
        lists.push(edges)?;
    }
    Ok(lists)
}

// The units of progress that are left, by the points that are done.
pub(crate) fn needs_of(alloc: Global, r: &Reckoning) -> Result<Vec<u16>, WantMemory>
    ensures { IfOk result (λ v. AreNeeds r.now v.items) }
{
    let mut needs = Vec::new(alloc);
    for points in 0..r.points() + 1 {
        needs.push(r.need_after(points) as u16)?;
    }
    Ok(needs)
}

// The table of walks of a reckoning, for budgets up to `top`.
pub(crate) fn walks(
    rt: &(impl Threads + Sync),
    alloc: Global,
    r: &Reckoning,
    top: u32,
    workers: usize,
) -> Result<WalkTable, WantMemory>
    ensures { IfOk result (IsTableOf r.now top) }
{
    let _nodes = Sights::of(&r.settings).nodes();
    let graph = graph_of(alloc, &r.prices, &r.settings, &r.units)?;
    let limits = Limits {
        top: top as usize,
        needs: r.need() as usize + 1,
        most: MOST_WORTH as u16,
    };
    let table = WalkTable::new(rt, alloc, graph, limits, workers)?;
    Ok(table)
}

// The greater of two.
pub(crate) fn greater(a: Option<u32>, b: Option<u32>) -> Option<u32>
    ensures { result ≡ option_max a b }
{
    match (a, b) {
        (None, _) => b,
        (_, None) => a,
        (Some(m), Some(n)) => Some(m.max(n)),
    }
}

// The quality of a state after a gain, cut.
pub(crate) fn raised(r: &Reckoning, s: &State, gain: u32) -> u32
    ensures { result ≡ min MOST_PROMISE (s.now.quality + r.now.units.quality * gain) }
{
    let points = r.units.quality as u64 * gain as u64;
    (MOST_PROMISE as u64).min(s.quality as u64 + points) as u32
}

// The part of a quality that counts.
pub(crate) fn cut(r: &Reckoning, quality: u32) -> u32
    ensures { result ≡ min (cap_of r.now.g) quality }
{
    r.settings.cap().min(quality)
}

// How many whole coins so many parts make. To divide by a number that the compiler knows takes much less time, and the
// coins of all prices that are chosen for a craft are among these.
pub(crate) fn coins(parts: u32, coin: u32) -> u32
    requires { 1 ≤ coin }
    ensures { result ≡ parts / coin }
{
    match coin {
        1 => parts,
        2 => parts / 2,
        4 => parts / 4,
        8 => parts / 8,
        _ => parts / coin,
    }
}

// Whether the first step is still to come.
pub(crate) fn is_first(s: &State) -> bool
    ensures { result ≡ s.now.effects.first }
{
    s.effects.first
}

// Whether a limit isn't below the target.
pub(crate) fn is_enough(target: u32, limit: Option<u32>) -> bool
    ensures { result ≡ is_enough target limit }
{
    match limit {
        Some(most) => target <= most,
        None => false,
    }
}
