//! The best macro of a craft, and how many prefixes that no other dominates there are of each length below its own.
#![tactic(auto)]

ghost use Rattle.std.specs.Prelude.{◌≡◌, ◌≤◌, IfOk, All, length, slice_index_or};
ghost use Rattle.std.specs.List.{AllZip};
ghost use Rattle.step_rules.specs.Legality.{start_of};
ghost use Rattle.step_rules.specs.Macro.{Completes, IsReached};
ghost use Rattle.macro_order.specs.Order.{IsBest};
ghost use Rattle.prefix_fronts.specs.Prefix.{IsGreatest};
ghost use Rattle.front_walk.specs.Asking.{AllMayAsk, AllStillAsk};
ghost use Rattle.best_search.specs.Looking.{TakesAtLeast};
ghost use Rattle.level_search.specs.Answer.{AreWithinLimits, HasQuality, Survives};
ghost use Rattle.level_search.specs.Reaching.{front_sizes};
ghost use Rattle.level_search.specs.Searching.{HasSeenWay, IsSearcherOf, StillSearches};
ghost use Rattle.level_search.specs.declared.searcher.Searcher.{Searcher as SearcherFields};

mod aim;
#[cfg(test)]
mod front_tests;
mod searcher;
#[cfg(test)]
mod tests;

use action_table::{Action, WantMemory};
use aim::Aim;
use best_search::{best_with_quality, seekers};
use craft_settings::Settings;
use front_walk::{Walk, Walker, sizes};
use quality_bound::QualityTruth;
use relaxed_moves::Scale;
use searcher::{hire, release};
pub use searcher::{FoundMacro, Searcher};
use seat_tables::Shared;
use std::alloc::Global;
use std::thread::Threads;
use step_bound::StepTruth;
use step_rules::{start, step};
use worker_gate::{Crew, Gate};

/// The best macro of a craft, with the number of survivors of each length below its own, and the searchers.
///
/// `target` is the greatest quality of a complete legal macro, in the units of the settings; `grain` is 1 to 64. There
/// are 1 to 64 searchers, and tables and seats belong to the settings and the grain. The survivors of a length are
/// the live legal prefixes that no other of this length dominates, and whose limit, and limit within the actions that
/// are left, aren't below the target. The searchers come back as many and in the same order, still of their tables, each
/// having seen at least what it had seen. The first has seen both bounds of the state after each action but the last.
/// Refused for memory it has dropped the searchers; the tables may have been filled meanwhile.
pub fn best_macro<G: Gate>(
    rt: &(impl Threads + Sync),
    alloc: Global,
    g: &Settings,
    grain: u32,
    target: u32,
    quality: &Shared<QualityTruth>,
    steps: &Shared<StepTruth>,
    searchers: Vec<Searcher>,
    gate: &G,
) -> Result<(FoundMacro, Vec<Searcher>), WantMemory>
    requires low { 1 ≤ length searchers.items }
    requires high { length searchers.items ≤ 64 }
    requires of { All (IsSearcherOf quality.now steps.now) searchers.items }
    requires quality_craft { quality.now.truth.g ≡ g.now }
    requires quality_grain { quality.now.truth.grain ≡ grain }
    requires steps_craft { steps.now.truth.g ≡ g.now }
    requires steps_grain { steps.now.truth.grain ≡ grain }
    requires reached { IsReached g.now target }
    requires greatest { IsGreatest g.now target }
    ensures best { IfOk result (λ r. IsBest g.now r.0.actions.items) }
    ensures target { IfOk result (λ r. HasQuality g.now r.0.actions.items target) }
    ensures counts { IfOk result (λ r. r.0.counts.items ≡ front_sizes g.now grain target (length r.0.actions.items)) }
    ensures inside { IfOk result (λ r. Survives g.now grain target r.0.actions.items) }
    ensures shortest { IfOk result (λ r. TakesAtLeast g.now (start_of g.now) target (length r.0.actions.items)) }
    ensures within { AreWithinLimits g.now grain }
    ensures as_many { IfOk result (λ r. length r.1.items ≡ length searchers.items) }
    ensures of { IfOk result (λ r. All (IsSearcherOf quality.now steps.now) r.1.items) }
    ensures still { IfOk result (λ r. AllZip StillSearches searchers.items r.1.items) }
    ensures seen { IfOk result (λ r. (d : SearcherFields) → HasSeenWay g.now grain r.0.actions.items (slice_index_or r.1.items 0 d)) }
{
    let aim = Aim {
        g,
        grain,
        target,
        quality,
        steps,
        scale: Scale::new(g, grain),
    };
    let actions = best_actions(rt, alloc, gate, &aim, searchers.len() as u32)?;
    let mut crew = Crew::new(rt, gate, hire(alloc, searchers)?);
    let counts = count(&mut crew, alloc, &aim, actions.len() as u32)?;
    let mut searchers = release(alloc, crew.into_workers())?;
    ask_way(&aim, &mut searchers[0], &actions);
    Ok((FoundMacro { actions, counts }, searchers))
}

// The best macro, by so many workers.
fn best_actions<G: Gate>(
    rt: &(impl Threads + Sync),
    alloc: Global,
    gate: &G,
    aim: &Aim<'_>,
    workers: u32,
) -> Result<Vec<Action>, WantMemory>
    requires low { 1 ≤ workers }
    requires high { workers ≤ 64 }
    requires reached { IsReached aim.now.g.now aim.now.target }
    requires greatest { IsGreatest aim.now.g.now aim.now.target }
    ensures { IfOk result (λ m. IsBest aim.now.g.now m.items) }
{
    let mut crew = Crew::new(rt, gate, seekers(alloc, workers)?);
    let from = start(aim.g);
    best_with_quality(&mut crew, alloc, aim.g, &from, aim.target)
}

// How many survivors there are of each length below `n`.
fn count<R: Threads + Sync, G: Gate>(
    crew: &mut Crew<'_, R, G, Walker<Searcher>>,
    alloc: Global,
    aim: &Aim<'_>,
    n: u32,
) -> Result<Vec<u64>, WantMemory>
    requires some { 1 ≤ n }
    requires askers { AllMayAsk (IsSearcherOf aim.now.quality.now aim.now.steps.now) crew.old.workers }
    ensures askers { AllMayAsk (IsSearcherOf aim.now.quality.now aim.now.steps.now) crew.new.workers }
    ensures still { AllStillAsk StillSearches crew.old.workers crew.new.workers }
    ensures counts { IfOk result (λ v. v.items ≡ front_sizes aim.now.g.now aim.now.grain aim.now.target n) }
{
    let from = start(aim.g);
    let walk = Walk {
        g: aim.g,
        from: &from,
        target: aim.target,
        test: aim,
    };
    sizes(crew, alloc, &walk, n)
}

// Asks for both bounds of the state after each action of a macro but the last.
fn ask_way(aim: &Aim<'_>, searcher: &mut Searcher, actions: &[Action])
    requires of { IsSearcherOf aim.now.quality.now aim.now.steps.now searcher.old }
    requires complete { Completes aim.now.g.now (start_of aim.now.g.now) actions.now }
    ensures of { IsSearcherOf aim.now.quality.now aim.now.steps.now searcher.new }
    ensures still { StillSearches searcher.old searcher.new }
    ensures seen { HasSeenWay aim.now.g.now aim.now.grain actions.now searcher.new }
{
    let mut state = start(aim.g);
    for k in 1..actions.len() {
        state = step(aim.g, &state, actions[k - 1]);
        aim.ask(searcher, (actions.len() - k) as u32, &state);
    }
}
