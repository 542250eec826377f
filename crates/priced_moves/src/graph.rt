ghost use Rattle.std.specs.Prelude.{ℕ, ◌∷◌, [], ◌≡◌, ◌≤◌, ◌+◌, ◌++◌, map, IfOk, OnOk};
ghost use Rattle.action_table.specs.declared.action.Action.TheVariants.{StandardTouch, RefinedTouch};
ghost use Rattle.combo_effects.specs.Combos.{next_combo};
ghost use Rattle.craft_state.specs.declared.Combo.TheVariants.{NoCombo, Basic};
ghost use Rattle.priced_moves.specs.Edges.{edges_from, edges_at, edges_of, combo_edges_of, edge_at, walked, start_trail, onto, IsShort, AreSmallTerms};
ghost use Rattle.priced_moves.specs.Moves.{AreSmallUnits};
ghost use Rattle.priced_moves.specs.Prices.{AreSmall};

use crate::kinds::{Edge, Prices, Seen, Terms, Trail, Units};
use crate::moves::{gain, is_move, move_on, shift};
use crate::prices::price;
use action_table::{Action, WantMemory};
use craft_settings::Settings;
use craft_state::Combo;
use std::alloc::Global;

// No move yet.
fn start(x: &Seen) -> Trail
    ensures value { result ≡ start_trail x.now }
    ensures short { IsShort 0 result }
{
    Trail {
        cost: 0,
        gain: 0,
        shift: 0,
        at: *x,
    }
}

// One more move.
fn walk(terms: &Terms, trail: &Trail, action: Action) -> Trail
    requires small { AreSmallTerms terms.now }
    requires short { IsShort 2 trail.now }
    ensures value { result ≡ walked terms.now.prices terms.now.settings terms.now.units trail.now action }
    ensures short { (n : ℕ) → IsShort n trail.now → IsShort (n + 1) result }
{
    let g = &terms.settings;
    let units = &terms.units;
    Trail {
        cost: trail.cost + price(&terms.prices, g, trail.at.combo, action),
        gain: trail.gain + gain(g, units, &trail.at, action),
        shift: trail.shift + shift(g, units, &trail.at, action),
        at: move_on(g, units, &trail.at, action),
    }
}

// The edge where a trail ends.
fn end(trail: &Trail) -> Edge
    ensures { result ≡ edge_at trail.now }
{
    Edge {
        cost: trail.cost,
        gain: trail.gain,
        shift: trail.shift,
        to: Seen {
            need: 0,
            combo: Combo::NoCombo,
            ..trail.at
        },
    }
}

// Appends the edge of a last action, which leaves no combo.
fn push_last(
    edges: &mut Vec<Edge>,
    terms: &Terms,
    trail: &Trail,
    action: Action,
) -> Result<(), WantMemory>
    requires small { AreSmallTerms terms.now }
    requires short { IsShort 2 trail.now }
    requires last { next_combo trail.now.at.combo action ≡ NoCombo }
    ensures { (n : ℕ) → OnOk result (edges.new.items ≡ edges.old.items
        ++ map (onto trail.now) (edges_at n terms.now.prices terms.now.settings terms.now.units trail.now.at action)) }
{
    if is_move(&terms.settings, &trail.at, action) {
        edges.push(end(&walk(terms, trail, action)))?;
    }
    Ok(())
}

// Appends the edges that go on from Basic Touch.
fn push_basic(edges: &mut Vec<Edge>, terms: &Terms, trail: &Trail) -> Result<(), WantMemory>
    requires small { AreSmallTerms terms.now }
    requires short { IsShort 1 trail.now }
    requires combo { trail.now.at.combo ≡ Basic }
    ensures { OnOk result (edges.new.items ≡ edges.old.items ++ map (onto trail.now)
        (edges_from 2 terms.now.prices terms.now.settings terms.now.units trail.now.at (StandardTouch ∷ RefinedTouch ∷ []))) }
{
    push_standard(edges, terms, trail)?;
    push_last(edges, terms, trail, Action::RefinedTouch)?;
    Ok(())
}

// Appends the edges that begin with Standard Touch after Basic Touch.
fn push_standard(edges: &mut Vec<Edge>, terms: &Terms, trail: &Trail) -> Result<(), WantMemory>
    requires small { AreSmallTerms terms.now }
    requires short { IsShort 1 trail.now }
    requires combo { trail.now.at.combo ≡ Basic }
    ensures { OnOk result (edges.new.items ≡ edges.old.items
        ++ map (onto trail.now) (edges_at 1 terms.now.prices terms.now.settings terms.now.units trail.now.at StandardTouch)) }
{
    if is_move(&terms.settings, &trail.at, Action::StandardTouch) {
        let next = walk(terms, trail, Action::StandardTouch);
        edges.push(end(&next))?;
        push_last(edges, terms, &next, Action::AdvancedTouch)?;
    }
    Ok(())
}

// Appends the edges that go on from the combo of a trail.
fn push_combo(edges: &mut Vec<Edge>, terms: &Terms, trail: &Trail) -> Result<(), WantMemory>
    requires small { AreSmallTerms terms.now }
    requires short { IsShort 1 trail.now }
    ensures { OnOk result (edges.new.items ≡ edges.old.items
        ++ map (onto trail.now) (combo_edges_of terms.now.prices terms.now.settings terms.now.units trail.now.at)) }
{
    match trail.at.combo {
        Combo::NoCombo => Ok(()),
        Combo::Basic => {
            push_basic(edges, terms, trail)?;
            Ok(())
        }
        Combo::Standard => {
            push_last(edges, terms, trail, Action::AdvancedTouch)?;
            Ok(())
        }
    }
}

// Appends the edges whose first move is an action.
fn push_first(
    edges: &mut Vec<Edge>,
    terms: &Terms,
    x: &Seen,
    action: Action,
) -> Result<(), WantMemory>
    requires { AreSmallTerms terms.now }
    ensures { OnOk result (edges.new.items ≡ edges.old.items
        ++ edges_at 2 terms.now.prices terms.now.settings terms.now.units x.now action) }
{
    if is_move(&terms.settings, x, action) {
        let trail = walk(terms, &start(x), action);
        edges.push(end(&trail))?;
        push_combo(edges, terms, &trail)?;
    }
    Ok(())
}

/// The edges from what is seen without a combo: each move, and each combo of moves.
pub fn edges(
    alloc: Global,
    p: &Prices,
    g: &Settings,
    units: &Units,
    x: &Seen,
) -> Result<Vec<Edge>, WantMemory>
    requires prices { AreSmall p.now }
    requires units { AreSmallUnits units.now }
    ensures { IfOk result (λ v. v.items ≡ edges_of p.now g.now units.now x.now) }
{
    let terms = Terms {
        prices: *p,
        settings: *g,
        units: *units,
    };
    let mut edges = Vec::new(alloc);
    for &action in Action::ALL.iter() {
        push_first(&mut edges, &terms, x, action)?;
    }
    Ok(edges)
}

/// The edges that the combo of `x` adds.
pub fn combo_edges(
    alloc: Global,
    p: &Prices,
    g: &Settings,
    units: &Units,
    x: &Seen,
) -> Result<Vec<Edge>, WantMemory>
    requires prices { AreSmall p.now }
    requires units { AreSmallUnits units.now }
    ensures { IfOk result (λ v. v.items ≡ combo_edges_of p.now g.now units.now x.now) }
{
    let terms = Terms {
        prices: *p,
        settings: *g,
        units: *units,
    };
    let mut edges = Vec::new(alloc);
    push_combo(&mut edges, &terms, &start(x))?;
    Ok(edges)
}
