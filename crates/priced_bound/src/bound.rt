ghost use Rattle.std.specs.Prelude.{◌≡◌, ◌≤◌, ◌-◌, false, MatchOption, IfOk};
ghost use Rattle.craft_settings.specs.Rules.{cap_of};
ghost use Rattle.step_rules.specs.Legality.{IsWithin};
ghost use Rattle.relaxed_moves.specs.Optimum.{option_max};
ghost use Rattle.priced_moves.specs.Edges.{greatest_edge};
ghost use Rattle.priced_moves.specs.FirstMoves.{without_combo};
ghost use Rattle.priced_graph.specs.Graphs.{LeadsOn, LeadOn};
ghost use Rattle.priced_moves.specs.Moves.{progress_units, seen_of};
ghost use Rattle.priced_moves.specs.Prices.{worth_of};
ghost use Rattle.priced_graph.specs.Sights.{IsNumber, IsSeenIn, sights_of};
ghost use Rattle.priced_bound.specs.Bounds.{is_told, limit_in, passes, promise_in, promise_of};
ghost use Rattle.priced_bound.specs.Places.{IsInTable, IsPlace};
ghost use Rattle.priced_bound.specs.Reckoned.{need_of};
ghost use Rattle.priced_bound.specs.Tables.{table_best, table_lead};

use crate::choices::MOST_WORTH;
use crate::filling::{
    coins, combo_lists, cut, greater, is_enough, is_first, needs_of, raised, walks,
};
use crate::reckoning::{MOST_LEFT, Reckoning};
use action_table::WantMemory;
use craft_state::{Combo, State};
use priced_graph::{SightNumbers, Sights};
use priced_moves::{Edge, Prices, Seen, seen, worth};
use std::alloc::Global;
use std::marker::Model;
use std::thread::Threads;
use walk_table::WalkTable;

/// A table of what a craft can still gain at most: by the prices and in the units of a reckoning, for budgets up to a
/// greatest one. It is asked by any number of threads at once, and asking takes no memory and waits for nobody.
#[derive(Drop)]
pub struct PricedBound {
    reckoning: Reckoning,
    top: u32,
    numbers: SightNumbers,
    needs: Vec<u16>,
    table: WalkTable,
    // The edges that Basic Touch, and Standard Touch, add at each sight.
    basic: Vec<Vec<Edge>>,
    standard: Vec<Vec<Edge>>,
}

impl Model for PricedBound {
    ghost use Rattle.priced_bound.specs.Bounds.{BoundFields};

    ghost Value = { BoundFields };

    ghost use Rattle.priced_bound.specs.Tables.{IsFilled};

    ghost view = { λ b. record { by = b.reckoning; top = b.top } };

    ghost invariant = { λ b. IsFilled b.reckoning b.top b.numbers b.needs.items b.table b.basic.items b.standard.items };
}

// Where a table tells of a state.
#[derive(Drop)]
pub(crate) struct Place {
    pub(crate) budget: u32,
    pub(crate) node: usize,
    pub(crate) seen: Seen,
}

impl PricedBound {
    /// The table of a reckoning for budgets up to `top`, filled by so many workers side by side; with none the caller
    /// fills it alone. It takes the words that `Reckoning::words` tells, and two bytes for each point of progress. The
    /// number of workers changes nothing that the table tells. Errors: only where memory runs out.
    pub fn new(
        rt: &(impl Threads + Sync),
        alloc: Global,
        reckoning: &Reckoning,
        top: u32,
        workers: usize,
    ) -> Result<PricedBound, WantMemory>
        ensures by { IfOk result (λ b. b.by ≡ reckoning.now) }
        ensures top { IfOk result (λ b. b.top ≡ top) }
    {
        let table = walks(rt, alloc, reckoning, top, workers)?;
        let basic = combo_lists(alloc, reckoning, Combo::Basic)?;
        let standard = combo_lists(alloc, reckoning, Combo::Standard)?;
        let numbers = SightNumbers::new(alloc, &Sights::of(&reckoning.settings))?;
        let needs = needs_of(alloc, reckoning)?;
        Ok(PricedBound {
            reckoning: *reckoning,
            top,
            numbers,
            needs,
            table,
            basic,
            standard,
        })
    }

    /// The quality that a macro through a state of the craft can reach at most with so many steps left, None where no
    /// moves that its means can pay for complete the craft. All quality that counts where the table doesn't tell of the
    /// state: before the first step, with more than `MOST_LEFT` steps left, with means that are worth more than the
    /// greatest budget, and with effects to which no allowed action leads.
    // Inlined, so that what several tables ask of a state in turn is computed once.
    #[inline(always)]
    pub fn limit(&self, s: &State, left: u32) -> Option<u32>
        requires { IsWithin self.now.by.g s.now }
        ensures { result ≡ limit_in self.now s.now left }
    {
        let r = &self.reckoning;
        match self.promise(s, left) {
            Some(most) => Some(cut(r, most)),
            None => None,
        }
    }

    /// The same with the quality that doesn't count too, at most `MOST_PROMISE`: it tells apart states whose limit is all
    /// quality that counts.
    pub fn promise(&self, s: &State, left: u32) -> Option<u32>
        requires { IsWithin self.now.by.g s.now }
        ensures { result ≡ promise_in self.now s.now left }
    {
        match self.place(s, left) {
            Some(place) => self.promised(s, &place),
            None => Some(self.cap()),
        }
    }

    // Where the table tells of a state with so many steps left, None where it doesn't.
    fn place(&self, s: &State, left: u32) -> Option<Place>
        requires { IsWithin self.now.by.g s.now }
        ensures { MatchOption result (is_told self.now s.now left ≡ false) (IsPlace self.now s.now left) }
    {
        if is_first(s) || left > MOST_LEFT {
            return None;
        }
        let budget = self.budget(s, left);
        if budget > self.top {
            return None;
        }
        let seen = self.seen(s);
        match self.numbers.find(&seen) {
            Some(node) => Some(Place { budget, node, seen }),
            None => None,
        }
    }

    // What the means of a state are worth: first in the parts of a coin, so that `coins` cuts them.
    fn budget(&self, s: &State, left: u32) -> u32
        requires { left ≤ MOST_LEFT }
        ensures { result ≡ worth_of self.now.by.prices s.now left }
    {
        let r = &self.reckoning;
        let parts = Prices {
            coin: 1,
            ..r.prices
        };
        coins(worth(&parts, s, left), r.prices.coin)
    }

    // What is seen of a state. The need is looked up, which takes less time than to divide for it.
    fn seen(&self, s: &State) -> Seen
        requires { IsWithin self.now.by.g s.now }
        ensures { result ≡ seen_of self.now.by.g self.now.by.units s.now }
    {
        let r = &self.reckoning;
        Seen {
            need: self.need(s),
            ..seen(&r.settings, &r.units, s)
        }
    }

    // The units of progress that a state leaves to do.
    fn need(&self, s: &State) -> u32
        requires { IsWithin self.now.by.g s.now }
        ensures { result ≡ progress_units self.now.by.units (self.now.by.g.progress - s.now.progress) }
    {
        self.needs[s.progress as usize] as u32
    }

    /// Whether a state of the craft may still lead to the target with so many steps left: always before the first step,
    /// and later where a step is left and the limit isn't below the target.
    #[tactic(auto, unfolding(crate::specs::Bounds::passes))]
    pub fn reaches(&self, target: u32, left: u32, s: &State) -> bool
        requires { IsWithin self.now.by.g s.now }
        ensures { result ≡ passes self.now target left s.now }
    {
        s.effects.first || left > 0 && is_enough(target, self.limit(s, left))
    }

    // The most quality that counts.
    fn cap(&self) -> u32
        ensures { result ≡ cap_of self.now.by.g }
    {
        let r = &self.reckoning;
        r.settings.cap()
    }

    // The quality of a state after the greatest gain from a place, cut.
    fn promised(&self, s: &State, place: &Place) -> Option<u32>
        requires { IsInTable self.now place.now }
        ensures { result ≡ promise_of self.now.by s.now (table_best self.now.by place.now.budget place.now.seen) }
    {
        let r = &self.reckoning;
        match self.gain(place.budget, place.node, &place.seen) {
            Some(gain) => Some(raised(r, s, gain)),
            None => None,
        }
    }

    // The greatest gain of all lists of moves within a budget, cut.
    fn gain(&self, budget: u32, node: usize, x: &Seen) -> Option<u32>
        requires budget { budget ≤ self.now.top }
        requires number { IsNumber (sights_of self.now.by.g) x.now node }
        requires need { x.now.need ≤ need_of self.now.by }
        ensures { result ≡ table_best self.now.by budget x.now }
    {
        let plain = self.at(budget, node, x);
        match x.combo {
            Combo::NoCombo => plain,
            Combo::Basic => self.greatest(plain, budget, x.need, self.basic[node].as_slice()),
            Combo::Standard => self.greatest(plain, budget, x.need, self.standard[node].as_slice()),
        }
    }

    // The greatest gain without the combo, as the table has it.
    fn plain(&self, budget: u32, x: &Seen) -> Option<u32>
        requires budget { budget ≤ self.now.top }
        requires within { IsSeenIn (sights_of self.now.by.g) x.now }
        requires need { x.now.need ≤ need_of self.now.by }
        ensures { result ≡ table_best self.now.by budget (without_combo x.now) }
    {
        self.at(budget, self.numbers.number(x), x)
    }

    // The same by the number of what is seen.
    fn at(&self, budget: u32, node: usize, x: &Seen) -> Option<u32>
        requires budget { budget ≤ self.now.top }
        requires number { IsNumber (sights_of self.now.by.g) x.now node }
        requires need { x.now.need ≤ need_of self.now.by }
        ensures { result ≡ table_best self.now.by budget (without_combo x.now) }
    {
        match self.table.at(budget as usize, node, x.need as usize) {
            Some(gain) => Some(gain as u32),
            None => None,
        }
    }

    // The greatest of a gain and of what these edges and the best behind them gain.
    fn greatest(&self, plain: Option<u32>, budget: u32, need: u32, edges: &[Edge]) -> Option<u32>
        requires budget { budget ≤ self.now.top }
        requires need { need ≤ need_of self.now.by }
        requires edges { LeadOn (sights_of self.now.by.g) edges.now }
        ensures { result ≡ option_max plain (greatest_edge (table_lead self.now.by budget need) edges.now) }
    {
        let mut most = plain;
        for i in 0..edges.len() {
            most = greater(most, self.lead(budget, need, &edges[i]));
        }
        most
    }

    // What an edge and the best behind it gain, cut.
    fn lead(&self, budget: u32, need: u32, edge: &Edge) -> Option<u32>
        requires budget { budget ≤ self.now.top }
        requires need { need ≤ need_of self.now.by }
        requires edge { LeadsOn (sights_of self.now.by.g) edge.now }
        ensures { result ≡ table_lead self.now.by budget need edge.now }
    {
        if edge.cost > budget {
            return None;
        }
        let to = Seen {
            need: need.saturating_sub(edge.shift),
            ..edge.to
        };
        match self.plain(budget - edge.cost, &to) {
            Some(rest) => Some(edge.gain.saturating_add(rest).min(MOST_WORTH)),
            None => None,
        }
    }
}
