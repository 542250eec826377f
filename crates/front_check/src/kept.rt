// Kept prefixes.
ghost use Rattle.std.specs.Prelude.{◌≡◌, ◌≤◌, IfOk, OnOk, IsTrue, take, length};
ghost use Rattle.step_rules.specs.Legality.{IsWithin, is_legal};
ghost use Rattle.certificate_laws.specs.Claims.{legal_at, legal_after};
ghost use Rattle.prefix_fronts.specs.Prefix.{Prefix, extend, empty_prefix};

use action_table::Action;
use craft_settings::Settings;
use craft_state::State;
use smallvec::SmallVec;
use std::alloc::{AllocError, Global};
use std::marker::Model;
use step_rules::{legal, start, step};

/// A kept prefix: its actions, and the state and the seconds that they lead to.
#[derive(Drop)]
pub(crate) struct Kept {
    pub(crate) actions: Vec<Action>,
    pub(crate) state: State,
    pub(crate) seconds: u32,
}

impl Model for Kept {
    ghost Value = { Prefix };

    ghost view = { λ k. record { actions = k.actions.items; state = k.state; seconds = k.seconds } };
}

impl Kept {
    /// The empty prefix.
    pub(crate) fn empty(alloc: Global, g: &Settings) -> Kept
        ensures { result ≡ empty_prefix g.now }
    {
        Kept {
            actions: Vec::new(alloc),
            state: start(g),
            seconds: 0,
        }
    }

    /// The legal actions after the prefix.
    pub(crate) fn legal(&self, alloc: Global, g: &Settings) -> SmallVec<Action, 32>
        ensures { result.items ≡ legal_after g.now self.now }
    {
        legal_in(alloc, g, &self.state)
    }

    /// The prefix with one action more.
    pub(crate) fn extended(
        &self,
        alloc: Global,
        g: &Settings,
        action: Action,
    ) -> Result<Kept, AllocError>
        requires within { IsWithin g.now self.now.state }
        requires legal { IsTrue (is_legal g.now self.now.state action) }
        requires short { self.now.seconds ≤ 1000 }
        ensures { IfOk result (λ p. p ≡ extend g.now self.now action) }
    {
        let mut child = self.copied(alloc)?;
        child.turn(g, self, action)?;
        Ok(child)
    }

    /// The same prefix.
    pub(crate) fn copied(&self, alloc: Global) -> Result<Kept, AllocError>
        ensures { IfOk result (λ p. p ≡ self.now) }
    {
        Ok(Kept {
            actions: Vec::from_slice(alloc, self.actions.as_slice())?,
            state: self.state,
            seconds: self.seconds,
        })
    }

    /// Makes this the prefix with one action more, whose actions it begins with.
    pub(crate) fn turn(&mut self, g: &Settings, p: &Kept, action: Action) -> Result<(), AllocError>
        requires within { IsWithin g.now p.now.state }
        requires legal { IsTrue (is_legal g.now p.now.state action) }
        requires short { p.now.seconds ≤ 1000 }
        requires begins { take (length p.now.actions) self.old.actions ≡ p.now.actions }
        ensures { OnOk result (self.new ≡ extend g.now p.now action) }
    {
        self.actions.truncate(p.actions.len());
        self.actions.push(action)?;
        self.state = step(g, &p.state, action);
        self.seconds = p.seconds + action.seconds();
        Ok(())
    }
}

// The legal actions in a state.
#[tactic(auto, unfolding(certificate_laws::specs::Claims::legal_at))]
fn legal_in(alloc: Global, g: &Settings, s: &State) -> SmallVec<Action, 32>
    ensures { result.items ≡ legal_at g.now s.now }
{
    legal(alloc, g, s)
}
