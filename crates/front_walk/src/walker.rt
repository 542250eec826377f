// A worker of a walk.
ghost use Rattle.std.specs.Prelude.{◌≡◌};

use action_table::WantMemory;
use pareto_front::PackedNode;
use std::alloc::Global;

/// A worker of a walk: what it asks with, and what it found of a level.
#[derive(Drop)]
pub struct Walker<A> {
    pub asker: A,
    pub(crate) found: Result<Vec<PackedNode>, WantMemory>,
}

impl<A> Walker<A> {
    /// A worker who asks with this.
    pub fn new(alloc: Global, asker: A) -> Walker<A>
        ensures { result.asker ≡ asker }
    {
        Walker {
            asker,
            found: Ok(Vec::new(alloc)),
        }
    }

    /// Lets go of what it found.
    pub(crate) fn let_go(&mut self, alloc: Global)
        ensures { self.new.asker ≡ self.old.asker }
    {
        self.found = Ok(Vec::new(alloc));
    }

    /// What it asks with.
    pub fn into_asker(self) -> A
        ensures { result ≡ self.asker }
    {
        let Walker { asker, found: _ } = self;
        asker
    }
}
