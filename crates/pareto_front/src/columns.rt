ghost use Rattle.std.specs.Prelude.{◌≡◌, ◌++◌, ◌∷◌, [], OnOk, OnErr, MatchOption, length};
ghost use Rattle.pareto_front.specs.Columns.{NoneEnough, IsFirstEnough};

use action_table::WantMemory;
use lane_front::first_cover;
use std::alloc::Global;
use std::marker::Model;

/// A list of CP, durability and quality, kept in columns.
#[derive(Drop)]
pub struct Columns {
    cp: Vec<u32>,
    durability: Vec<u32>,
    quality: Vec<u32>,
    ghost as_many: { length durability.items ≡ length cp.items },
    ghost as_long: { length quality.items ≡ length cp.items },
}

impl Model for Columns {
    ghost use Rattle.pareto_front.specs.Columns.{Numbers, rows};
    ghost use Rattle.std.specs.Prelude.{List};

    ghost Value = { List Numbers };

    ghost view = { λ c. rows c.cp.items c.durability.items c.quality.items };
}

impl Columns {
    /// The empty list. It takes no memory.
    pub fn new(alloc: Global) -> Columns
        ensures { result ≡ [] }
    {
        Columns {
            cp: Vec::new(alloc),
            durability: Vec::new(alloc),
            quality: Vec::new(alloc),
        }
    }

    /// Appends an entry. Refused for memory it leaves the list as it was.
    pub fn push(&mut self, cp: u32, durability: u32, quality: u32) -> Result<(), WantMemory>
        ensures pushed { OnOk result (self.new ≡ self.old ++ record { cp = cp; durability = durability; quality = quality } ∷ []) }
        ensures refused { OnErr result (self.new ≡ self.old) }
    {
        self.cp.try_reserve(1)?;
        self.durability.try_reserve(1)?;
        self.quality.try_reserve(1)?;
        self.cp.push_reserved(cp);
        self.durability.push_reserved(durability);
        self.quality.push_reserved(quality);
        Ok(())
    }

    /// Empties the list. What memory it has taken stays with it.
    pub fn clear(&mut self)
        ensures { self.new ≡ [] }
    {
        self.cp.clear();
        self.durability.clear();
        self.quality.clear();
    }

    /// The least place whose CP, durability and quality are not less than the three numbers; None
    /// where there is none.
    pub fn cover(&self, c: [u32; 3]) -> Option<usize>
        ensures { MatchOption result (NoneEnough c self.now (length self.now)) (IsFirstEnough c self.now) }
    {
        first_cover(&self.cp, &self.durability, &self.quality, c)
    }
}
