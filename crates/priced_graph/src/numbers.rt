ghost use Rattle.std.specs.Prelude.{◌≡◌, false, IfOk, MatchOption};
ghost use Rattle.priced_graph.specs.Numbers.{AreListed, number_or_none};
ghost use Rattle.priced_graph.specs.Sights.{IsNumber, IsSeenIn, all_sights, is_seen_in, node_count};

use crate::sights::Sights;
use action_table::WantMemory;
use priced_moves::Seen;
use std::alloc::Global;
use std::marker::Model;

// What stands in a list of numbers for a sight that a craft hasn't.
pub(crate) const NO_SIGHT: u16 = 65535;

/// The numbers of a craft's sights, of which each is found by a single look.
#[derive(Drop)]
pub struct SightNumbers {
    sights: Sights,
    // By the numbers of the sights of all crafts.
    numbers: Vec<u16>,
}

impl Model for SightNumbers {
    ghost use Rattle.priced_graph.specs.Sights.{SightsFields};

    ghost Value = { SightsFields };

    ghost view = { λ s. s.sights };

    ghost use Rattle.priced_graph.specs.Numbers.{AreNumbers};

    ghost invariant = { λ s. AreNumbers s.sights s.numbers.items };
}

// Whether the effects that are seen are among those of the craft.
fn has(sights: &Sights, x: &Seen) -> bool
    ensures { result ≡ is_seen_in sights.now x.now }
{
    sights.has(x)
}

// The number of a sight as it stands in a list.
fn listed_number(sights: &Sights, x: &Seen) -> u16
    ensures { result ≡ number_or_none sights.now x.now }
{
    if has(sights, x) {
        sights.number(x) as u16
    } else {
        NO_SIGHT
    }
}

// The number of what is seen among the sights of all crafts.
fn number_in_all(x: &Seen) -> usize
    ensures { IsNumber all_sights x.now result }
{
    let _iq = x.iq;
    Sights::all().number(x)
}

// The numbers of a craft's sights, in the order of the sights of all crafts.
fn numbers_of(alloc: Global, sights: &Sights) -> Result<Vec<u16>, WantMemory>
    ensures { IfOk result (λ v. AreListed sights.now (node_count all_sights) v.items) }
{
    let all = Sights::all();
    let mut numbers = Vec::new(alloc);
    for place in 0..all.nodes() {
        numbers.push(listed_number(sights, &all.seen(place)))?;
    }
    Ok(numbers)
}

impl SightNumbers {
    /// The numbers of these sights. It takes some 4400 bytes. Errors: only where memory runs out.
    pub fn new(alloc: Global, sights: &Sights) -> Result<SightNumbers, WantMemory>
        ensures { IfOk result (λ n. n ≡ sights.now) }
    {
        let _nodes = sights.nodes();
        let numbers = numbers_of(alloc, sights)?;
        Ok(SightNumbers {
            sights: *sights,
            numbers,
        })
    }

    /// The number of what is seen of a state, None where the effects that are seen aren't among those of the craft. Need
    /// and combo have no part in it.
    pub fn find(&self, x: &Seen) -> Option<usize>
        ensures { MatchOption result (is_seen_in self.now x.now ≡ false) (IsNumber self.now x.now) }
    {
        let number = self.numbers[number_in_all(x)];
        if number == NO_SIGHT {
            None
        } else {
            Some(number as usize)
        }
    }

    /// The number of what is seen of a state, whose effects are among those of the craft.
    pub fn number(&self, x: &Seen) -> usize
        requires { IsSeenIn self.now x.now }
        ensures { IsNumber self.now x.now result }
    {
        self.sights.number(x)
    }
}
