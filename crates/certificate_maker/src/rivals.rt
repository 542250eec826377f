// Which node of the next level is the first that dominates another.
ghost use Rattle.std.specs.Prelude.{ℕ, ◌≡◌, ◌<◌, ◌++◌, ◌∷◌, ◌||◌, ◌&&◌, ◌==◌, nat_lt, [], IfOk, OnOk, length, slice_index_or, slice_set};
ghost use Rattle.action_table.specs.Table.{number_of};
ghost use Rattle.pareto_front.specs.Lists.{items_of};
ghost use Rattle.certificate_maker.specs.Rivals.{outdoes, bucket_of, AreBuckets, first_over, over_in};

use action_table::WantMemory;
use craft_state::State;
use front_check::covers;
use pareto_front::Node;
use std::alloc::Global;

/// A node of the next level, and its place there.
#[derive(Clone, Copy)]
pub(crate) struct Rival {
    pub(crate) place: usize,
    pub(crate) node: Node,
}

/// The nodes of the next level in buckets, each in order. All with one progress and one set of effects are in one.
pub(crate) fn buckets_of(alloc: Global, next: &[Node]) -> Result<Vec<Vec<Rival>>, WantMemory>
    ensures { IfOk result (λ buckets. AreBuckets next.now (items_of buckets.items)) }
{
    let mut buckets = empty_buckets(alloc, next.len() / 2 * 2 + 1)?;
    for place in 0..next.len() {
        let node = next[place];
        let bucket = bucket_of(&node.state, buckets.len());
        push_to(&mut buckets, bucket, Rival { place, node })?;
    }
    Ok(buckets)
}

// So many empty buckets.
fn empty_buckets(alloc: Global, count: usize) -> Result<Vec<Vec<Rival>>, WantMemory>
    ensures many { IfOk result (λ buckets. length buckets.items ≡ count) }
    ensures empty { IfOk result (λ buckets. (b : ℕ) → slice_index_or (items_of buckets.items) b [] ≡ []) }
{
    let mut buckets = Vec::with_capacity(alloc, count)?;
    for _bucket in 0..count {
        buckets.push(Vec::new(alloc))?;
    }
    Ok(buckets)
}

// Appends to a bucket.
fn push_to(buckets: &mut Vec<Vec<Rival>>, bucket: usize, rival: Rival) -> Result<(), WantMemory>
    requires { bucket < length buckets.old.items }
    ensures { OnOk result (items_of buckets.new.items ≡ slice_set (items_of buckets.old.items) bucket
        (slice_index_or (items_of buckets.old.items) bucket [] ++ rival ∷ [])) }
{
    buckets[bucket].push(rival)?;
    Ok(())
}

// The bucket of a state, of so many.
#[tactic(auto, unfolding(crate::specs::Rivals::bucket_of, pareto_front::specs::Keys::key_of))]
fn bucket_of(s: &State, count: usize) -> usize
    requires { 0 < count }
    ensures value { result ≡ bucket_of s.now count }
    ensures inside { result < count }
{
    let effects = &s.effects;
    let _bounds = effects.iq;
    let key = ((s.progress as u64) << 28) + effects.pack();
    (key % count as u64) as usize
}

/// The place of the first node of the buckets that dominates another, if one does.
pub(crate) fn first_over(buckets: &[Vec<Rival>], c: &Node) -> Option<usize>
    requires { 0 < length buckets.now }
    ensures { result ≡ over_in (items_of buckets.now) c.now }
{
    let bucket = bucket_of(&c.state, buckets.len());
    let rivals = buckets[bucket].as_slice();
    first_of(rivals, c)
}

// The place of the first of these that dominates a node, if one does.
fn first_of(rivals: &[Rival], c: &Node) -> Option<usize>
    ensures { result ≡ first_over rivals.now c.now }
{
    for rival in rivals {
        if outdoes(&rival.node, c) {
            return Some(rival.place);
        }
    }
    None
}

// Whether a node dominates another of its level.
#[tactic(auto, unfolding(crate::specs::Rivals::outdoes))]
fn outdoes(a: &Node, b: &Node) -> bool
    ensures { result ≡ outdoes a.now b.now }
{
    covers(&a.state, &b.state)
        && (a.seconds < b.seconds || (a.seconds == b.seconds && comes_first(a, b)))
}

// Whether a node stands before another in action order.
fn comes_first(a: &Node, b: &Node) -> bool
    ensures { result ≡ (nat_lt a.now.parent b.now.parent
        || (a.now.parent == b.now.parent && nat_lt (number_of a.now.action) (number_of b.now.action))) }
{
    a.parent < b.parent || (a.parent == b.parent && a.action.number() < b.action.number())
}
