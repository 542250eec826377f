// The way back from the nodes of a level.
ghost use Rattle.std.specs.Prelude.{◌≡◌, ◌≤◌, ◌<◌, IfOk, IfSome, map, length, slice_index_or};
ghost use Rattle.front_walk.specs.declared.links.Link.{Link as LinkFields};
ghost use Rattle.front_walk.specs.Nodes.{link_of, links_in, actions_to, Climbs};

use action_table::{Action, WantMemory};
use pareto_front::{Node, PackedNode};
use std::alloc::Global;
use std::marker::Model;

/// What is kept of a node of an earlier level: the place of its parent in the level before, and the action that led
/// from there.
#[derive(Clone, Copy)]
pub(crate) struct Link {
    pub(crate) parent: usize,
    pub(crate) action: Action,
}

/// The way back from a node.
pub(crate) fn link_of(node: &Node) -> Link
    ensures { result ≡ link_of node.now }
{
    Link {
        parent: node.parent,
        action: node.action,
    }
}

// The way back from a node in little room.
fn way_of(node: &PackedNode) -> Link
    ensures { result ≡ link_of node.now }
{
    link_of(&node.node())
}

/// A way back in 8 bytes, which those of a level take while the level before has at most 2^32 nodes.
#[derive(Clone, Copy)]
pub(crate) struct NearLink {
    parent: u32,
    action: Action,
}

impl Model for NearLink {
    ghost use Rattle.front_walk.specs.declared.links.Link.{Link as LinkFields};
    ghost use Rattle.front_walk.specs.Near.{link_in, near_inside, IsNear};

    ghost Value = { LinkFields };

    ghost view = { link_in };

    ghost invariant = { IsNear };

    ghost inverse = { near_inside };
}

impl NearLink {
    // The short form of a way back, where it has one.
    fn of(link: &Link) -> Option<NearLink>
        ensures { IfSome result (λ near. near ≡ link.now) }
    {
        if link.parent > u32::MAX as usize {
            return None;
        }
        Some(NearLink {
            parent: link.parent as u32,
            action: link.action,
        })
    }

    // The way back itself.
    fn link(&self) -> Link
        ensures { result ≡ self.now }
    {
        Link {
            parent: self.parent as usize,
            action: self.action,
        }
    }
}

/// The ways back from the nodes of a level.
#[derive(Drop)]
pub(crate) enum Ways {
    Near(Vec<NearLink>),
    Far(Vec<Link>),
}

impl Ways {
    // The one of a place.
    fn at(&self, place: usize) -> Link
        requires { place < length (links_in self.now) }
        ensures { (l : LinkFields) → result ≡ slice_index_or (links_in self.now) place l }
    {
        match self {
            Ways::Near(links) => links[place].link(),
            Ways::Far(links) => links[place],
        }
    }
}

/// The ways back from the nodes of a level.
pub(crate) fn links_of(alloc: Global, level: &[PackedNode]) -> Result<Ways, WantMemory>
    ensures { IfOk result (λ ways. links_in ways ≡ map link_of level.now) }
{
    match near_links_of(alloc, level)? {
        Some(near) => Ok(Ways::Near(near)),
        None => Ok(Ways::Far(level.iter().map(way_of).collect(alloc)?)),
    }
}

// The same in short forms, if each has one.
fn near_links_of(alloc: Global, level: &[PackedNode]) -> Result<Option<Vec<NearLink>>, WantMemory>
    ensures { IfOk result (λ some. IfSome some (λ links. links.items ≡ map link_of level.now)) }
{
    let mut links = Vec::with_capacity(alloc, level.len())?;
    for node in level {
        match NearLink::of(&way_of(node)) {
            Some(near) => links.push(near)?,
            None => return Ok(None),
        }
    }
    Ok(Some(links))
}

/// The actions that lead to a link of level `k`.
#[tactic(auto, unfolding(crate::specs::Nodes::actions_to, crate::specs::Nodes::Climbs))]
pub(crate) fn climb(
    alloc: Global,
    levels: &[Ways],
    k: usize,
    link: &Link,
) -> Result<Vec<Action>, WantMemory>
    requires inside { k ≤ length levels.now }
    requires climbs { Climbs (map links_in levels.now) k link.now }
    ensures { IfOk result (λ v. v.items ≡ actions_to (map links_in levels.now) k link.now) }
{
    if k == 0 {
        return Ok(Vec::new(alloc));
    }
    let mut actions = climb(alloc, levels, k - 1, &levels[k - 1].at(link.parent))?;
    actions.push(link.action)?;
    Ok(actions)
}
