// A level that is made.
use front_check::Claimed;
use pareto_front::Node;

/// What the certificate is about, the nodes of a level, and how many steps of the macro are left after it.
#[derive(Drop)]
pub(crate) struct Stage<'a, 'c> {
    pub(crate) claimed: &'a Claimed<'c>,
    pub(crate) left: u32,
    pub(crate) nodes: &'a [Node],
}
