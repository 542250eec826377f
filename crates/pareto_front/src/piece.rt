ghost use Rattle.std.specs.Prelude.{◌+◌, ◌<◌, ◌^◌, length};

use crate::compact::PackedNode;

/// Nodes that stand side by side in a level, and the place of the first.
#[derive(Drop)]
pub(crate) struct Piece<'a> {
    pub start: usize,
    pub nodes: &'a [PackedNode],
    ghost low: { start + length nodes.now < 2 ^ 64 },
}
