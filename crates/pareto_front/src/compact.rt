ghost use Rattle.std.specs.Prelude.{◌≡◌};

use crate::node::Node;
use action_table::Action;
use craft_state::{Combo, Effects, Perfection, State};
use std::marker::Model;

/// A node in little room: 40 bytes, where a node itself takes 72.
#[derive(Clone, Copy)]
pub struct PackedNode {
    parent: usize,
    seconds: u32,
    progress: u32,
    quality: u32,
    cp: u16,
    durability: u8,
    iq: u8,
    waste: u8,
    innovation: u8,
    veneration: u8,
    strides: u8,
    muscle: u8,
    manipulation: u8,
    combo: Combo,
    perfection: Perfection,
    first: bool,
    action: Action,
}

impl Model for PackedNode {
    ghost use Rattle.pareto_front.specs.declared.node.Node.{Node as NodeFields};
    ghost use Rattle.pareto_front.specs.Packed.{node_in, packed_inside, HasBounds};

    ghost Value = { NodeFields };

    ghost view = { node_in };

    ghost invariant = { HasBounds };

    ghost inverse = { packed_inside };
}

impl PackedNode {
    /// The packed form of a node.
    pub fn of(node: &Node) -> PackedNode
        ensures { result ≡ node.now }
    {
        let state = &node.state;
        let effects = &state.effects;
        PackedNode {
            parent: node.parent,
            seconds: node.seconds,
            progress: state.progress,
            quality: state.quality,
            cp: state.cp as u16,
            durability: state.durability as u8,
            iq: effects.iq as u8,
            waste: effects.waste as u8,
            innovation: effects.innovation as u8,
            veneration: effects.veneration as u8,
            strides: effects.strides as u8,
            muscle: effects.muscle as u8,
            manipulation: effects.manipulation as u8,
            combo: effects.combo,
            perfection: effects.perfection,
            first: effects.first,
            action: node.action,
        }
    }

    /// The node itself.
    pub fn node(&self) -> Node
        ensures { result ≡ self.now }
    {
        Node {
            state: State {
                cp: self.cp as u32,
                durability: self.durability as u32,
                progress: self.progress,
                quality: self.quality,
                effects: Effects {
                    iq: self.iq as u32,
                    waste: self.waste as u32,
                    innovation: self.innovation as u32,
                    veneration: self.veneration as u32,
                    strides: self.strides as u32,
                    muscle: self.muscle as u32,
                    manipulation: self.manipulation as u32,
                    combo: self.combo,
                    perfection: self.perfection,
                    first: self.first,
                },
            },
            seconds: self.seconds,
            parent: self.parent,
            action: self.action,
        }
    }
}
