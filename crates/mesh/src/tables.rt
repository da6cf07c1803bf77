//! The tables of a family: its masters' positions and its nodes, in fixed arrays.
use crate::node::Node;
use plane::Position;

pub(crate) const MOST_MASTERS: usize = 128;

pub(crate) const MOST_NODES: usize = 1024;

// The masters that every family has.
pub(crate) const CORNERS: [Position; 4] = [
    Position { u: 0, v: 0 },
    Position { u: 4096, v: 0 },
    Position { u: 4096, v: 4096 },
    Position { u: 0, v: 4096 },
];

// Plain tables without an invariant, so that each entry can be changed by itself. What stands behind the counts is filler. Fixed arrays, since
// a family has no heap; and no vectors of fixed room, nor an `impl Model`, since these are not `Copy`.
#[derive(Clone, Copy)]
pub struct Tables {
    pub(crate) positions: [Position; MOST_MASTERS],
    pub(crate) count: usize,
    pub(crate) nodes: [Node; MOST_NODES],
    pub(crate) used: usize,
}
