//! The hole that a new master makes, by its edges.
use crate::edge::Edge;
use crate::tables::MOST_NODES;

// The edges of a hole, in their order. All are counted; those past the table's end are not kept, since their nodes have no room.
// A fixed array with its count: placing has no heap, and stands on std alone.
#[derive(Clone, Copy)]
pub(crate) struct Hole {
    pub(crate) edges: [Edge; MOST_NODES],
    pub(crate) count: usize,
}
