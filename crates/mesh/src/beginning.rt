//! Fresh tables.
ghost use Rattle.std.specs.Prelude.{◌≡◌, ◌+ℤ◌};
ghost use Rattle.mesh.specs.Lists.{in_use};
ghost use Rattle.mesh.specs.Tree.{flat_diagonal, first_nodes, fresh};

use crate::node::Node;
use crate::tables::{CORNERS, MOST_MASTERS, MOST_NODES, Tables};
use plane::{Measure, Position};

// The heights at two positions together.
fn together<M: Measure>(measure: &M, a: Position, b: Position) -> i64
    ensures { result ≡ M.heights measure.now a +ℤ M.heights measure.now b }
{
    measure.height(a) + measure.height(b)
}

// Whether the heights of corners 0 and 2 together are at most those of 1 and 3.
fn is_flat<M: Measure>(measure: &M) -> bool
    ensures { result ≡ flat_diagonal (M.heights measure.now) }
{
    together(measure, CORNERS[0], CORNERS[2]) <= together(measure, CORNERS[1], CORNERS[3])
}

// The first two nodes: neighbours across the diagonal 0–2, or across 1–3.
fn first_pair<M: Measure>(measure: &M) -> [Node; 2]
    ensures { result ≡ first_nodes (flat_diagonal (M.heights measure.now)) }
{
    if is_flat(measure) {
        [
            Node::born([0, 1, 2], [None, None, Some(1)], None, None),
            Node::born([0, 2, 3], [Some(0), None, None], None, None),
        ]
    } else {
        [
            Node::born([0, 1, 3], [None, Some(1), None], None, None),
            Node::born([1, 2, 3], [None, None, Some(0)], None, None),
        ]
    }
}

impl Tables {
    // The tables of a family without placed masters.
    pub fn fresh<M: Measure>(measure: &M) -> Tables
        ensures { in_use result ≡ fresh (M.heights measure.now) }
    {
        let pair = first_pair(measure);
        // by index: an array that is lent whole, as to copy_from_slice, is made on the stack and then copied into the tables
        let mut positions = [CORNERS[0]; MOST_MASTERS];
        positions[1] = CORNERS[1];
        positions[2] = CORNERS[2];
        positions[3] = CORNERS[3];
        let mut nodes = [pair[0]; MOST_NODES];
        nodes[1] = pair[1];
        Tables {
            positions,
            count: 4,
            nodes,
            used: 2,
        }
    }
}
