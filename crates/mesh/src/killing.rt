//! Which nodes a new master kills.
ghost use Rattle.std.specs.Prelude.{◌≡◌, ℕ, ◌<◌, ◌≤◌, false, map, length, take, slice_index_or};
ghost use Rattle.plane.specs.Plane.{InPlane};
ghost use Rattle.mesh.specs.Placing.{Housed, holds, kills, no_node};

use crate::node::Node;
use crate::tables::MOST_NODES;
use crate::vertices::vertices_of;
use plane::{Measure, Position};

// A new master at p, in the plane, beside the masters that stand already. Where a clause says what is killed, that these stand in the
// plane is its premise, since the tables are plain.
#[derive(Drop)]
pub(crate) struct Newcomer<'a, M> {
    pub(crate) measure: &'a M,
    pub(crate) masters: &'a [Position],
    pub(crate) p: Position,
    ghost inside: { InPlane p },
}

impl<M: Measure> Newcomer<'_, M> {
    // Whether the ring of a node holds it.
    fn is_held(&self, node: &Node) -> bool
        ensures { Housed self.now.masters.now
            → result ≡ holds (M.heights self.now.measure.now) self.now.masters.now self.now.p node.now }
    {
        vertices_of(self.masters, node)
            .ring(self.measure, self.p)
            .is_some_and(|k| k > 0)
    }

    // Whether it kills a node, which is live and whose ring holds it.
    fn kills(&self, node: &Node) -> bool
        ensures { Housed self.now.masters.now
            → result ≡ kills (M.heights self.now.measure.now) self.now.masters.now self.now.p node.now }
    {
        node.killer.is_none() && self.is_held(node)
    }

    // Of each node, whether it is killed; false past the nodes. A fixed array, since placing has no heap and stands on std alone.
    pub(crate) fn doomed(&self, nodes: &[Node]) -> [bool; MOST_NODES]
        requires { length nodes.now ≤ 1024 }
        ensures all { Housed self.now.masters.now → take (length nodes.now) result
            ≡ map (kills (M.heights self.now.measure.now) self.now.masters.now self.now.p) nodes.now }
        ensures killed { Housed self.now.masters.now → (i : ℕ) → i < length nodes.now → slice_index_or result i false
            ≡ kills (M.heights self.now.measure.now) self.now.masters.now self.now.p (slice_index_or nodes.now i no_node) }
        ensures others { (i : ℕ) → length nodes.now ≤ i → slice_index_or result i false ≡ false }
    {
        // over the nodes in use: array::from_fn would ask each place of the array
        let mut killed = [false; MOST_NODES];
        for (i, node) in nodes.iter().enumerate() {
            killed[i] = self.kills(node);
        }
        killed
    }
}
