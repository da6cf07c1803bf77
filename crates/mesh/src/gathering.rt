//! Gathering the edges of the hole.
ghost use Rattle.std.specs.Prelude.{◌≡◌, ◌+◌, ◌*◌, ◌<◌, ◌≤◌, List, [], ◌∷◌, ◌++◌, length, map};
ghost use Rattle.mesh.specs.Edges.{HoleEdge, edge_of, node_edges, shown};
ghost use Rattle.mesh.specs.Gathering.{Gathered};
ghost use Rattle.mesh.specs.Placing.{next, stays, side_edges, hole};

use crate::edge::Edge;
use crate::hole::Hole;
use crate::node::Node;
use crate::tables::MOST_NODES;

// The edge after an edge, round a node. Edges are numbers and no enum, since each is a place in the node's arrays.
pub(crate) fn next_side(side: usize) -> usize
    ensures value { result ≡ next side }
    ensures bound { result < 3 }
{
    if side < 2 { side + 1 } else { 0 }
}

impl Node {
    // The edge of a side, where the node has this number.
    fn edge(&self, number: u16, side: usize) -> Edge
        requires { side < 3 }
        ensures { shown result ≡ edge_of number self.now side }
    {
        Edge {
            father: number,
            side: side as u8,
            from: self.masters[side],
            to: self.masters[next_side(side)],
            beyond: self.neighbours[side],
        }
    }
}

// Whether what is across an edge stays: nothing, or a node that is not killed.
fn remains(doomed: &[bool], beyond: Option<u16>) -> bool
    ensures { result ≡ stays doomed.now beyond }
{
    beyond.is_none_or(|j| !doomed.get(usize::from(j)).copied().unwrap_or(false))
}

impl Hole {
    fn empty() -> Hole
        ensures gathered { Gathered result [] }
        ensures none { result.count ≡ 0 }
    {
        Hole {
            edges: [Edge::default(); MOST_NODES],
            count: 0,
        }
    }

    // One edge more.
    fn add(&mut self, edge: Edge)
        requires { self.old.count < 65536 }
        ensures gathered { (es : List HoleEdge) → Gathered self.old es → Gathered self.new (es ++ shown edge ∷ []) }
        ensures more { self.new.count ≡ self.old.count + 1 }
    {
        // by index: no contract says what an array holds after a write through get_mut
        if self.count < MOST_NODES {
            self.edges[self.count] = edge;
        }
        self.count += 1;
    }

    // The edges of a killed node that belong to the hole.
    fn add_node(&mut self, doomed: &[bool], node: &Node, number: u16)
        requires { self.old.count < 65530 }
        ensures gathered { (es : List HoleEdge) → Gathered self.old es
            → Gathered self.new (es ++ node_edges doomed.now number node.now) }
        ensures most { self.new.count ≤ self.old.count + 3 }
    {
        for side in 0..3 {
            if remains(doomed, node.neighbours[side]) {
                self.add(node.edge(number, side));
            }
        }
    }

    // The hole where these nodes are killed.
    pub(crate) fn of(doomed: &[bool], nodes: &[Node]) -> Hole
        requires { (length nodes.now ≤ 1024) × (length doomed.now ≡ length nodes.now) }
        ensures gathered { Gathered result (hole doomed.now 0 nodes.now) }
        ensures few { result.count ≤ 3072 }
    {
        let mut hole = Hole::empty();
        for (i, (node, killed)) in nodes.iter().zip(doomed).enumerate() {
            if *killed {
                hole.add_node(doomed, node, i as u16);
            }
        }
        hole
    }

    // Its edges, where there are not too many.
    pub(crate) fn edges(&self) -> &[Edge]
        requires { self.now.count ≤ 1024 }
        ensures { (es : List HoleEdge) → Gathered self.now es → map shown result.now ≡ es }
    {
        &self.edges[..self.count]
    }
}
