//! The nodes that a new master makes, one over each edge of the hole.
ghost use Rattle.std.specs.Prelude.{◌≡◌, ℕ, ◌+◌, ◌<◌, ◌≤◌, [], ◌∷◌, ◌++◌, length, map, take};
ghost use Rattle.mesh.specs.Edges.{shown};
ghost use Rattle.mesh.specs.Placing.{with_son, with_neighbour, changed, changed_if, new_node, grown, marked};

use crate::edge::Edge;
use crate::node::Node;

// The rim of a hole: its edges, over each of which the new master makes a node. The first edge makes the node `first`.
#[derive(Clone, Copy)]
pub(crate) struct Rim<'a> {
    pub(crate) edges: &'a [Edge],
    pub(crate) first: usize,
    pub(crate) master: u8,
    ghost few: { first + length edges.now ≤ 1024 },
}

impl Rim<'_> {
    // The new node over an edge. Across its edges 1 and 2 stand the new nodes that share them.
    fn over(self, edge: &Edge) -> Node
        ensures { result ≡ new_node self.entry.first self.entry.master (map shown self.entry.edges.now) (shown edge.now) }
    {
        let number = |i: usize| (self.first + i) as u16;
        let after = self.edges.iter().position(|e| e.from == edge.to);
        let before = self.edges.iter().position(|e| e.to == edge.from);
        Node::born(
            [edge.from, edge.to, self.master],
            [edge.beyond, after.map(number), before.map(number)],
            Some(edge.father),
            edge.beyond,
        )
    }

    // A new node over each edge, behind those in use. Edges are counted, since a node's number is its place.
    pub(crate) fn grow(self, nodes: &mut [Node])
        requires { self.first + length self.edges.now ≤ length nodes.old }
        ensures { take (self.entry.first + length self.entry.edges.now) nodes.new
            ≡ grown self.entry.first self.entry.master (map shown self.entry.edges.now) (map shown self.entry.edges.now)
            (take self.entry.first nodes.old) }
    {
        for (i, edge) in self.edges.iter().enumerate() {
            add_node(nodes, self.first + i, edge, self.over(edge));
        }
    }
}

// A node becomes the son of its father. These three write the nodes, which an edge only names.
fn give_son(nodes: &mut [Node], edge: &Edge, son: u16)
    ensures { (n : ℕ) → take n nodes.new
        ≡ changed (with_son edge.now.side son) edge.now.father (take n nodes.old) }
{
    // by index: no contract says what a slice holds after a write through get_mut
    let father = usize::from(edge.father);
    if father < nodes.len() {
        nodes[father].add_son(edge.side, son);
    }
}

// It becomes the neighbour of what is across the edge.
fn give_neighbour(nodes: &mut [Node], edge: &Edge, neighbour: u16)
    ensures { (n : ℕ) → take n nodes.new
        ≡ changed_if (with_neighbour edge.now.from edge.now.to neighbour) edge.now.beyond
        (take n nodes.old) }
{
    if let Some(beyond) = edge.beyond {
        // by index, as in give_son
        let beyond = usize::from(beyond);
        if beyond < nodes.len() {
            nodes[beyond].set_neighbour(edge.from, edge.to, neighbour);
        }
    }
}

// A new node over an edge is put behind those in use.
fn add_node(nodes: &mut [Node], used: usize, edge: &Edge, node: Node)
    requires { (used < length nodes.old) × (used < 65536) }
    ensures { take (used + 1) nodes.new
        ≡ changed_if (with_neighbour edge.now.from edge.now.to used) edge.now.beyond
        (changed (with_son edge.now.side used) edge.now.father (take used nodes.old))
        ++ node ∷ [] }
{
    let number = used as u16;
    give_son(nodes, edge, number);
    give_neighbour(nodes, edge, number);
    nodes[used] = node;
}

// The killed nodes get their killer.
pub(crate) fn mark(nodes: &mut [Node], doomed: &[bool], killer: u8)
    requires { length doomed.now ≤ length nodes.old }
    ensures { take (length doomed.now) nodes.new
        ≡ marked killer doomed.now 0 (take (length doomed.now) nodes.old) }
{
    // by index: no contract says what a slice holds after a zip of iter_mut
    for (i, killed) in doomed.iter().enumerate() {
        if *killed {
            nodes[i].kill(killer);
        }
    }
}
