//! Nodes.
ghost use Rattle.std.specs.Prelude.{◌≡◌};
ghost use Rattle.mesh.specs.Tree.{born};

// A triangle of the tree. Its edges 0, 1 and 2 run from each master to the next. A node without a killer is live.
// Parallel arrays take 38 bytes; an array of three sides would take 40, since each side would be padded. Nodes name one another by
// number, since one is named by several and there is no heap.
#[derive(Clone, Copy, PartialEq, Eq, Debug)]
pub struct Node {
    // the numbers of its masters, which turn left
    pub masters: [u8; 3],
    // the node across each edge
    pub neighbours: [Option<u16>; 3],
    // the killed node on whose edge it was made, and the node that stood across that edge
    pub father: Option<u16>,
    pub stepfather: Option<u16>,
    // the master that killed it
    pub killer: Option<u8>,
    // the node made through each edge when it was killed
    pub sons: [Option<u16>; 3],
}

impl Node {
    // A node as it is made: live and without sons.
    pub(crate) fn born(
        masters: [u8; 3],
        neighbours: [Option<u16>; 3],
        father: Option<u16>,
        stepfather: Option<u16>,
    ) -> Node
        ensures { result ≡ born masters neighbours father stepfather }
    {
        Node {
            masters,
            neighbours,
            father,
            stepfather,
            killer: None,
            sons: [None; 3],
        }
    }
}
