//! Reading the tables.
ghost use Rattle.std.specs.Prelude.{◌≡◌, IfOk, slice_index_or};
ghost use Rattle.plane.specs.Refusal.{refused, first};
ghost use Rattle.mesh.specs.Lists.{in_use};
ghost use Rattle.mesh.specs.Refusals.{node_refusal, node_rows};
ghost use Rattle.mesh.specs.Tree.{Mesh};
ghost use Rattle.mesh.specs.declared.node.Node.{Node as ANode};

use crate::fault::NodeFault;
use crate::node::Node;
use crate::tables::Tables;

impl Tables {
    // The node of a number.
    pub fn node(&self, number: usize) -> Result<Node, NodeFault>
        ensures takes { IfOk result (λ n. (d : ANode) → n ≡ slice_index_or (in_use self.now).nodes number d) }
        ensures refuses { refused node_refusal result ≡ first (node_rows (in_use self.now).nodes number) }
    {
        self.nodes()
            .get(number)
            .copied()
            .ok_or(NodeFault::NoSuchNode)
    }
}
