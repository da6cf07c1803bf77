//! Drafts and faces: a family at the stage that its type names.
ghost use Rattle.std.specs.Prelude.{◌≡◌, IfOk, slice_index_or};
ghost use Rattle.plane.specs.Refusal.{refused, first};
ghost use Rattle.mesh.specs.Lists.{in_use};
ghost use Rattle.mesh.specs.Refusals.{node_refusal, node_rows};
ghost use Rattle.mesh.specs.declared.node.Node.{Node as ANode};

use mesh::{Node, NodeFault, Tables};
use std::marker::PhantomData;

// The stage at which a family takes masters.
#[derive(Clone, Copy)]
pub struct ForMasters;

// The stage at which a family answers questions.
#[derive(Clone, Copy)]
pub struct ForQuestions;

// A family at the stage S. It keeps the measure that it was made with.
#[derive(Drop)]
pub struct Staged<M, S> {
    // each call on a `&mut` says that it stays, since no type keeps one field from being written
    pub(crate) measure: M,
    pub(crate) tables: Tables,
    pub(crate) stage: PhantomData<S>,
}

// A family that takes masters.
pub type Draft<M> = Staged<M, ForMasters>;

// A family that answers questions.
pub type Face<M> = Staged<M, ForQuestions>;

impl<M, S> Staged<M, S> {
    // The node of a number.
    pub fn node(&self, number: usize) -> Result<Node, NodeFault>
        ensures takes { IfOk result (λ n. (d : ANode) → n ≡ slice_index_or (in_use self.now.tables).nodes number d) }
        ensures refuses { refused node_refusal result ≡ first (node_rows (in_use self.now.tables).nodes number) }
    {
        self.tables.node(number)
    }

    // The same tables under the same measure, at another stage.
    pub(crate) fn turned<T>(self) -> Staged<M, T>
        ensures { (result.measure ≡ self.measure) × (result.tables ≡ self.tables) }
    {
        let Staged {
            measure,
            tables,
            ..
        } = self;
        Staged {
            measure,
            tables,
            stage: PhantomData,
        }
    }
}
