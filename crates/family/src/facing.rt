//! What a face does.
ghost use Rattle.std.specs.Prelude.{◌≡◌, ℕ, ◌<◌, List, length, IfOk};
ghost use Rattle.plane.specs.declared.position.Position.{Position as APosition};
ghost use Rattle.mesh.specs.Lists.{in_use};
ghost use Rattle.mesh.specs.Placing.{stand, tree};
ghost use Rattle.family.specs.Calls.{Made, Stepped, ask, reopen, done};
ghost use Rattle.family.specs.Finding.{ShowsOnly};
ghost use Rattle.family.specs.Outcomes.{question_outcome};

use crate::fault::QuestionFault;
use crate::finding::find_mix;
use crate::staged::{Draft, Face};
use figures::Mix;
use plane::{Measure, Position};

impl<M: Measure> Face<M> {
    // The mix of the owner of q.
    pub fn question(&self, q: Position) -> Result<Mix, QuestionFault>
        ensures steps { Stepped (M.heights self.now.measure) self.now.tables (ask q) (question_outcome result)
            self.now.tables }
        ensures own { (ps : List APosition) → Made (M.heights self.now.measure) ps self.now.tables → (k : ℕ)
            → k < length (in_use self.now.tables).masters → stand (in_use self.now.tables).masters k ≡ q
            → IfOk result (λ x. ShowsOnly x k) }
    {
        if !q.is_inside() {
            return Err(QuestionFault::NotInside);
        }
        // no family is refused here: each of its inside positions has an owner
        find_mix(&self.tables, q).ok_or(QuestionFault::NotInside)
    }

    // Uses the face up and gives the draft back. All tables are kept.
    pub fn reopen(self) -> Draft<M>
        ensures steps { Stepped (M.heights self.measure) self.tables reopen done result.tables }
        ensures keeps { (result.measure ≡ self.measure) × (result.tables ≡ self.tables) }
    {
        self.turned()
    }
}
