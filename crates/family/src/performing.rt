//! Performing one call on a family.
ghost use Rattle.std.specs.Prelude.{◌≡◌};
ghost use Rattle.family.specs.declared.family.Family.TheVariants.{Open, Shut};
ghost use Rattle.family.specs.Calls.{Stepped, load};
ghost use Rattle.family.specs.Outcomes.{answer_outcome};
ghost use Rattle.family.specs.Performing.{Answered, Extends};
ghost use Rattle.family.specs.Standing.{deed_of};

use crate::call::{Answer, Call, Reply};
use crate::family::Family;
use crate::fault::CallFault;
use crate::staged::{Draft, Face};
use plane::Measure;
use sheet::Sheet;

impl<M: Measure> Draft<M> {
    // Checks the bytes of a sheet and loads them.
    fn load_bytes(&mut self, bytes: &[u8]) -> Answer
        ensures steps { Stepped (M.heights self.old.measure) self.old.tables (load bytes.now)
            (answer_outcome result) self.new.tables }
        ensures measures { self.new.measure ≡ self.old.measure }
    {
        let mut sheet = Sheet::fresh();
        sheet.check(bytes)?;
        self.load(&sheet)?;
        Ok(Reply::Done)
    }

    // A call on a draft.
    fn perform(mut self, call: Call) -> (Family<M>, Option<Answer>)
        ensures { Answered M.heights (Open self) (deed_of call.entry) result.1 result.0 }
    {
        match call {
            Call::Release => (Family::Shut(self.release()), Some(Ok(Reply::Done))),
            Call::Place(p) => {
                let answer = self.place(p).map(Reply::Placed).map_err(CallFault::Place);
                (Family::Open(self), Some(answer))
            }
            Call::Load(bytes) => {
                let answer = self.load_bytes(bytes);
                (Family::Open(self), Some(answer))
            }
            Call::Reopen | Call::Ask(_) => (Family::Open(self), None),
        }
    }
}

impl<M: Measure> Face<M> {
    // A call on a face.
    fn perform(self, call: Call) -> (Family<M>, Option<Answer>)
        ensures { Answered M.heights (Shut self) (deed_of call.entry) result.1 result.0 }
    {
        match call {
            Call::Reopen => (Family::Open(self.reopen()), Some(Ok(Reply::Done))),
            Call::Ask(q) => {
                let answer = self
                    .question(q)
                    .map(Reply::Mixed)
                    .map_err(CallFault::Question);
                (Family::Shut(self), Some(answer))
            }
            Call::Release | Call::Place(_) | Call::Load(_) => (Family::Shut(self), None),
        }
    }
}

impl<M: Measure> Family<M> {
    // Performs one call. None where a draft or a face does not allow it; then nothing changed.
    pub fn perform(self, call: Call) -> (Family<M>, Option<Answer>)
        ensures answers { Answered M.heights self (deed_of call.entry) result.1 result.0 }
        ensures extends { Extends M.heights self (deed_of call.entry) result.1 result.0 }
    {
        match self {
            Family::Open(draft) => draft.perform(call),
            Family::Shut(face) => face.perform(call),
        }
    }
}
