//! What a draft does.
ghost use Rattle.std.specs.Prelude.{◌≡◌, false, [], is_ok};
ghost use Rattle.family.specs.Calls.{Made, Stepped, place, release, done};
ghost use Rattle.family.specs.Outcomes.{place_outcome};

use crate::staged::{Draft, Face, Staged};
use mesh::{PlaceFault, Tables};
use plane::{Measure, Position};
use std::marker::PhantomData;

impl<M: Measure> Draft<M> {
    // A fresh draft: the family without placed masters.
    pub fn new(measure: M) -> Draft<M>
        ensures keeps { result.measure ≡ measure }
        ensures fresh { Made (M.heights measure) [] result.tables }
    {
        let tables = Tables::fresh(&measure);
        Staged {
            measure,
            tables,
            stage: PhantomData,
        }
    }

    // Places a master and answers its number.
    pub fn place(&mut self, p: Position) -> Result<u8, PlaceFault>
        ensures steps { Stepped (M.heights self.old.measure) self.old.tables (place p) (place_outcome result)
            self.new.tables }
        ensures measures { self.new.measure ≡ self.old.measure }
        ensures keeps { is_ok result ≡ false → self.new ≡ self.old }
    {
        self.tables.place(&self.measure, p)
    }

    // Uses the draft up and gives its face. All tables are kept.
    pub fn release(self) -> Face<M>
        ensures steps { Stepped (M.heights self.measure) self.tables release done result.tables }
        ensures keeps { (result.measure ≡ self.measure) × (result.tables ≡ self.tables) }
    {
        self.turned()
    }
}
