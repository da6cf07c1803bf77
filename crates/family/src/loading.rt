//! Loading a sheet into a draft.
ghost use Rattle.std.specs.Prelude.{◌≡◌, IfErr};
ghost use Rattle.plane.specs.Refusal.{refused};
ghost use Rattle.mesh.specs.Lists.{in_use};
ghost use Rattle.mesh.specs.Tree.{fresh};
ghost use Rattle.family.specs.Calls.{Stepped, load};
ghost use Rattle.family.specs.Outcomes.{load_outcome};
ghost use Rattle.family.specs.Records.{TookAll, Leaves};
ghost use Rattle.family.specs.Carried.{record_refusal};

use crate::fault::{BadRecord, LoadFault};
use crate::staged::Draft;
use mesh::Tables;
use plane::Measure;
use sheet::{Section, Sheet};

// The masters that every family has.
const CORNERS: usize = 4;

impl<M: Measure> Draft<M> {
    // Places the records in order, until one is refused.
    fn place_records(&mut self, sheet: &Sheet) -> Result<(), BadRecord>
        ensures placed { TookAll (M.heights self.old.measure) self.old.tables sheet.now.bytes.now
            (refused record_refusal result) self.new.tables }
        ensures measures { self.new.measure ≡ self.old.measure }
    {
        // by number, which a bad record names
        for k in 0..sheet.count(Section::Masters) {
            let p = sheet.record(k).unwrap();
            let number = k as u16;
            self.place(p).map_err(|fault| BadRecord { number, fault })?;
        }
        Ok(())
    }

    // Places the masters of a sheet in order, into a draft without placed masters. At a bad record the draft is fresh again.
    pub fn load(&mut self, sheet: &Sheet) -> Result<(), LoadFault>
        ensures steps { Stepped (M.heights self.old.measure) self.old.tables (load sheet.now.bytes.now)
            (load_outcome result) self.new.tables }
        ensures measures { self.new.measure ≡ self.old.measure }
        ensures leaves { IfErr result (λ fault. Leaves fault (self.new ≡ self.old)
            (in_use self.new.tables ≡ fresh (M.heights self.old.measure))) }
    {
        if self.tables.masters().len() > CORNERS {
            return Err(LoadFault::HasMasters);
        }
        if let Err(bad) = self.place_records(sheet) {
            // no inspect_err: the proof over a closure that writes the tables did not close
            self.tables = Tables::fresh(&self.measure);
            return Err(LoadFault::from(bad));
        }
        Ok(())
    }
}
