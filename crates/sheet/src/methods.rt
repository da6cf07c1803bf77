//! What a sheet answers.
ghost use Rattle.std.specs.Prelude.{◌≡◌, ◌<◌, is_ok, IfOk, Decides, MatchResult};
ghost use Rattle.plane.specs.Refusal.{refused, first};
ghost use Rattle.sheet.specs.Layout.{KeepsLayout, count, fresh_sheet, master_record};
ghost use Rattle.sheet.specs.declared.section.Section.TheVariants.{Masters};
ghost use Rattle.sheet.specs.Refusals.{sheet_refusal, sheet_refused, record_refusal, record_rows};

use crate::checking::check_bytes;
use crate::fault::{RecordFault, SheetFault};
use crate::header::{HEADER, Header, number_at};
use crate::section::Section;
use crate::window::Sheet;
use plane::Position;

// A version 1 sheet without records.
fn fresh_bytes() -> &'static [u8]
    ensures { result.now ≡ fresh_sheet }
{
    b"FS\x00\x01\x00\x00\x00\x04\x00\x16\x00\x00\x00\x0a\x00\x16\x00\x00\x00\x14\x00\x16"
}

impl<'a> Sheet<'a> {
    // A window on a version 1 sheet without records.
    pub fn fresh() -> Self
        ensures { result.bytes.now ≡ fresh_sheet }
    {
        Sheet {
            bytes: fresh_bytes(),
        }
    }

    // Sets the window on the bytes where they keep the layout; else says why not, and leaves it.
    pub fn check(&mut self, bytes: &'a [u8]) -> Result<(), SheetFault>
        ensures accepts { Decides (is_ok result) (KeepsLayout bytes.now) }
        ensures refuses { refused sheet_refusal result ≡ sheet_refused bytes.now }
        ensures window { MatchResult result (λ _. self.new.bytes.now ≡ bytes.now) (λ _. self.new ≡ self.old) }
    {
        check_bytes(bytes)?;
        *self = Sheet { bytes };
        Ok(())
    }

    // The header, which every accepted sheet has.
    pub(crate) fn header(&self) -> Header<'a>
        ensures { result.bytes.now ≡ self.now.bytes.now }
    {
        Header { bytes: self.bytes }
    }

    // How many records a section has.
    pub fn count(&self, section: Section) -> usize
        ensures { result ≡ count self.now.bytes.now section }
    {
        usize::from(self.header().entry(section).count)
    }

    // The position in a master record that is there, as `record` has tested.
    fn position(&self, k: usize) -> Position
        requires { k < count self.now.bytes.now Masters }
        ensures { result ≡ master_record self.now.bytes.now k }
    {
        let place = HEADER + 4 * k;
        let u = number_at(self.bytes, place);
        let v = number_at(self.bytes, place + 2);
        Position { u, v }
    }

    // The position in master record k, as it stands in the bytes.
    pub fn record(&self, k: usize) -> Result<Position, RecordFault>
        ensures takes { IfOk result (λ p. p ≡ master_record self.now.bytes.now k) }
        ensures refuses { refused record_refusal result ≡ first (record_rows self.now.bytes.now k) }
    {
        if k >= self.count(Section::Masters) {
            return Err(RecordFault::NoSuchRecord);
        }
        Ok(self.position(k))
    }
}
