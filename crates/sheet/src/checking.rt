//! The rows of checking, tried downward.
ghost use Rattle.std.specs.Prelude.{◌≡◌, map, is_ok, Decides, OnOk};
ghost use Rattle.plane.specs.Refusal.{refused, first};
ghost use Rattle.sheet.specs.Layout.{sections, KeepsLayout};
ghost use Rattle.sheet.specs.Refusals.{sheet_refusal, sheet_refused, length_row, offset_rows, rows};

use crate::fault::{Boundary, SheetFault};
use crate::header::{HEADER, Header};
use crate::section::Section;

const LONGEST: usize = 65_535;

const MOST_MASTERS: u16 = 124;

// Refusal 10, at the first section that states another record length than the layout.
fn check_lengths(header: &Header) -> Result<(), SheetFault>
    ensures { refused sheet_refusal result ≡ first (map (length_row header.now.bytes.now) sections) }
{
    for section in Section::ALL {
        if usize::from(header.entry(section).length) != header.lawful_length(section) {
            return Err(SheetFault::RecordLength(section));
        }
    }
    Ok(())
}

// Refusal 11, at the first section that starts elsewhere than the one before it ends, or at the sheet's end.
fn check_offsets(header: &Header) -> Result<(), SheetFault>
    ensures { refused sheet_refusal result ≡ first (offset_rows header.now.bytes.now 22 sections) }
{
    let mut place = HEADER;
    for section in Section::ALL {
        if usize::from(header.entry(section).offset) != place {
            return Err(SheetFault::Offset(Boundary::Start(section)));
        }
        place += header.room(section);
    }
    if header.bytes.len() != place {
        return Err(SheetFault::Offset(Boundary::End));
    }
    Ok(())
}

// The first row that applies, if one does.
fn check_rows(bytes: &[u8]) -> Result<(), SheetFault>
    ensures { refused sheet_refusal result ≡ first (rows bytes.now) }
{
    // not by contains of a range: the search for the rows' proof gives up over it
    if bytes.len() < HEADER || bytes.len() > LONGEST {
        return Err(SheetFault::Size);
    }
    let header = Header { bytes };
    if !header.is_marked() {
        return Err(SheetFault::Mark);
    }
    if header.entry(Section::Masters).count > MOST_MASTERS {
        return Err(SheetFault::Masters);
    }
    check_lengths(&header)?;
    check_offsets(&header)
}

// Why the bytes are refused as a sheet, if they are: exactly where they do not keep the layout.
pub(crate) fn check_bytes(bytes: &[u8]) -> Result<(), SheetFault>
    ensures accepts { Decides (is_ok result) (KeepsLayout bytes.now) }
    ensures refuses { refused sheet_refusal result ≡ sheet_refused bytes.now }
    ensures lawful { OnOk result (∥ KeepsLayout bytes.now ∥₁) }
{
    check_rows(bytes)
}
