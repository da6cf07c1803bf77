//! Why a sheet or a record of it is refused.
ghost use Rattle.std.specs.Prelude.{◌≡◌};
ghost use Rattle.std.specs.Option.{option_to_list};
ghost use Rattle.sheet.specs.Refusals.{sheet_refusal, record_refusal, row_refusal};

use crate::section::Section;
use plane::Fault;

// A place that the layout fixes: where a section starts, or where the sheet ends. It is no Option<Section>, whose None
// would not say "the sheet's end", and no second case of SheetFault, since both are one refusal.
#[derive(Clone, Copy, PartialEq, Eq, Debug)]
pub enum Boundary {
    Start(Section),
    End,
}

// Why a sheet is refused, in the order in which it is tested.
#[derive(Clone, Copy, PartialEq, Eq, Debug)]
pub enum SheetFault {
    // under 22 or over 65,535 bytes
    Size,
    // the mark or the version differs
    Mark,
    // over 124 masters
    Masters,
    // a section states another record length than the layout
    RecordLength(Section),
    // a section starts, or the sheet ends, elsewhere than the layout has it
    Offset(Boundary),
}

// Why a master record is not given.
#[derive(Clone, Copy, PartialEq, Eq, Debug)]
pub enum RecordFault {
    // the section of masters has no record of that number
    NoSuchRecord,
}

// Why a row is not given, in the order in which it is tested.
#[derive(Clone, Copy, PartialEq, Eq, Debug)]
pub enum RowFault {
    // the section has no row of that number
    NoSuchRow,
    // the buffer has fewer places than the family has masters
    ShortBuffer,
}

impl Fault for SheetFault {
    ghost refusal = { sheet_refusal };

    fn number(self) -> u8 {
        match self {
            SheetFault::Size => 7,
            SheetFault::Mark => 8,
            SheetFault::Masters => 9,
            SheetFault::RecordLength(_) => 10,
            SheetFault::Offset(_) => 11,
        }
    }
}

impl Fault for RecordFault {
    ghost refusal = { record_refusal };

    fn number(self) -> u8 {
        match self {
            RecordFault::NoSuchRecord => 14,
        }
    }
}

impl Fault for RowFault {
    ghost refusal = { row_refusal };

    fn number(self) -> u8 {
        match self {
            RowFault::NoSuchRow => 14,
            RowFault::ShortBuffer => 15,
        }
    }
}

impl SheetFault {
    // The section that the refusal names, 1 to 3, or 4 for the sheet's end: numbers, as the table of docs/refusals.md has them.
    pub fn section(self) -> Option<u8>
        ensures { option_to_list result ≡ (sheet_refusal self).names }
    {
        match self {
            SheetFault::Size | SheetFault::Mark | SheetFault::Masters => None,
            SheetFault::RecordLength(section) => Some(section.number()),
            SheetFault::Offset(Boundary::Start(section)) => Some(section.number()),
            SheetFault::Offset(Boundary::End) => Some(4),
        }
    }
}
