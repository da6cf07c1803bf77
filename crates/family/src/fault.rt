//! Why a sheet is not loaded, why a question is not answered, and why a call is refused.
ghost use Rattle.std.specs.Prelude.{◌≡◌};
ghost use Rattle.family.specs.Carried.{carried};
ghost use Rattle.family.specs.Refusals.{load_refusal, question_refusal, call_refusal};
ghost use Rattle.family.specs.declared.fault.CallFault.TheVariants as call;

use mesh::PlaceFault;
use plane::Fault;
use sheet::SheetFault;

// A master record that placing refused.
#[derive(Clone, Copy, PartialEq, Eq, Debug)]
pub struct RefusedRecord {
    // its number, from 0
    pub number: u16,
    // its first byte, counted from 0 at the start of the sheet
    pub byte: u32,
    pub fault: PlaceFault,
}

// Why a sheet is not loaded.
#[derive(Clone, Copy, PartialEq, Eq, Debug)]
pub enum LoadFault {
    // the draft has placed masters
    HasMasters,
    Record(RefusedRecord),
}

// A refused record by its number alone, as placing the records knows it.
#[derive(Clone, Copy)]
pub(crate) struct BadRecord {
    pub(crate) number: u16,
    pub(crate) fault: PlaceFault,
}

// A load says in addition where the record stands.
impl From<BadRecord> for LoadFault {
    ghost from_gives = { λ bad r. r ≡ carried bad };

    fn from(bad: BadRecord) -> LoadFault {
        LoadFault::Record(RefusedRecord {
            number: bad.number,
            byte: 22 + 4 * u32::from(bad.number),
            fault: bad.fault,
        })
    }
}

impl Fault for LoadFault {
    ghost refusal = { load_refusal };

    fn number(self) -> u8 {
        match self {
            LoadFault::HasMasters => 12,
            LoadFault::Record(_) => 13,
        }
    }
}

// Why a question is not answered.
#[derive(Clone, Copy, PartialEq, Eq, Debug)]
pub enum QuestionFault {
    // a coordinate is not from 1 to 4,095
    NotInside,
}

impl Fault for QuestionFault {
    ghost refusal = { question_refusal };

    fn number(self) -> u8 {
        match self {
            QuestionFault::NotInside => 2,
        }
    }
}

// Why a call is refused: by the fault of what it asked for.
#[derive(Clone, Copy, PartialEq, Eq, Debug)]
pub enum CallFault {
    Place(PlaceFault),
    // the bytes to load are no sheet
    Sheet(SheetFault),
    Load(LoadFault),
    Question(QuestionFault),
}

impl From<SheetFault> for CallFault {
    ghost from_gives = { λ fault r. r ≡ call.Sheet fault };

    fn from(fault: SheetFault) -> CallFault {
        CallFault::Sheet(fault)
    }
}

impl From<LoadFault> for CallFault {
    ghost from_gives = { λ fault r. r ≡ call.Load fault };

    fn from(fault: LoadFault) -> CallFault {
        CallFault::Load(fault)
    }
}

impl Fault for CallFault {
    ghost refusal = { call_refusal };

    fn number(self) -> u8 {
        match self {
            CallFault::Place(fault) => fault.number(),
            CallFault::Sheet(fault) => fault.number(),
            CallFault::Load(fault) => fault.number(),
            CallFault::Question(fault) => fault.number(),
        }
    }
}
