//! The three sections of a sheet.
ghost use Rattle.std.specs.Prelude.{◌≡◌};
ghost use Rattle.sheet.specs.Refusals.{section_number};
ghost use Rattle.sheet.specs.Rows.{section_of};

use figures::Head;

// A run of records of one length.
#[derive(Clone, Copy, PartialEq, Eq, Debug)]
pub enum Section {
    Masters,
    Advances,
    Pairs,
}

impl Section {
    // The sections in the order in which they stand.
    pub const ALL: [Section; 3] = [Section::Masters, Section::Advances, Section::Pairs];

    // The number by which a refusal names the section, as the table of docs/refusals.md fixes it.
    pub fn number(self) -> u8
        ensures { result ≡ section_number self }
    {
        match self {
            Section::Masters => 1,
            Section::Advances => 2,
            Section::Pairs => 3,
        }
    }
}

// The section in which the rows of a kind stand.
impl From<Head> for Section {
    ghost from_gives = { λ head section. section ≡ section_of head };

    fn from(head: Head) -> Section {
        match head {
            Head::Glyph => Section::Advances,
            Head::Pair => Section::Pairs,
        }
    }
}
