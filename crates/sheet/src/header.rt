//! What the header of a sheet states.
ghost use Rattle.std.specs.Prelude.{◌≡◌, ◌+◌, ◌^◌, ◌<◌, ◌≤◌, length, not, ◌||◌, slice_index};
ghost use Rattle.figures.specs.Bytes.{word};
ghost use Rattle.sheet.specs.Layout.{entry, count, masters, stated_length, stated_offset, record_length, room};
ghost use Rattle.sheet.specs.Refusals.{differs};

use crate::section::Section;

pub(crate) const HEADER: usize = 22;

// What the header states of a section: how many records, how long each is, and where the first starts.
#[derive(Clone, Copy)]
pub(crate) struct Entry {
    pub(crate) count: u16,
    pub(crate) length: u16,
    pub(crate) offset: u16,
}

// The header of some bytes, which are long enough to have one.
#[derive(Clone, Copy)]
pub(crate) struct Header<'a> {
    pub(crate) bytes: &'a [u8],
    ghost whole: { 22 ≤ length bytes.now },
}

// The number in the two bytes from a place on that are there, the high byte first: unlike `figures::word_at`, it tests nothing.
pub(crate) fn number_at(bytes: &[u8], place: usize) -> u16
    requires { place + 1 < length bytes.now }
    ensures { result ≡ word bytes.now place }
{
    u16::from_be_bytes([bytes[place], bytes[place + 1]])
}

// Where the header speaks of a section.
fn place_of(section: Section) -> usize
    ensures { result ≡ entry section }
{
    match section {
        Section::Masters => 4,
        Section::Advances => 10,
        Section::Pairs => 16,
    }
}

impl<'a> Header<'a> {
    // Whether the mark and the version are those of version 1.
    pub(crate) fn is_marked(&self) -> bool
        ensures { let bytes = self.now.bytes.now in
            result ≡ not (differs (slice_index bytes 0) 70 || differs (slice_index bytes 1) 83
            || differs (word bytes 2) 1) }
    {
        matches!(self.bytes, [b'F', b'S', ..]) && number_at(self.bytes, 2) == 1
    }

    // What it states of a section.
    pub(crate) fn entry(&self, section: Section) -> Entry
        ensures counted { result.count ≡ count self.now.bytes.now section }
        ensures measured { result.length ≡ stated_length self.now.bytes.now section }
        ensures placed { result.offset ≡ stated_offset self.now.bytes.now section }
    {
        let place = place_of(section);
        Entry {
            count: number_at(self.bytes, place),
            length: number_at(self.bytes, place + 2),
            offset: number_at(self.bytes, place + 4),
        }
    }

    // The masters of the family, the four corners included.
    pub(crate) fn masters(&self) -> usize
        ensures value { result ≡ masters self.now.bytes.now }
        ensures bound { result < 2 ^ 16 + 4 }
    {
        4 + usize::from(self.entry(Section::Masters).count)
    }

    // The length that the layout gives the records of a section.
    pub(crate) fn lawful_length(&self, section: Section) -> usize
        ensures value { result ≡ record_length self.now.bytes.now section }
        ensures bound { result < 2 ^ 19 }
    {
        let masters = self.masters();
        match section {
            Section::Masters => 4,
            Section::Advances => 2 + 2 * masters,
            Section::Pairs => 4 + 4 * masters,
        }
    }

    // The bytes of all records of a section.
    pub(crate) fn room(&self, section: Section) -> usize
        ensures value { result ≡ room self.now.bytes.now section }
        ensures bound { result < 2 ^ 40 }
    {
        usize::from(self.entry(section).count) * self.lawful_length(section)
    }
}
