//! Checking sheets, and reading what they hold.
use plane::{Fault, Position};
use sheet::{RecordFault, Section, Sheet};
use std::alloc::{AllocError, Global};
use std::process::Abort;
use std::test::Fail;

// One master at (1024, 1024), and no rows.
const SAMPLE: &[u8; 26] =
    b"FS\x00\x01\x00\x01\x00\x04\x00\x16\x00\x00\x00\x0c\x00\x1a\x00\x00\x00\x18\x00\x1a\x04\x00\x04\x00";

// How a sheet is refused: by a number, and some refusals name a section.
#[derive(Clone, Copy, PartialEq, Eq, Debug)]
struct Refusal {
    number: u8,
    section: Option<u8>,
}

type Verdict = Result<(), Refusal>;

fn refused(number: u8) -> Verdict {
    Err(Refusal {
        number,
        section: None,
    })
}

fn refused_at(number: u8, section: u8) -> Verdict {
    Err(Refusal {
        number,
        section: Some(section),
    })
}

fn checked(bytes: &[u8]) -> Verdict {
    let mut sheet = Sheet::fresh();
    sheet.check(bytes).map_err(|fault| Refusal {
        number: fault.number(),
        section: fault.section(),
    })
}

// Places of the sample, another byte for each, and what a check then answers.
fn changes() -> [(usize, u8, Verdict); 22] {
    [
        // mark and version
        (0, 83, refused(8)),
        (1, 70, refused(8)),
        (2, 1, refused(8)),
        (3, 0, refused(8)),
        (3, 2, refused(8)),
        // the count of masters: the limit, then the row lengths that hang on it
        (4, 1, refused(9)),
        (5, 125, refused(9)),
        (5, 124, refused_at(10, 2)),
        (5, 0, refused_at(10, 2)),
        // record lengths
        (6, 1, refused_at(10, 1)),
        (7, 6, refused_at(10, 1)),
        (13, 10, refused_at(10, 2)),
        (18, 1, refused_at(10, 3)),
        (19, 26, refused_at(10, 3)),
        // offsets
        (8, 1, refused_at(11, 1)),
        (9, 24, refused_at(11, 1)),
        (15, 22, refused_at(11, 2)),
        (20, 1, refused_at(11, 3)),
        (21, 22, refused_at(11, 3)),
        // a count that moves what follows
        (11, 1, refused_at(11, 3)),
        (17, 1, refused_at(11, 4)),
        // the position of a record is nobody's business here
        (22, 255, Ok(())),
    ]
}

#[test]
fn one_byte_changed(rt: HostRuntime) {
    assert_eq!(rt; checked(SAMPLE), Ok(()));
    for (place, byte, verdict) in changes() {
        let mut bytes = *SAMPLE;
        *bytes.get_mut(place).expect(&rt, "a place of the sample") = byte;
        assert_eq!(rt; checked(&bytes), verdict);
    }
}

fn put(bytes: &mut Vec<u8>, number: usize) -> Result<(), Fail> {
    bytes.extend_from_slice(&u16::try_from(number)?.to_be_bytes())?;
    Ok(())
}

// What the header says of a section, and where the next one starts.
fn put_section(
    bytes: &mut Vec<u8>,
    count: u16,
    length: usize,
    place: usize,
) -> Result<usize, Fail> {
    put(bytes, usize::from(count))?;
    put(bytes, length)?;
    put(bytes, place)?;
    Ok(place.saturating_add(length.saturating_mul(usize::from(count))))
}

// A sheet with a true header, its records all 0.
fn sheet_of(heap: Global, masters: u16, advances: u16, pairs: u16) -> Result<Vec<u8>, Fail> {
    let n = 4 + usize::from(masters);
    let mut bytes = [70, 83, 0, 1].to_vec(heap)?;
    let place = put_section(&mut bytes, masters, 4, 22)?;
    let place = put_section(&mut bytes, advances, 2 + 2 * n, place)?;
    let place = put_section(&mut bytes, pairs, 4 + 4 * n, place)?;
    bytes.resize(place, 0)?;
    Ok(bytes)
}

// A sheet cut or filled with 0 to a length.
fn sized(mut bytes: Vec<u8>, len: usize) -> Result<Vec<u8>, AllocError> {
    bytes.resize(len, 0)?;
    Ok(bytes)
}

#[test]
fn lengths_and_limits(rt: HostRuntime) -> Result<(), Fail> {
    let heap = rt.alloc();
    assert_eq!(rt; checked(&[]), refused(7));
    let fresh = sheet_of(heap, 0, 0, 0)?;
    assert_eq!(rt; checked(&fresh), Ok(()));
    assert_eq!(rt; checked(&sized(fresh, 21)?), refused(7));
    assert_eq!(rt;
        checked(&sized(sheet_of(heap, 0, 0, 0)?, 23)?),
        refused_at(11, 4)
    );
    assert_eq!(rt;
        checked(&sized(sheet_of(heap, 1, 0, 0)?, 25)?),
        refused_at(11, 4)
    );
    // the longest sheet that the layout allows has 65,534 bytes, since every length is even
    let longest = sheet_of(heap, 1, 5459, 0)?;
    assert_eq!(rt; longest.len(), 65_534);
    assert_eq!(rt; checked(&longest), Ok(()));
    let odd = sized(longest, 65_535)?;
    assert_eq!(rt; checked(&odd), refused_at(11, 4));
    assert_eq!(rt; checked(&sized(odd, 65_536)?), refused(7));
    assert_eq!(rt; checked(&sheet_of(heap, 124, 3, 2)?), Ok(()));
    assert_eq!(rt; checked(&sheet_of(heap, 125, 3, 2)?), refused(9));
    Ok(())
}

// A field of two bytes inserted before the offset of the first section: the numbers behind it are not taken for others.
#[test]
fn a_field_inserted(rt: HostRuntime) {
    let bytes =
        b"FS\x00\x01\x00\x01\x00\x04\x00\x02\x00\x16\x00\x00\x00\x0c\x00\x1a\x00\x00\x00\x18\x00\x1a\x04\x00\x04\x00";
    assert_eq!(rt; checked(bytes), refused_at(10, 2));
}

// What a window counts and reads, and that a refusal leaves it.
fn read_through<'a>(rt: &impl Abort, sheet: &mut Sheet<'a>, sample: &'a [u8], short: &'a [u8]) {
    assert_eq!(rt; sheet.count(Section::Masters), 0);
    assert_eq!(rt; sheet.record(0), Err(RecordFault::NoSuchRecord));
    assert!(rt; sheet.check(sample).is_ok());
    assert!(rt; sheet.check(short).is_err());
    assert_eq!(rt; sheet.count(Section::Masters), 1);
    assert_eq!(rt; sheet.count(Section::Advances), 0);
    assert_eq!(rt; sheet.count(Section::Pairs), 0);
    assert_eq!(rt; sheet.record(0), Ok(Position { u: 1024, v: 1024 }));
    assert_eq!(rt; sheet.record(1), Err(RecordFault::NoSuchRecord));
}

#[test]
fn the_window(rt: HostRuntime) {
    let mut sheet = Sheet::fresh();
    read_through(&rt, &mut sheet, SAMPLE, &[70]);
    assert_eq!(rt; RecordFault::NoSuchRecord.number(), 14);
}
