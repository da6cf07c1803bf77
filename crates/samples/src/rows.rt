//! Rows of a sheet.
use crate::blends::{advance, bearing, pair};
use plane::Fault;
use sheet::{Heading, RowFault, Sheet};
use std::process::Abort;

// No placed master, so four figures to a row: two advance rows, and one row of pairs.
const SHEET: &[u8; 62] =
    b"FS\x00\x01\x00\x00\x00\x04\x00\x16\x00\x02\x00\x0a\x00\x16\x00\x01\x00\x14\x00\x2a\x00\x41\x00\x01\x00\x02\x00\x03\x00\x04\x00\x42\xff\xff\xff\xfe\x80\x00\x01\x02\x00\x41\x00\x56\x00\x01\xff\xff\x00\x02\xff\xfe\x7f\xff\x80\x00\x00\x00\x00\x03";

fn take_advances(rt: &impl Abort, sheet: &Sheet) {
    let mut row = [advance(9); 5];
    let taken = [1, 2, 3, 4, 9].map(advance);
    assert_eq!(rt; sheet.row(0, &mut row), Ok(Heading::Glyph(65)));
    assert_eq!(rt; row, taken);
    assert_eq!(rt; sheet.row(2, &mut row), Err(RowFault::NoSuchRow));
    assert_eq!(rt; row, taken);
}

// Buffers of one place too few, and of just enough.
fn take_into(rt: &impl Abort, sheet: &Sheet) {
    let mut short = [advance(9); 3];
    assert_eq!(rt; sheet.row(2, &mut short), Err(RowFault::NoSuchRow));
    assert_eq!(rt; sheet.row(1, &mut short), Err(RowFault::ShortBuffer));
    assert_eq!(rt; short, [advance(9); 3]);
    let mut exact = [advance(9); 4];
    assert_eq!(rt; sheet.row(1, &mut exact), Ok(Heading::Glyph(66)));
    assert_eq!(rt; exact, [65_535, 65_534, 32_768, 258].map(advance));
}

fn take_others(rt: &impl Abort, sheet: &Sheet) {
    let mut pairs = [pair(9, 9); 4];
    assert_eq!(rt; sheet.row(0, &mut pairs), Ok(Heading::Pair(65, 86)));
    let taken = [pair(1, -1), pair(2, -2), pair(32_767, -32_768), pair(0, 3)];
    assert_eq!(rt; pairs, taken);
    assert_eq!(rt; sheet.row(1, &mut pairs), Err(RowFault::NoSuchRow));
    let mut bearings = [bearing(9); 4];
    assert_eq!(rt; sheet.row(1, &mut bearings), Ok(Heading::Glyph(66)));
    assert_eq!(rt; bearings, [-1, -2, -32_768, 258].map(bearing));
}

#[test]
fn rows(rt: HostRuntime) {
    let mut sheet = Sheet::fresh();
    assert!(rt; sheet.check(SHEET).is_ok());
    take_advances(&rt, &sheet);
    take_into(&rt, &sheet);
    take_others(&rt, &sheet);
    assert_eq!(rt; RowFault::NoSuchRow.number(), 14);
    assert_eq!(rt; RowFault::ShortBuffer.number(), 15);
}
