//! The program `instances`: says of the sheet in the file family.sheet whether it is refused.
#![tactic(auto)]

use std::{fs, io};

mod listing;

use listing::report;

fn main(rt: HostRuntime) -> io::Result<()> {
    let heap = rt.alloc();
    // a file that is missing or cannot be read counts as a sheet of 0 bytes
    let bytes = fs::read(&rt, "family.sheet").unwrap_or_else(|_| Vec::new(heap));
    let text = report(heap, bytes.as_slice())?;
    rt.print(text)
}
