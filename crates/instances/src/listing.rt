//! The text that the program prints.
ghost use Rattle.std.specs.Prelude.{◌≡◌, IfOk, string_bytes};
ghost use Rattle.sheet.specs.Refusals.{sheet_refused};
ghost use Rattle.instances.specs.Listing.{report_text};

use plane::Fault;
use sheet::Sheet;
use std::alloc::{AllocError, Global};

// What is said of a sheet: nothing where it is accepted, else one line.
pub fn report(heap: Global, bytes: &[u8]) -> Result<String, AllocError>
    ensures { IfOk result (λ text. string_bytes text ≡ report_text (sheet_refused bytes.now)) }
{
    let mut sheet = Sheet::fresh();
    let Err(fault) = sheet.check(bytes) else {
        return Ok(String::new(heap));
    };
    let number = fault.number();
    format!(in heap; "sheet refused {number}\n")
}

#[cfg(test)]
mod tests {
    use super::*;
    use std::test::Fail;

    #[test]
    fn refusals(rt: HostRuntime) -> Result<(), Fail> {
        let heap = rt.alloc();
        assert_eq!(rt; report(heap, &[])?.as_str(), "sheet refused 7\n");
        assert_eq!(rt; report(heap, &[0; 22])?.as_str(), "sheet refused 8\n");
        Ok(())
    }
}
