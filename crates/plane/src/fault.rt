//! Faults: why a call is refused.
ghost use Rattle.std.specs.Prelude.{◌≡◌};
ghost use Rattle.plane.specs.Refusal.{Refusal};

// A reason why a call is refused, as the table of docs/refusals.md lists it.
pub trait Fault: Copy {
    // the row of the table
    ghost refusal: { Self → Refusal };

    // The refusal's number.
    fn number(self) -> u8
        ensures { result ≡ (refusal self).number };
}
