//! Measures.
ghost use Rattle.std.specs.Prelude.{◌≡◌};
ghost use Rattle.plane.specs.Measures.{Heights, Bounded, Supported};
ghost use Rattle.plane.specs.Weighted.{measure_refusal};

use crate::fault::Fault;
use crate::position::Position;

// A height for each position. The engine learns nothing of a measure but heights and the two laws.
pub trait Measure {
    ghost heights: { Self → Heights };

    // Each measure tests the plane itself: a body given here would want a second height, for the plane alone.
    fn height(&self, p: Position) -> i64
        ensures { result ≡ heights self.now p };

    // from 0 to 2^33, and 0 outside the plane
    ghost bounded: { (m : Self) → Bounded (heights m) };

    // at each position a plane touches the heights there alone
    ghost supported: { (m : Self) → Supported (heights m) };
}

// Why a measure is not made.
#[derive(Clone, Copy, PartialEq, Eq, Debug)]
pub enum MeasureFault {
    // the three numbers of a weighted measure break its rule
    Weights,
}

impl Fault for MeasureFault {
    ghost refusal = { measure_refusal };

    fn number(self) -> u8 {
        match self {
            MeasureFault::Weights => 1,
        }
    }
}
