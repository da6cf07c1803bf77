//! The optical measure.
ghost use Rattle.std.specs.Prelude.{◌≡◌, ◌≤◌};
ghost use Rattle.plane.specs.Optical.{optic, optical_height};
ghost use Rattle.plane.specs.OpticHeights.{optical_bounded, optical_supported};

use crate::measure::Measure;
use crate::optical_table::TABLE;
use crate::position::Position;

// The sum of a table's numbers at u and at v. The table bends most near 0, and less from 1,024 and from 2,048 on.
#[derive(Clone, Copy, Debug)]
pub struct Optical;

// The table's number at k.
fn entry(k: u16) -> u32
    requires { k ≤ 4096 }
    ensures { result ≡ optic k }
{
    TABLE[usize::from(k)]
}

impl Measure for Optical {
    ghost heights = { λ _. optical_height };

    ghost bounded = { λ m. optical_bounded };

    ghost supported = { λ m. optical_supported };

    fn height(&self, p: Position) -> i64 {
        if p.in_plane() {
            i64::from(entry(p.u)) + i64::from(entry(p.v))
        } else {
            0
        }
    }
}
