//! A third measure: it shows that the generic code depends on nothing but the laws.
ghost use Rattle.std.specs.Prelude.{◌≡◌, ◌*◌, ◌≤◌};
ghost use Rattle.samples.specs.Grained.{grain, grained_height};
ghost use Rattle.samples.specs.Grains.{grained_bounded, grained_supported};

use plane::{Measure, Position};

#[derive(Clone, Copy)]
pub struct Grained;

fn square(x: u16) -> u32
    ensures { result ≡ x * x }
{
    u32::from(x) * u32::from(x)
}

// 1 where both coordinates are odd, else 0.
#[tactic(auto, unfolding(crate::specs::Grained::grain))]
fn grain(p: Position) -> u16
    ensures value { result ≡ grain p }
    ensures bound { result ≤ 1 }
{
    (p.u % 2) * (p.v % 2)
}

impl Measure for Grained {
    ghost heights = { λ _. grained_height };

    ghost bounded = { λ m. grained_bounded };

    ghost supported = { λ m. grained_supported };

    fn height(&self, p: Position) -> i64 {
        if p.in_plane() {
            2 * i64::from(square(p.u)) + 2 * i64::from(square(p.v)) + i64::from(grain(p))
        } else {
            0
        }
    }
}
