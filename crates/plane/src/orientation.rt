//! Turns.
ghost use Rattle.std.specs.Prelude.{◌≡◌, ℕ, ◌+◌, ◌*◌, ◌≤◌, pos, ◌-ℤ◌, ◌*ℤ◌};
ghost use Rattle.plane.specs.Plane.{turn, Size, Spans};

use crate::exact::{difference, product};
use crate::position::Position;

// How far `to` lies from `from`.
fn gap(from: u16, to: u16) -> i64
    ensures value { result ≡ pos to -ℤ pos from }
    ensures bound { (m : ℕ) → from ≤ m → to ≤ m → Size result m }
{
    i64::from(to) - i64::from(from)
}

// The rectangle that two gaps span.
fn rectangle(from: u16, to: u16, low: u16, high: u16) -> i64
    ensures value { result ≡ (pos to -ℤ pos from) *ℤ (pos high -ℤ pos low) }
    ensures bound { (m : ℕ) → from ≤ m → to ≤ m → low ≤ m → high ≤ m → Size result (m * m) }
{
    product(gap(from, to), gap(low, high))
}

// Twice the area of the triangle a, b, c, positive where it turns left.
pub fn turn(a: Position, b: Position, c: Position) -> i64
    ensures value { result ≡ turn a b c }
    ensures bound { (m : ℕ) → Spans m a → Spans m b → Spans m c → Size result (m * m + m * m) }
{
    let rising = rectangle(a.u, b.u, a.v, c.v);
    let falling = rectangle(a.v, b.v, a.u, c.u);
    difference(rising, falling)
}
