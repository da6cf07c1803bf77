//! Crossings: on which side of an edge a position lies.
ghost use Rattle.std.specs.Prelude.{◌≡◌, ◌≤◌, unsigned_abs};
ghost use Rattle.plane.specs.Plane.{rises, falls, crossing};

use crate::orientation::turn;
use crate::position::Position;

// Whether the edge from a to b rises past q, with q on its left.
fn rises(q: Position, a: Position, b: Position) -> bool
    ensures { result ≡ rises q a b }
{
    (a.v..b.v).contains(&q.v) && turn(a, b, q) > 0
}

// Whether the edge from a to b falls past q, with q on its right.
fn falls(q: Position, a: Position, b: Position) -> bool
    ensures { result ≡ falls q a b }
{
    (b.v..a.v).contains(&q.v) && turn(a, b, q) < 0
}

// The crossing of the edge from a to b at q: 1, −1 or 0. A number and no enum, since an owner's three are summed.
pub fn crossing(q: Position, a: Position, b: Position) -> i8
    ensures value { result ≡ crossing q a b }
    ensures bound { unsigned_abs result ≤ 1 }
{
    if rises(q, a, b) {
        1
    } else if falls(q, a, b) {
        -1
    } else {
        0
    }
}
