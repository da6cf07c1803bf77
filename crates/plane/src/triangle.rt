//! Triangles of the plane.
ghost use Rattle.std.specs.Prelude.{◌≡◌, [], ◌∷◌, Decides};
ghost use Rattle.plane.specs.Plane.{turn, Owns};
ghost use Rattle.plane.specs.Rings.{AllInPlane};

use crate::orientation::turn;
use crate::ownership::crossing;
use crate::position::Position;

// Three positions in their order: where the masters of a triangle stand.
#[derive(Clone, Copy, PartialEq, Eq, Debug)]
pub struct Triangle {
    pub a: Position,
    pub b: Position,
    pub c: Position,
}

impl Triangle {
    // The same triangle, named from its next corner on.
    pub(crate) fn turned(self) -> Triangle
        ensures { result ≡ record { a = self.b; b = self.c; c = self.a } }
    {
        Triangle {
            a: self.b,
            b: self.c,
            c: self.a,
        }
    }

    // Whether its three positions and q lie in the plane. What may be asked only then says so itself: a type for the four would be made
    // for one call.
    pub fn all_in_plane(self, q: Position) -> bool
        ensures { Decides result (AllInPlane self.a self.b self.c q) }
    {
        self.a.in_plane() && self.b.in_plane() && self.c.in_plane() && q.in_plane()
    }

    // The weights of q in a, b and c. They sum to the turn of a, b, c.
    pub fn weights(self, q: Position) -> [i64; 3]
        ensures { result ≡ turn q self.b self.c ∷ turn q self.c self.a ∷ turn q self.a self.b ∷ [] }
    {
        let Triangle { a, b, c } = self;
        [turn(q, b, c), turn(q, c, a), turn(q, a, b)]
    }

    // Whether it owns q: its three crossings sum to 1. Inline, since a call would pass the triangle through memory.
    #[inline(always)]
    pub fn owns(self, q: Position) -> bool
        ensures { Decides result (Owns self.a self.b self.c q) }
    {
        let Triangle { a, b, c } = self;
        crossing(q, a, b) + crossing(q, b, c) + crossing(q, c, a) == 1
    }
}
