//! The ring test.
ghost use Rattle.std.specs.Prelude.{◌≡◌, ◌-ℤ◌, ◌*ℤ◌, MatchOption};
ghost use Rattle.plane.specs.Plane.{Size, turn};
ghost use Rattle.plane.specs.Measures.{Height};
ghost use Rattle.plane.specs.Rings.{K, AllInPlane, HoldsAround};

use crate::exact::{product, sum};
use crate::measure::Measure;
use crate::orientation::turn;
use crate::position::Position;
use crate::triangle::Triangle;

// How much higher the measure lies at a than a height.
fn rise<M: Measure>(measure: &M, a: Position, height: i64) -> i64
    requires { Height height }
    ensures value { result ≡ M.heights measure.now a -ℤ height }
    ensures bound { Size result 8589934592 }
{
    measure.height(a) - height
}

impl Triangle {
    // One term of K: how much higher its first corner lies than q, whose height is given, times the weight of q there.
    fn term<M: Measure>(self, measure: &M, height: i64, q: Position) -> i64
        requires height { Height height }
        requires housed { AllInPlane self.a self.b self.c q }
        ensures value { result ≡ (M.heights measure.now self.a -ℤ height) *ℤ turn q self.b self.c }
        ensures bound { Size result 288230376151711744 }
    {
        product(rise(measure, self.a, height), turn(q, self.b, self.c))
    }

    // K of q in its ring: a term for each corner.
    fn ring_number<M: Measure>(self, measure: &M, q: Position) -> i64
        requires { AllInPlane self.a self.b self.c q }
        ensures { result ≡ K (M.heights measure.now) self.a self.b self.c q }
    {
        let height = measure.height(q);
        let second = self.turned();
        let third = second.turned();
        let at_a = self.term(measure, height, q);
        let at_b = second.term(measure, height, q);
        let at_c = third.term(measure, height, q);
        sum(sum(at_a, at_b), at_c)
    }

    // K of q in its ring, where all four positions lie in the plane: positive inside the ring, 0 on it. Every measure's rings
    // hold what their masters turn left around. Inline, since a call would pass the triangle through memory.
    #[inline(always)]
    pub fn ring<M: Measure>(self, measure: &M, q: Position) -> Option<i64>
        ensures value { MatchOption result (AllInPlane self.a self.b self.c q → ⊥)
            (λ k. AllInPlane self.a self.b self.c q × (k ≡ K (M.heights measure.now) self.a self.b self.c q)) }
        ensures around { HoldsAround (M.heights measure.now) }
    {
        if self.all_in_plane(q) {
            Some(self.ring_number(measure, q))
        } else {
            None
        }
    }
}
