//! Making a mix, and what it answers.
ghost use Rattle.std.specs.Prelude.{◌≡◌, ℕ, ◌<◌, ◌≤◌, [], ◌∷◌, map, pos, Decides, MatchOption, slice_index};
ghost use Rattle.plane.specs.Plane.{turn, Owns};
ghost use Rattle.plane.specs.Rings.{AllInPlane};
ghost use Rattle.figures.specs.Mixes.{Owner, MixAt};
ghost use Rattle.figures.specs.Weights.{Share, sum};

use crate::mix::Mix;
use plane::{Position, Triangle};

// Whether three masters are among those of a family of `count`. Both are a mix's fields once this is known.
fn are_known(masters: [u8; 3], count: u8) -> bool
    ensures { Decides result ((i : ℕ) → i < 3 → slice_index masters i < count) }
{
    masters.iter().all(|&master| master < count)
}

// Whether three masters of a family of `count` stand at the triangle's positions, and it owns q.
fn is_owner(q: Position, triangle: Triangle, masters: [u8; 3], count: u8) -> bool
    ensures { Decides result (Owner q triangle.a triangle.b triangle.c masters count) }
{
    triangle.all_in_plane(q) && triangle.owns(q) && are_known(masters, count)
}

// A weight of an owner.
fn weight(turn: i64) -> u32
    requires { Share turn }
    ensures { pos result ≡ turn }
{
    turn as u32
}

// The weights of q in a triangle that owns it.
fn owner_weights(q: Position, triangle: Triangle) -> [u32; 3]
    requires housed { AllInPlane triangle.a triangle.b triangle.c q }
    requires owned { Owns triangle.a triangle.b triangle.c q }
    ensures weighed { map pos result
        ≡ turn q triangle.b triangle.c ∷ turn q triangle.c triangle.a ∷ turn q triangle.a triangle.b ∷ [] }
    ensures summed { pos (sum result) ≡ turn triangle.a triangle.b triangle.c }
    ensures some { 0 < sum result }
    ensures most { sum result ≤ 16777216 }
{
    triangle.weights(q).map(weight)
}

impl Mix {
    // The mix at q of three masters that stand at the triangle's positions, where it owns q.
    pub fn of_owner(q: Position, triangle: Triangle, masters: [u8; 3], count: u8) -> Option<Mix>
        ensures { let owner = Owner q triangle.a triangle.b triangle.c masters count in
            MatchOption result (owner → ⊥)
            (λ m. owner × MixAt q triangle.a triangle.b triangle.c masters count m) }
    {
        if !is_owner(q, triangle, masters, count) {
            return None;
        }
        let weights = owner_weights(q, triangle);
        let total = weights.iter().sum();
        Some(Mix {
            masters,
            weights,
            total,
            count,
        })
    }

    // The numbers of the three masters.
    pub fn masters(&self) -> [u8; 3]
        ensures { result ≡ self.now.masters }
    {
        self.masters
    }

    // Their weights, in the same order.
    pub fn weights(&self) -> [u32; 3]
        ensures { result ≡ self.now.weights }
    {
        self.weights
    }

    // The sum of the weights.
    pub fn total(&self) -> u32
        ensures { result ≡ self.now.total }
    {
        self.total
    }

    // How many masters the family has.
    pub fn count(&self) -> u8
        ensures { result ≡ self.now.count }
    {
        self.count
    }
}
