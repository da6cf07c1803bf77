//! Making a weighted measure, and its heights.
ghost use Rattle.std.specs.Prelude.{◌≡◌, ◌*◌, ◌≤◌, pos, ◌*ℤ◌, IfOk, int_lt};
ghost use Rattle.plane.specs.Plane.{InPlane, Size};
ghost use Rattle.plane.specs.Refusal.{refused, first};
ghost use Rattle.plane.specs.Weighted.{keeps_rule, measure_refusal, weighted_rows, form, weighted_height};
ghost use Rattle.plane.specs.WeightedHeights.{rule, weighted_bounded, weighted_supported};

use crate::exact::{product, sum};
use crate::measure::{Measure, MeasureFault};
use crate::position::Position;
use crate::weighted::Weighted;

// Whether C·C is less than A·B, for small numbers.
fn dominates(a: i64, b: i64, c: i64) -> bool
    requires a { Size a 64 }
    requires b { Size b 64 }
    requires c { Size c 64 }
    ensures { result ≡ int_lt (c *ℤ c) (a *ℤ b) }
{
    product(c, c) < product(a, b)
}

// Whether three numbers, which are no measure yet, keep the rule of a weighted one.
fn is_lawful(a: i64, b: i64, c: i64) -> bool
    ensures { result ≡ keeps_rule a b c }
{
    (1..=64).contains(&a) && (1..=64).contains(&b) && (-63..=63).contains(&c) && dominates(a, b, c)
}

impl Weighted {
    // The measure with the numbers A, B and C, where they keep the rule.
    pub fn new(a: i32, b: i32, c: i32) -> Result<Weighted, MeasureFault>
        ensures holds { IfOk result (λ w. (w.a ≡ a) × (w.b ≡ b) × (w.c ≡ c)) }
        ensures refuses { refused measure_refusal result ≡ first (weighted_rows a b c) }
    {
        let a = i64::from(a);
        let b = i64::from(b);
        let c = i64::from(c);
        if !is_lawful(a, b, c) {
            return Err(MeasureFault::Weights);
        }
        Ok(Weighted { a, b, c })
    }
}

// A factor times the product of two coordinates of the plane.
fn part(factor: i64, x: u16, y: u16) -> i64
    requires factor { Size factor 64 }
    requires x { x ≤ 4096 }
    requires y { y ≤ 4096 }
    ensures value { result ≡ factor *ℤ pos (x * y) }
    ensures bound { Size result 1073741824 }
{
    product(factor, i64::from(u32::from(x) * u32::from(y)))
}

impl Weighted {
    // The form A·u² + B·v² + 2C·u·v at a position of the plane.
    fn form(&self, p: Position) -> i64
        requires { InPlane p }
        ensures { result ≡ form self.now.a self.now.b self.now.c (pos p.u) (pos p.v) }
    {
        let squares = sum(part(self.a, p.u, p.u), part(self.b, p.v, p.v));
        let mixed = part(self.c, p.u, p.v);
        sum(squares, sum(mixed, mixed))
    }
}

impl Measure for Weighted {
    ghost heights = { λ w. weighted_height w.a w.b w.c };

    ghost bounded = { λ m. weighted_bounded (rule m.a m.b m.c m.rule) };

    ghost supported = { λ m. weighted_supported (rule m.a m.b m.c m.rule) };

    fn height(&self, p: Position) -> i64 {
        if p.in_plane() { self.form(p) } else { 0 }
    }
}
