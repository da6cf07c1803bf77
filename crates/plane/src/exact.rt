//! Products, sums and differences of 64-bit numbers that are known to fit, each with a bound on its size.
ghost use Rattle.std.specs.Prelude.{◌≡◌, ℕ, ◌+◌, ◌*◌, ◌^◌, ◌<◌, ◌+ℤ◌, ◌-ℤ◌, ◌*ℤ◌, unsigned_abs};
ghost use Rattle.plane.specs.Plane.{Size};

pub(crate) fn product(x: i64, y: i64) -> i64
    requires { unsigned_abs x * unsigned_abs y < 2 ^ 62 }
    ensures value { result ≡ x *ℤ y }
    ensures bound { (m n : ℕ) → Size x m → Size y n → Size result (m * n) }
{
    x * y
}

pub(crate) fn sum(x: i64, y: i64) -> i64
    requires { unsigned_abs x + unsigned_abs y < 2 ^ 62 }
    ensures value { result ≡ x +ℤ y }
    ensures bound { (m n : ℕ) → Size x m → Size y n → Size result (m + n) }
{
    x + y
}

pub(crate) fn difference(x: i64, y: i64) -> i64
    requires { unsigned_abs x + unsigned_abs y < 2 ^ 62 }
    ensures value { result ≡ x -ℤ y }
    ensures bound { (m n : ℕ) → Size x m → Size y n → Size result (m + n) }
{
    x - y
}
