//! The blend of three numbers.
ghost use Rattle.std.specs.Prelude.{◌≡◌, ◌*◌, ◌<◌, ◌≤◌, get_or, pos, ◌+ℤ◌, ◌*ℤ◌, ◌<ℤ◌};
ghost use Rattle.std.specs.Int.{int_div_euclid};
ghost use Rattle.plane.specs.Plane.{Size};
ghost use Rattle.figures.specs.Blends.{Small, weighted_sum, blended_number};

use crate::mix::Mix;

// A number times a weight, below 2^40.
fn product(weight: u32, number: i64) -> i64
    requires weight { weight ≤ 16777216 }
    requires number { Size number 65535 }
    ensures value { result ≡ pos weight *ℤ number }
    ensures bound { Size result 1099511627776 }
{
    i64::from(weight) * number
}

// The quotient, rounded down.
fn floor_quotient(z: i64, divisor: i64) -> i64
    requires { pos 0 <ℤ divisor }
    ensures { result ≡ int_div_euclid z divisor }
{
    z.div_euclid(divisor)
}

impl Mix {
    // The sum of three numbers by their weights, below 2^42.
    fn weighted_sum(&self, numbers: [i64; 3]) -> i64
        requires { Small numbers }
        ensures value { result ≡ weighted_sum self.now (λ i. get_or numbers i (pos 0)) }
        ensures bound { Size result 4398046511104 }
    {
        let mut sum = 0;
        for (i, weight) in self.weights.iter().enumerate() {
            sum += product(*weight, numbers[i]);
        }
        sum
    }

    // Twice the total.
    fn doubled(&self) -> i64
        ensures { result ≡ pos (2 * self.now.total) }
    {
        2 * i64::from(self.total)
    }

    // Twice a sum, with the total added: divided by twice the total, it is the mean and a half.
    fn raised(&self, sum: i64) -> i64
        requires { Size sum 4398046511104 }
        ensures { result ≡ pos 2 *ℤ sum +ℤ pos self.now.total }
    {
        2 * sum + i64::from(self.total)
    }

    // The blend of three numbers, one for each master.
    pub(crate) fn blended(&self, numbers: [i64; 3]) -> i64
        requires { Small numbers }
        ensures { result ≡ blended_number self.now (λ i. get_or numbers i (pos 0)) }
    {
        let sum = self.weighted_sum(numbers);
        floor_quotient(self.raised(sum), self.doubled())
    }
}
