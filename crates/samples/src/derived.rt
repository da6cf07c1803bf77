//! The examples that are derived from the definitions.
ghost use Rattle.std.specs.Prelude.{◌≡◌, true, length};
ghost use Rattle.samples.specs.Sample.{all, examples};

// How many examples there are. Its contract is that each of them holds.
pub fn examples_derived() -> usize
    ensures count { result ≡ length examples }
    ensures hold { all examples ≡ true }
{
    13
}
