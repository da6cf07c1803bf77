//! The theorems, each on the contract of a function, so that a check asks for its proof.
ghost use Rattle.std.specs.Prelude.{◌≡◌, ◌<◌, length};
ghost use Rattle.mesh_laws.specs.Laws.{Laws, PlacingLaws, Placeable, sample};

// How many masters the sample family has placed, for which no premise of the laws is empty.
pub fn family_laws() -> usize
    ensures count { result ≡ length sample }
    ensures placeable { Placeable sample }
    ensures hold { Laws }
{
    2
}

// What placing makes of every tree, entry by entry.
pub fn placing_laws() -> usize
    ensures { PlacingLaws }
{
    0
}
