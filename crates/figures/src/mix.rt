//! The answer to a question.
ghost use Rattle.std.specs.Prelude.{◌≡◌, ℕ, ◌<◌, ◌≤◌, slice_index};
ghost use Rattle.figures.specs.Weights.{sum};

// Three masters and their weights at a position, as whole numbers that sum to the total.
#[derive(Clone, Copy, Debug)]
pub struct Mix {
    pub(crate) masters: [u8; 3],
    pub(crate) weights: [u32; 3],
    pub(crate) total: u32,
    // how many masters the family has
    pub(crate) count: u8,
    ghost known: { (i : ℕ) → i < 3 → slice_index masters i < count },
    ghost summed: { total ≡ sum weights },
    ghost some: { 0 < total },
    ghost most: { total ≤ 16777216 },
}
