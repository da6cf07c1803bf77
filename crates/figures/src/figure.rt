//! Kinds of figures.
ghost use Rattle.std.specs.Prelude.{◌≡◌, ℕ, ◌<◌, List, ℤ, pos, slice_index_or};
ghost use Rattle.figures.specs.declared.head.Head.{Head};
ghost use Rattle.figures.specs.Figures.{Range, InRange, Narrow, Shape};

use crate::head::Head;

// A kind of figure: one or two numbers for each master. The ghost members say what its bytes mean and which numbers it has.
pub trait Figure: Copy {
    // the bytes of one figure
    const BYTES: usize;
    // the glyph numbers that head a row
    const HEAD: Head;
    // what a blend yields
    type Blend;

    ghost BYTES: { ℕ };

    ghost HEAD: { Head };
    // how many numbers a figure has
    ghost parts: { ℕ };
    // its number of each part, from 0
    ghost number: { Self → ℕ → ℤ };
    // the number of each part that a figure's bytes mean
    ghost meant: { List ℕ → ℕ → ℤ };
    // the number of each part of a blend
    ghost yielded: { Self.Blend → ℕ → ℤ };
    // the least and the greatest number
    ghost range: { Range };

    // The figure that the bytes begin with; bytes that are not there count as 0.
    fn unpack(packed: &[u8]) -> Self
        ensures { (p : ℕ) → number result p ≡ meant packed.now p };

    // The number of part p: a place from 0 on, and so a number.
    fn part(&self, p: usize) -> i64
        ensures value { result ≡ number self.now p }
        ensures ranged { InRange range result };

    // The blend with these numbers, one for each part. Nothing is said of a number that is out of range.
    fn blend_of(numbers: [i64; 2]) -> Self::Blend
        ensures { (p : ℕ) → p < parts → InRange range (slice_index_or numbers p (pos 0)) → yielded result p ≡ slice_index_or numbers p (pos 0) };

    ghost shape: { Shape BYTES HEAD parts };

    ghost narrow: { Narrow range };
}
