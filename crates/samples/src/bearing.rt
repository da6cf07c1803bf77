//! A third kind of figure: one signed number. It shows that a kind is one `impl`, with no new proof about rows or blends.
ghost use Rattle.figures.specs.Bytes.{signed_word};
ghost use Rattle.figures.specs.Figures.{pair_range};
ghost use Rattle.figures.specs.declared.head.Head.TheVariants.{Glyph};
ghost use Rattle.std.proofs.Common.{rules};

use figures::{Figure, Head, Pair};

// How far a glyph stands from its origin.
#[derive(Clone, Copy, PartialEq, Eq, Debug)]
pub struct Bearing {
    pub value: i16,
}

impl Figure for Bearing {
    const BYTES: usize = 2;

    const HEAD: Head = Head::Glyph;

    type Blend = Bearing;

    ghost BYTES = { 2 };

    ghost HEAD = { Glyph };

    ghost parts = { 1 };

    ghost number = { λ f p. f.value };

    ghost meant = { λ b p. signed_word b 0 };

    ghost yielded = { λ f p. f.value };

    ghost range = { pair_range };

    ghost shape = { Prim.search rules };

    ghost narrow = { Prim.search rules };

    fn unpack(packed: &[u8]) -> Bearing {
        let pair = Pair::unpack(packed);
        Bearing { value: pair.along }
    }

    fn part(&self, p: usize) -> i64 {
        i64::from(self.value)
    }

    fn blend_of(numbers: [i64; 2]) -> Bearing {
        let pair = Pair::blend_of(numbers);
        Bearing { value: pair.along }
    }
}
