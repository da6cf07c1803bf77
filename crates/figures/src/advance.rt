//! Advances: how far a glyph moves the pen, one number for each master.
ghost use Rattle.std.specs.Prelude.{pos};
ghost use Rattle.figures.specs.Bytes.{word};
ghost use Rattle.figures.specs.Figures.{advance_range};
ghost use Rattle.figures.specs.declared.head.Head.TheVariants.{Glyph};
ghost use Rattle.std.proofs.Common.{rules};

use crate::figure::Figure;
use crate::head::Head;
use crate::reading::word_at;

#[derive(Clone, Copy, PartialEq, Eq, Debug)]
pub struct Advance {
    pub value: u16,
}

impl Figure for Advance {
    const BYTES: usize = 2;

    const HEAD: Head = Head::Glyph;

    type Blend = Advance;

    ghost BYTES = { 2 };

    ghost HEAD = { Glyph };

    ghost parts = { 1 };

    ghost number = { λ f p. pos f.value };

    ghost meant = { λ b p. pos (word b 0) };

    ghost yielded = { λ f p. pos f.value };

    ghost range = { advance_range };

    ghost shape = { Prim.search rules };

    ghost narrow = { Prim.search rules };

    fn unpack(packed: &[u8]) -> Advance {
        Advance {
            value: word_at(packed, 0),
        }
    }

    fn part(&self, _p: usize) -> i64 {
        i64::from(self.value)
    }

    fn blend_of(numbers: [i64; 2]) -> Advance {
        let [value, _] = numbers;
        Advance {
            value: value.clamp(0, 65535) as u16,
        }
    }
}
