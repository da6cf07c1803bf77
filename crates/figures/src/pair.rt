//! Pairs: how far the second glyph of two is moved, one number along the line and one across it for each master.
ghost use Rattle.std.specs.Prelude.{◌≡◌};
ghost use Rattle.figures.specs.Bytes.{signed_word};
ghost use Rattle.figures.specs.Figures.{InRange, by_part, pair_range};
ghost use Rattle.figures.specs.declared.head.Head.TheVariants.{Pair};
ghost use Rattle.std.proofs.Common.{rules};

use crate::figure::Figure;
use crate::head::Head;
use crate::reading::signed_word_at;

#[derive(Clone, Copy, PartialEq, Eq, Debug)]
pub struct Pair {
    pub along: i16,
    pub across: i16,
}

// A number in range, as it is.
fn narrowed(number: i64) -> i16
    ensures { InRange pair_range number → result ≡ number }
{
    number.clamp(-32768, 32767) as i16
}

impl Figure for Pair {
    const BYTES: usize = 4;

    const HEAD: Head = Head::Pair;

    type Blend = Pair;

    ghost BYTES = { 4 };

    ghost HEAD = { Pair };

    ghost parts = { 2 };

    ghost number = { λ f p. by_part f.along f.across p };

    ghost meant = { λ b p. by_part (signed_word b 0) (signed_word b 2) p };

    ghost yielded = { λ f p. by_part f.along f.across p };

    ghost range = { pair_range };

    ghost shape = { Prim.search rules };

    ghost narrow = { Prim.search rules };

    fn unpack(packed: &[u8]) -> Pair {
        Pair {
            along: signed_word_at(packed, 0),
            across: signed_word_at(packed, 2),
        }
    }

    fn part(&self, p: usize) -> i64 {
        if p == 0 {
            i64::from(self.along)
        } else {
            i64::from(self.across)
        }
    }

    fn blend_of(numbers: [i64; 2]) -> Pair {
        let [along, across] = numbers;
        Pair {
            along: narrowed(along),
            across: narrowed(across),
        }
    }
}
