//! Blending the figures of a row.
ghost use Rattle.std.specs.Prelude.{◌≡◌, ℕ, ◌<◌, length, IfOk, slice_index_or};
ghost use Rattle.plane.specs.Refusal.{refused, first};
ghost use Rattle.figures.specs.Blends.{IsBlend, LiesBetween, IsTheOne, IsTheSame, blend_refusal, blend_rows};
ghost use Rattle.figures.specs.Figures.{InRange};

use crate::fault::BlendFault;
use crate::figure::Figure;
use crate::mix::Mix;

// The number of part p that a master has in a row.
fn number_of<F: Figure>(figures: &[F], master: u8, p: usize) -> i64
    requires { master < length figures.now }
    ensures value { (past : F) → result ≡ F.number (slice_index_or figures.now master past) p }
    ensures ranged { InRange F.range result }
{
    figures[usize::from(master)].part(p)
}

// Part p of a blend.
fn blended_part<F: Figure>(figures: &[F], mix: &Mix, p: usize) -> i64
    requires { length figures.now ≡ mix.now.count }
    ensures value { IsBlend (λ f. F.number f p) figures.now mix.now result }
    ensures ranged { InRange F.range result }
{
    let numbers = mix.masters.map(|master| number_of(figures, master, p));
    mix.blended(numbers)
}

// The blend of a row of figures, one for each master of the family, by a mix.
pub fn blend<F: Figure>(figures: &[F], mix: &Mix) -> Result<F::Blend, BlendFault>
    ensures refuses { refused blend_refusal result ≡ first (blend_rows (length figures.now) mix.now.count) }
    ensures blends { IfOk result (λ b. (p : ℕ) → p < F.parts → IsBlend (λ f. F.number f p) figures.now mix.now (F.yielded b p)) }
    ensures between { IfOk result (λ b. (p : ℕ) → p < F.parts → LiesBetween (λ f. F.number f p) figures.now mix.now (F.yielded b p)) }
    ensures whole { IfOk result (λ b. (p : ℕ) → p < F.parts → IsTheOne (λ f. F.number f p) figures.now mix.now (F.yielded b p)) }
    ensures equal { IfOk result (λ b. (p : ℕ) → p < F.parts → IsTheSame (λ f. F.number f p) figures.now mix.now (F.yielded b p)) }
{
    if figures.len() != usize::from(mix.count) {
        return Err(BlendFault::Figures);
    }
    // the two parts that a kind can have, in two calls: the proof over [0, 1].map(..) did not close
    let first = blended_part(figures, mix, 0);
    let second = blended_part(figures, mix, 1);
    Ok(F::blend_of([first, second]))
}
