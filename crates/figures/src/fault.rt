//! Why figures are not blended.
ghost use Rattle.figures.specs.Blends.{blend_refusal};

use plane::Fault;

#[derive(Clone, Copy, PartialEq, Eq, Debug)]
pub enum BlendFault {
    // there are not as many figures as the family has masters
    Figures,
}

impl Fault for BlendFault {
    ghost refusal = { blend_refusal };

    fn number(self) -> u8 {
        match self {
            BlendFault::Figures => 16,
        }
    }
}
