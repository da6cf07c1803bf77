//! Figures: what a glyph has for each master, and how figures are blended.
#![tactic(auto)]

mod advance;
mod blending;
mod fault;
mod figure;
mod head;
mod mix;
mod mixing;
mod pair;
mod reading;
mod rounding;

pub use advance::Advance;
pub use blending::blend;
pub use fault::BlendFault;
pub use figure::Figure;
pub use head::Head;
pub use mix::Mix;
pub use pair::Pair;
pub use reading::word_at;
