//! What heads a row.

// The glyph numbers at the head of a row: of a glyph with its advances, or of a pair.
#[derive(Clone, Copy, PartialEq, Eq, Debug)]
pub enum Heading {
    Glyph(u16),
    Pair(u16, u16),
}
