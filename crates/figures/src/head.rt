//! What heads a row of figures.
ghost use Rattle.std.specs.Prelude.{◌≡◌};
ghost use Rattle.figures.specs.Figures.{glyphs};

// What heads the rows of a kind: one glyph's number, or a pair's two.
#[derive(Clone, Copy, PartialEq, Eq, Debug)]
pub enum Head {
    Glyph,
    Pair,
}

impl Head {
    // How many glyph numbers these are.
    pub fn glyphs(self) -> usize
        ensures { result ≡ glyphs self }
    {
        match self {
            Head::Glyph => 1,
            Head::Pair => 2,
        }
    }
}
