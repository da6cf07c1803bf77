//! The window on a checked sheet.
ghost use Rattle.sheet.specs.Layout.{KeepsLayout};

// A window on the caller's bytes, which keep the layout. It copies nothing.
#[derive(Clone, Copy)]
pub struct Sheet<'a> {
    pub(crate) bytes: &'a [u8],
    ghost lawful: { ∥ KeepsLayout bytes.now ∥₁ },
}
