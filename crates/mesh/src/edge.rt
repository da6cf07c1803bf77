//! Edges of the hole that a new master makes.

// An edge of the hole: the killed node and its edge, the masters between which it runs, and the node across.
#[derive(Clone, Copy, Default)]
pub(crate) struct Edge {
    pub(crate) father: u16,
    pub(crate) side: u8,
    pub(crate) from: u8,
    pub(crate) to: u8,
    pub(crate) beyond: Option<u16>,
}
