//! The laws of the tree: what placing does entry by entry, that it keeps the tree sound, and what follows of owners, spreads, rings and the walk.
#![tactic(auto)]

mod laws;

pub use laws::{family_laws, placing_laws};
