//! A family at some moment.
use crate::staged::{Draft, Face};

// A draft or a face.
#[derive(Drop)]
pub enum Family<M> {
    Open(Draft<M>),
    Shut(Face<M>),
}
