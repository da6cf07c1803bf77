//! Calls of a family as values, and their answers.
use crate::fault::CallFault;
use figures::Mix;
use plane::Position;

// A call of a family.
#[derive(Clone, Copy)]
pub enum Call<'a> {
    Release,
    Reopen,
    Place(Position),
    // the bytes of a sheet, which the call checks
    Load(&'a [u8]),
    Ask(Position),
}

// What a call gives.
#[derive(Clone, Copy)]
pub enum Reply {
    // a release, a reopening, or an accepted load
    Done,
    // the number of the new master
    Placed(u8),
    Mixed(Mix),
}

// What a call answers.
pub type Answer = Result<Reply, CallFault>;
