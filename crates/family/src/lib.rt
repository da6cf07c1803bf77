//! A type family: drafts that take masters, faces that answer questions.
#![tactic(auto)]

mod call;
mod drafting;
mod facing;
mod family;
mod fault;
mod finding;
mod loading;
mod performing;
mod running;
mod staged;

pub use call::{Answer, Call, Reply};
pub use family::Family;
pub use fault::{CallFault, LoadFault, QuestionFault, RefusedRecord};
pub use staged::{Draft, Face, ForMasters, ForQuestions, Staged};
