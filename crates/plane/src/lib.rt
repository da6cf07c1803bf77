//! The plane of a type family: positions, the exact geometry of masters, and measures.
#![tactic(auto)]

mod exact;
mod fault;
mod measure;
mod optical;
mod optical_table;
mod orientation;
mod ownership;
mod position;
mod ring_test;
mod triangle;
mod weighing;
mod weighted;

pub use fault::Fault;
pub use measure::{Measure, MeasureFault};
pub use optical::Optical;
pub use orientation::turn;
pub use ownership::crossing;
pub use position::Position;
pub use triangle::Triangle;
pub use weighted::Weighted;
