//! Sheets: the byte format in which a type family is delivered.
#![tactic(auto)]

mod checking;
mod fault;
mod header;
mod heading;
mod methods;
mod section;
mod taking;
mod window;

pub use fault::{Boundary, RecordFault, RowFault, SheetFault};
pub use heading::Heading;
pub use section::Section;
pub use window::Sheet;
