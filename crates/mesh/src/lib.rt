//! The Delaunay tree of a family: every triangle ever made, with its fathers, sons, neighbours and killers.
#![tactic(auto)]

mod beginning;
mod changing;
mod edge;
mod fault;
mod gathering;
mod growing;
mod hole;
mod in_use;
mod killing;
mod node;
mod placing;
mod reading;
mod tables;
mod vertices;

pub use fault::{NodeFault, PlaceFault};
pub use node::Node;
pub use tables::Tables;
