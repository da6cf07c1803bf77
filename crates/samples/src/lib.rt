//! Executed examples: tables of cases, each with the answer that the documents give it.
#![tactic(auto)]

mod bearing;
#[cfg(test)]
mod blends;
mod derived;
#[cfg(test)]
mod geometry;
mod grained;
#[cfg(test)]
mod rows;
#[cfg(test)]
mod sheets;
#[cfg(test)]
mod trees;

pub use derived::examples_derived;
