//! Rows by reference, in a tree over the bits of the reference.
#![tactic(auto)]

mod change;
mod node;
mod place;
mod rows;
mod write;

pub use rows::Rows;
