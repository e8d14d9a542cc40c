//! What an object table keeps: the counts of a reference and how it stands, and the objects of
//! the space.
#![tactic(auto)]

mod counts;
mod fault;
mod object;
mod objects;
mod slots;
mod standing;

pub use counts::{Counts, Part};
pub use fault::{TableError, TableFault};
pub use object::Object;
pub use objects::Objects;
pub use slots::Slots;
pub use standing::{Grant, Standing, State, Surrogate};
