//! Objects that run, and the agent of a node: a table from names to references.
#![tactic(auto)]

mod agent;
mod names;
mod object;
mod shelf;

pub use agent::Agent;
pub use names::{LONGEST_NAME, MOST_NAMES, Name, NameTable, NamesError, is_name};
pub use object::{Done, Object, Outcome};
pub use shelf::Held;
