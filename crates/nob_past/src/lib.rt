//! A list of which only the last part has bytes, while contracts see all of it.
#![tactic(auto)]

mod past;

pub use past::Past;
