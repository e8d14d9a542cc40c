//! Spaces and the frames between them: each step of a world is an event at one space, or the
//! arrival of a frame that was transmitted before.
#![tactic(auto)]

mod error;
mod making;
mod world;

pub use error::WorldError;
pub use world::World;
