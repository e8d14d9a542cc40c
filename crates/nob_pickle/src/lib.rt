//! Values as bytes: the pickles that calls and replies carry. Each value has one spelling.
#![tactic(auto)]

mod fault;
mod judging;
pub mod laws;
mod limits;
mod looking;
mod reading;
mod value;
mod walking;
mod writing;

pub use fault::{PickleError, PickleFault};
pub use judging::fits;
pub use looking::counted_ref;
pub use nob_bytes::Bytes;
pub use reading::decode;
pub use value::{Value, Values};
pub use walking::refs_of;
pub use writing::encode;
