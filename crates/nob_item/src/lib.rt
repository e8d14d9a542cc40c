//! Items: what two spaces send each other, and their one spelling in bytes.
#![tactic(auto)]

mod counted;
mod fault;
mod item;
pub mod laws;
mod limits;
mod reading;
mod writing;

pub use counted::{counted_ref, counted_refs};
pub use fault::{ItemError, ItemFault};
pub use item::Item;
pub use nob_pickle::Value;
pub use reading::decode;
pub use writing::{encode, encode_call, encode_reply};
