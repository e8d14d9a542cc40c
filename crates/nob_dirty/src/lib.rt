//! The dirty sets of one space: which clients are listed at which of its objects. A client is
//! listed at an index from its Dirty on to its Clean or the close of its session. An object that no
//! client is listed at may be withdrawn. The sets know no sessions and take no items: the space
//! above says what happened.
#![tactic(auto)]

mod rows;
mod sets;

pub use sets::{DirtySets, Listing};
