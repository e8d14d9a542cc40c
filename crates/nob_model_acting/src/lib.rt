//! What a space may send and what it acts on, after each list of what it did: the faults of an item
//! that arrived and what keeps it in the inbox, what refuses a send, and what stands next to be
//! settled, given up and carried out. In `specs/` are the definitions; the functions here compute
//! them plainly and slowly.
#![tactic(auto)]

pub mod acting;
pub mod candidates;
pub mod sending;
