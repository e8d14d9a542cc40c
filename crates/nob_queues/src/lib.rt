//! Items that stand in one slab, in a few queues: each is in one queue at a time, under a number that
//! rises there, and goes from a queue to another without moving.
#![tactic(auto)]

mod queues;

pub use queues::{QUEUES, Queues};
