//! Worlds whose spaces die and come back under their numbers, and that each is a run of a world
//! whose spaces never died. There is no code here: the definitions are in `specs/`, the laws in
//! [`laws`].
#![tactic(auto)]

pub mod laws;
