//! For each birth in range there are right entries after which a space is born so. There is no code
//! here: the statement is in `specs/`, the law in [`laws`].
#![tactic(auto)]

pub mod laws;
