//! Job numbers: right answers differ in them alone where two lists differ in how many jobs were
//! claimed. There is no code here: the definitions are in `specs/`, the law in [`laws`].
#![tactic(auto)]

pub mod laws;
