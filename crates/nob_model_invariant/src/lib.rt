//! What is true of every run of a world: the invariant of all spaces together, and what it comes to.
//! No object goes too early, what comes next can always be acted on, nothing is lost without a cause
//! and no object leaks; and a run reads the same whoever counts more spaces than there are. The
//! definitions of runs and promises stand in the crates below; here are the statements and their
//! proofs.
#![tactic(auto)]

pub mod alike;
pub mod arrivals;
pub mod laws;
pub mod losses;
pub mod safety;
