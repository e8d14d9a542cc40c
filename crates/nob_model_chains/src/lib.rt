//! The chains of several spaces, each as the trace that it is, and its seals: which of them belong
//! together, and what is wrong with them. In `specs/` are the definitions; the functions here
//! compute them plainly. What runs a chain again, and looks at its seals, is slow on purpose.
#![tactic(auto)]

mod checking;
mod fault;
mod joining;
mod lowest;
mod sealing;
mod set;

pub use checking::check_plainly;
pub use fault::{SetError, SetFault, WrongChain, WrongPart};
pub use lowest::{fault_of, lower_of};
pub use sealing::same_ending;
pub use set::are_one_each;
