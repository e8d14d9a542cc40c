//! The traces of several spaces as one journal: which of them belong together, what is wrong with
//! them, and their entries in order of stamp. In `specs/` are the definitions; the functions here
//! compute them plainly. What runs a trace again, and looks for origins, is slow on purpose.
#![tactic(auto)]

mod checking;
mod fault;
pub mod laws;
mod lowest;
mod merging;
mod moment;
pub mod origins;
mod running;
mod set;

pub use checking::check_plainly;
pub use fault::{CheckError, CheckFault, WrongEntry};
pub use lowest::lower_of;
pub use merging::{copy_entry, merge};
pub use moment::Moment;
pub use running::first_wrong;
pub use set::are_one_each;
