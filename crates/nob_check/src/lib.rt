//! The judge of a journal: whether all holds that the runtime promises of all spaces together, or
//! what fails first. It passes the entries once, the first first, and keeps a ledger for each
//! space: no entry is read again for a later one. And the checker of traces: whether the traces of
//! several spaces are together a run of a world. Of what it accepts it is proved that the verdict is
//! yes.
#![tactic(auto)]

mod books;
mod checking;
mod fronts;
mod judging;
mod losses;
mod mark;
mod merged;
mod origins;
mod running;
mod set;
mod withdraws;

pub use checking::check;
pub use judging::judge;
pub use merged::Merged;
pub use nob_model_journal::{Promise, Verdict};
pub use nob_model_traces::{CheckError, CheckFault};
pub use nob_space::Space;
pub use origins::first_fault;
pub use running::answers;
