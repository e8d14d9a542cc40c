//! The checker of chains: whether the chains of several spaces, each as the trace that it is, are
//! together a run of a world, and each seal says what the space says of itself behind the entries
//! up to it. Of what it accepts it is proved that the verdict is yes.
#![tactic(auto)]

mod checking;
mod joining;
mod running;
mod sealing;

pub use checking::{check, first_wrong_chain};
pub use joining::all_joined;
pub use nob_check::{Merged, first_fault};
pub use nob_model_chains::{SetError, SetFault};
