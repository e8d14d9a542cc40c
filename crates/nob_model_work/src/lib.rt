//! The work that one space has outstanding, read off the list of what it did, the newest first:
//! messages that wait for their references, jobs that are ready or running, replies that are ready,
//! calls that aren't taken; and what each deed gave to the peers. In `specs/` are the definitions;
//! the functions here compute them plainly and slowly.
#![tactic(auto)]

pub mod gifts;
pub mod work;

pub use gifts::{Gift, Past};
pub use work::{Outstanding, OwnCall, Run, Stage};
