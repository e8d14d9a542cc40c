//! What the threads of a node share, what each has of its own, and what each does.
#![tactic(auto)]

mod config;
mod crew;
mod making;
mod probing;
mod site;
mod threads;

pub use config::{Config, Ends};
pub use crew::{Crew, run_crew};
pub use making::site_of;
pub use nob_node_parts::{
    Calls, Desk, Errand, Gate, Hand, Inbox, JobCalls, Kept, LeftObject, NodeJobs, OpenGate, Outbox,
    Place, Placed, Pulse, Remaining, Return, Shelf,
};
pub use probing::Probing;
pub use site::{Site, SiteParts};
