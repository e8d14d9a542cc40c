//! What the threads of a node share, part by part, each a small machine: how it starts and fails, what
//! transmits, what collects, what comes over the links, who waits for replies, the objects and their
//! jobs, and how threads without work wait.
#![tactic(auto)]

mod collecting;
mod failure;
mod idlers;
mod inbox;
mod inboxes;
mod jobs;
mod lookout;
mod object;
mod outbox;
mod pace;
mod patience;
mod putting;
mod replies;
mod search;
mod start;
mod transmitting;

pub use collecting::{Collecting, Collects};
pub use failure::Failure;
pub use idlers::Idlers;
pub use inbox::Inbox;
pub use inboxes::Inboxes;
pub use jobs::NodeJobs;
pub use lookout::Lookout;
pub use nob_agents::{
    Calls, Carer, Keeper, KeeperError, Prober, Sender, Taker, Turn, Way, lock_soon,
};
pub use nob_dispatch::{
    Desk, Errand, Gate, Hand, JobCalls, OpenGate, Place, Remaining, Return, Shelf, carry_out, serve,
};
pub use object::{Kept, LeftObject};
pub use outbox::{Outbox, Pulse};
pub use pace::Pace;
pub use patience::{Patience, Wariness};
pub use putting::Placed;
pub use replies::{Coming, Replies, coming_by, has_accepted};
pub use search::{LookStep, Manner, Search};
pub use start::Start;
pub use transmitting::{Sleep, Transmitting};
