//! A node: a space for an application, with the threads that carry its frames and run its objects.
#![tactic(auto)]

mod app;
mod error;
mod hold;
mod leftovers;
mod node;
mod running;

pub use app::App;
pub use error::NodeError;
pub use hold::{Hold, Returned};
pub use nob_keeper::{Backlog, Keep, KeeperError, PeerTally, Record, Summary, Tally};
pub use nob_node_site::{Config, Ends, Gate, LeftObject, OpenGate};
pub use node::Node;
pub use running::{Report, run};
