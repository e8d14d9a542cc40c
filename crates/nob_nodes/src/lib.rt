//! Any number of nodes in threads of one program, joined by links: what programs with nodes stand
//! on.
#![tactic(auto)]

mod beside;
mod holds;
mod launch;
mod layout;
mod meeting;
mod nodes;
mod player;
mod running;
mod sides;
mod two;

pub use beside::{Beside, Nobody};
pub use holds::{answer_to, give_back, give_back_all, look_up, offer, retire};
pub use layout::Layout;
pub use meeting::{Company, Meeting};
pub use nob_node::{
    Gate, Hold, Keep, KeeperError, LeftObject, Node, NodeError, OpenGate, PeerTally, Record,
    Report, Returned, Summary,
};
pub use nodes::Nodes;
pub use player::{Played, Player};
pub use running::run_nodes;
pub use sides::partner_of;
pub use two::{run_two, run_two_keeping};
