//! The agents of a node: they carry frames between the links and the keeper of a space.
#![tactic(auto)]

mod calls;
mod carer;
mod due_event;
mod parcels;
mod passing;
mod prober;
mod sender;
mod taker;
mod timing;
mod turn;
mod way;

pub use calls::Calls;
pub use carer::Carer;
pub use due_event::DueEvent;
pub use nob_keeper::{Dues, Keeper, KeeperError, Seat, lock_soon};
pub use parcels::{PutParcel, TakeParcel};
pub use prober::{Prober, Tallies};
pub use sender::Sender;
pub use taker::Taker;
pub use turn::Turn;
pub use way::{PutStep, Way};
