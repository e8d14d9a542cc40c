//! A space and its trace under one lock, with receipts for those who ask.
#![tactic(auto)]

mod desk;
mod held;
mod keeper;
mod locking;
mod waking;

pub use held::{Chores, Dues, Look, Wake};
pub use keeper::Keeper;
pub use locking::lock_soon;
pub use nob_kept::{
    AnswerKind, Backlog, CallAnswer, CloseAnswer, DoneAnswer, Due, ExportAnswer, Identity, Keep,
    KeeperError, Kept, OpenAnswer, PeerTally, Receipt, Record, Seat, Space, Summary, Tally,
    WithdrawAnswer,
};
pub use waking::{Prospects, Wakes, is_new, wakes_of};
