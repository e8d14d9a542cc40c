//! A space with its trace, and the receipts of those who ask it.
#![tactic(auto)]

mod closing;
mod error;
mod identity;
mod keep;
mod kept;
mod kinds;
mod noted;
mod receipt;
mod sealing;
mod seat;
mod summary;
mod trail;

pub use error::KeeperError;
pub use identity::Identity;
pub use keep::Keep;
pub use kept::Kept;
pub use kinds::{
    AnswerKind, CallAnswer, CloseAnswer, DoneAnswer, ExportAnswer, OpenAnswer, WithdrawAnswer,
};
pub use nob_space::{Backlog, Due, Space, Tally, Work};
pub use receipt::Receipt;
pub use seat::Seat;
pub use summary::{PeerTally, Record, Summary};
pub use trail::is_size;
