//! Why a node doesn't do what it is asked.

use nob_keeper::KeeperError;
use nob_model_types::Refusal;
use thiserror::Error;

/// Why a node doesn't do what it is asked.
#[derive(Clone, Copy, Debug, PartialEq, Eq, Drop, Error)]
pub enum NodeError {
    /// J1: the keeper makes no entry. A thread that can't be made is want of memory.
    #[error("J1: {0}")]
    Keeper(KeeperError),
    /// J2: the space refuses it.
    #[error("J2: the space refuses it")]
    Refused(Refusal),
}
