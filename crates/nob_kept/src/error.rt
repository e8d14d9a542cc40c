//! Why a keeper makes no entry.

use std::alloc::AllocError;
use thiserror::Error;

/// Why a keeper makes no entry. The space, its trace and the seat are then as they were.
#[derive(Clone, Copy, Debug, PartialEq, Eq, Drop, Error)]
pub enum KeeperError {
    /// K2: there is no memory.
    #[error("K2: out of memory")]
    OutOfMemory,
    /// K3: the stamp that was seen is too great, or the trace's last one is.
    #[error("K3: the stamp is too great")]
    Stamp,
    /// K4: the seats and the trace don't belong together.
    #[error("K4: the seats and the trace don't belong together")]
    Seats,
    /// K5: a segment has 1 to 65,536 entries.
    #[error("K5: a segment has 1 to 65536 entries")]
    Size,
    /// There is no trace: its entries, or the receipts of a seat, weren't kept.
    #[error("there is no trace: nothing was kept")]
    NoTrace,
}

impl From<AllocError> for KeeperError {
    fn from(_: AllocError) -> KeeperError {
        KeeperError::OutOfMemory
    }
}
