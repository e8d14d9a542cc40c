//! The refusal of the table.

use thiserror::Error;

/// A refusal of the table. The table is then as it was.
#[derive(Clone, Copy, Debug, PartialEq, Eq, Drop, Error)]
pub enum PinFault {
    /// G1: the table has no bundle of this peer and item.
    #[error("G1: nothing is in transit to this peer in this item")]
    NoBundle,
}
