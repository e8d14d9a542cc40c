//! What bytes or an item are refused for.

ghost use Rattle.std.specs.Prelude.{◌≡◌};
ghost use Rattle.nob_item.specs.Judging.{of_error};
ghost use Rattle.nob_item.specs.declared.fault.ItemError.TheVariants.{Fault, OutOfMemory};

use nob_pickle::{PickleError, PickleFault};
use std::alloc::{AllocError, AllocFailed};
use thiserror::Error;

/// What is wrong with bytes that spell no item, or with an item that has no spelling.
#[derive(Clone, Copy, Debug, PartialEq, Eq, Error)]
pub enum ItemFault {
    /// I1: the bytes end inside a note, or before a value begins.
    #[error("I1: the input ends inside an item")]
    Short,
    /// I2: a first byte that no item has.
    #[error("I2: no item begins so")]
    Tag,
    /// I3: the value of a Call or a Reply is refused.
    #[error("I3: {0}")]
    Value(PickleFault),
    /// I4: a call number outside 1 to 2^48, or an item number outside 1 to 2^40.
    #[error("I4: the number is out of range")]
    Number,
    /// I5: a status above 3.
    #[error("I5: an unknown status")]
    Status,
    /// I6: bytes stand after a note.
    #[error("I6: bytes after the note")]
    Trailing,
}

/// Why an item wasn't spelled or read.
#[derive(Clone, Copy, Debug, PartialEq, Eq, Error)]
pub enum ItemError {
    /// The bytes or the item are at fault.
    #[error("{0}")]
    Fault(ItemFault),
    /// Memory ran out.
    #[error("out of memory")]
    OutOfMemory,
}

impl From<ItemFault> for ItemError {
    ghost from_gives = { λ fault e. e ≡ Fault fault };

    fn from(fault: ItemFault) -> ItemError {
        ItemError::Fault(fault)
    }
}

impl From<PickleError> for ItemError {
    ghost from_gives = { λ error e. e ≡ of_error error };

    fn from(error: PickleError) -> ItemError {
        match error {
            PickleError::Fault(fault) => ItemError::Fault(ItemFault::Value(fault)),
            PickleError::OutOfMemory => ItemError::OutOfMemory,
        }
    }
}

impl From<AllocError> for ItemError {
    ghost from_gives = { λ _ e. e ≡ OutOfMemory };

    fn from(_error: AllocError) -> ItemError {
        ItemError::OutOfMemory
    }
}

impl<T: Drop> From<AllocFailed<T>> for ItemError {
    ghost from_gives = { λ _ e. e ≡ OutOfMemory };

    fn from(_error: AllocFailed<T>) -> ItemError {
        ItemError::OutOfMemory
    }
}
