//! The refusals of the table.

ghost use Rattle.std.specs.Prelude.{◌≡◌};

use std::alloc::{AllocError, AllocFailed};
use thiserror::Error;

/// A refusal of the table. Where several hold, the first is answered. The table is then as it was.
#[derive(Clone, Copy, Debug, PartialEq, Eq, Drop, Error)]
pub enum TableFault {
    /// B1: the table has nothing here that the call could change.
    #[error("B1: the table has no such reference")]
    Absent,
    /// B2: the count is 0 already.
    #[error("B2: the reference isn't held so")]
    NotHeld,
    /// B3: a count or a number is at its limit.
    #[error("B3: a limit of the table is reached")]
    Limit,
    /// B4: something still uses the reference.
    #[error("B4: the reference is still used")]
    StillUsed,
}

/// A refusal of a call that makes the table grow.
#[derive(Clone, Copy, Debug, PartialEq, Eq, Drop, Error)]
pub enum TableError {
    /// One of the table's refusals.
    #[error("{0}")]
    Fault(TableFault),
    /// There was no memory for one row more.
    #[error("out of memory")]
    OutOfMemory,
}

impl From<TableFault> for TableError {
    ghost use Rattle.nob_table_rows.specs.declared.fault.TableError.TheVariants.{Fault};

    ghost from_gives = { λ fault error. error ≡ Fault fault };

    fn from(fault: TableFault) -> TableError {
        TableError::Fault(fault)
    }
}

impl From<AllocError> for TableError {
    ghost use Rattle.nob_table_rows.specs.declared.fault.TableError.TheVariants.{OutOfMemory};

    ghost from_gives = { λ _ error. error ≡ OutOfMemory };

    fn from(_error: AllocError) -> TableError {
        TableError::OutOfMemory
    }
}

impl<T: Drop> From<AllocFailed<T>> for TableError {
    ghost use Rattle.nob_table_rows.specs.declared.fault.TableError.TheVariants.{OutOfMemory};

    ghost from_gives = { λ _ error. error ≡ OutOfMemory };

    fn from(_error: AllocFailed<T>) -> TableError {
        TableError::OutOfMemory
    }
}
