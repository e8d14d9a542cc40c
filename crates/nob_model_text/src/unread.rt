//! Why nothing is read.

ghost use Rattle.std.specs.Prelude.{◌≡◌};
ghost use Rattle.nob_model_text.specs.declared.unread.Unread.TheVariants as unread;

use std::alloc::{AllocError, AllocFailed};

/// Why nothing is read.
#[derive(Clone, Copy, Debug)]
pub enum Unread {
    /// The text spells nothing.
    NoText,
    /// Memory ran out.
    OutOfMemory,
}

impl From<AllocError> for Unread {
    ghost from_gives = { λ _ e. e ≡ unread.OutOfMemory };

    fn from(_error: AllocError) -> Unread {
        Unread::OutOfMemory
    }
}

impl<T: Drop> From<AllocFailed<T>> for Unread {
    ghost from_gives = { λ _ e. e ≡ unread.OutOfMemory };

    fn from(_error: AllocFailed<T>) -> Unread {
        Unread::OutOfMemory
    }
}
