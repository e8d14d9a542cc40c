//! Why a line has no answer of its own.

ghost use Rattle.std.specs.Prelude.{◌≡◌};
ghost use Rattle.nob_case_texts.specs.declared.unanswered.Unanswered.TheVariants as unanswered;

use std::alloc::{AllocError, AllocFailed};

/// Why a line has no answer of its own.
#[derive(Drop)]
pub enum Unanswered {
    /// It spells no case.
    NoCase,
    /// Memory ran out.
    Memory,
}

impl From<AllocError> for Unanswered {
    ghost from_gives = { λ _ e. e ≡ unanswered.Memory };

    fn from(_error: AllocError) -> Unanswered {
        Unanswered::Memory
    }
}

impl<T: Drop> From<AllocFailed<T>> for Unanswered {
    ghost from_gives = { λ _ e. e ≡ unanswered.Memory };

    fn from(_error: AllocFailed<T>) -> Unanswered {
        Unanswered::Memory
    }
}
