//! Refusals as answers.

ghost use Rattle.std.specs.Prelude.{◌≡◌, MatchResult};
ghost use Rattle.nob_frame.specs.declared.fault.FrameError.TheVariants as frame_errors;
ghost use Rattle.nob_item.specs.declared.fault.ItemError.TheVariants as item_errors;
ghost use Rattle.nob_pickle.specs.declared.fault.PickleError.TheVariants as pickle_errors;
ghost use Rattle.nob_session.specs.declared.error.SessionError.TheVariants as end_errors;
ghost use Rattle.nob_table_rows.specs.declared.fault.TableError.TheVariants as table_errors;
ghost use Rattle.nob_case_texts.specs.declared.answer.Answer.TheVariants as answers;
ghost use Rattle.nob_case_texts.specs.declared.answer.Refusal.TheVariants as refusals;

use crate::answer::{Answer, Refusal};
use nob_frame::FrameError;
use nob_item::ItemError;
use nob_pickle::PickleError;
use nob_session::SessionError;
use nob_table::TableError;
use std::alloc::AllocError;

/// A refusal of a value as an answer: want of memory is none.
pub fn refused_value(error: PickleError) -> Result<Answer, AllocError>
    ensures { MatchResult result (λ answer. answer ≡ answers.Refused (refusals.Pickle error))
        (λ _. error ≡ pickle_errors.OutOfMemory) }
{
    match error {
        PickleError::OutOfMemory => Err(AllocError),
        PickleError::Fault(_) => Ok(Answer::Refused(Refusal::Pickle(error))),
    }
}

/// A refusal of an item as an answer: want of memory is none.
pub fn refused_item(error: ItemError) -> Result<Answer, AllocError>
    ensures { MatchResult result (λ answer. answer ≡ answers.Refused (refusals.Item error))
        (λ _. error ≡ item_errors.OutOfMemory) }
{
    match error {
        ItemError::OutOfMemory => Err(AllocError),
        ItemError::Fault(_) => Ok(Answer::Refused(Refusal::Item(error))),
    }
}

/// A refusal of a frame as an answer: want of memory is none.
pub fn refused_frame(error: FrameError) -> Result<Answer, AllocError>
    ensures { MatchResult result (λ answer. answer ≡ answers.Refused (refusals.Frame error))
        (λ _. error ≡ frame_errors.OutOfMemory) }
{
    match error {
        FrameError::OutOfMemory => Err(AllocError),
        FrameError::Fault(_) => Ok(Answer::Refused(Refusal::Frame(error))),
    }
}

/// A refusal of a call on an end as an answer: want of memory is none.
pub fn refused_call(error: SessionError) -> Result<Answer, AllocError>
    ensures { MatchResult result (λ answer. answer ≡ answers.Refused (refusals.End error))
        (λ _. error ≡ end_errors.OutOfMemory) }
{
    match error {
        SessionError::OutOfMemory => Err(AllocError),
        SessionError::Refused(_) => Ok(Answer::Refused(Refusal::End(error))),
    }
}

/// A refusal of a call on a table as an answer: want of memory is none.
pub fn refused_table_call(error: TableError) -> Result<Answer, AllocError>
    ensures { MatchResult result (λ answer. answer ≡ answers.Refused (refusals.Table error))
        (λ _. error ≡ table_errors.OutOfMemory) }
{
    match error {
        TableError::OutOfMemory => Err(AllocError),
        TableError::Fault(_) => Ok(Answer::Refused(Refusal::Table(error))),
    }
}
