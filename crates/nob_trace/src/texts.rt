//! What is said of results.

ghost use Rattle.std.specs.Prelude.{◌≡◌, ◌↔◌, true, IfOk, MatchOption};
ghost use Rattle.std.specs.String.{string_bytes};
ghost use Rattle.nob_trace.specs.Entries.{TransmitFits, result_text as spelling};
ghost use Rattle.nob_trace.specs.Texts as spec;

use crate::fault::TraceError;
use crate::writing::result_text;
use nob_frame::Version;
use nob_model_types::{Answer, Refusal};
use std::alloc::{AllocError, Global};

/// What is said where so many results are right. Only memory fails it.
pub fn right_line(alloc: Global, count: usize) -> Result<String, AllocError>
    ensures { IfOk result (λ text. string_bytes text ≡ spec.right_line count) }
{
    format!(in alloc; "right {count}\n")
}

/// What is said where so many results are right and the next one isn't. Only memory fails it.
pub fn wrong_line(alloc: Global, count: usize) -> Result<String, AllocError>
    ensures { IfOk result (λ text. string_bytes text ≡ spec.wrong_line count) }
{
    let place = count as u128 + 1;
    format!(in alloc; "wrong {place}\n")
}

/// Whether two results have a text in traces of a version, and it is the same. Only memory fails
/// it. Linear in the texts.
pub fn have_one_text(
    alloc: Global,
    version: Version,
    one: &Result<Answer, Refusal>,
    other: &Result<Answer, Refusal>,
) -> Result<bool, AllocError>
    ensures { IfOk result (λ have. (have ≡ true) ↔ spec.HaveOneText version one.now other.now) }
{
    let Some(one) = spelling_of(alloc, version, one)? else {
        return Ok(false);
    };
    let Some(other) = spelling_of(alloc, version, other)? else {
        return Ok(false);
    };
    Ok(one.as_bytes() == other.as_bytes())
}

// The text of a result in a trace of a version: `None` where it has none.
fn spelling_of(
    alloc: Global,
    version: Version,
    response: &Result<Answer, Refusal>,
) -> Result<Option<String>, AllocError>
    ensures { IfOk result (λ text. MatchOption text (TransmitFits version response.now → ⊥)
        (λ text. TransmitFits version response.now
        × (string_bytes text ≡ spelling version response.now))) }
{
    match result_text(alloc, version, response) {
        Ok(text) => Ok(Some(text)),
        Err(TraceError::Fault(_)) => Ok(None),
        Err(TraceError::OutOfMemory) => Err(AllocError),
    }
}
