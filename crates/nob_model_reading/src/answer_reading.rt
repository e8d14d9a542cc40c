//! Texts to answers, by their first letters.

ghost use Rattle.std.specs.Prelude.{◌≡◌, ◌∷◌, [], ℕ, Some, IfOk, IfSome};
ghost use Rattle.nob_ids.specs.declared.wire_rep.WireRep.{WireRep as RepOf};
ghost use Rattle.nob_ids.specs.declared.reason.Reason.{Reason as ReasonOf};
ghost use Rattle.nob_pickle.specs.declared.value.Value.{Value as ValueOf};
ghost use Rattle.nob_model_types.specs.declared.answer.Answer.{Answer as AnswerOf};
ghost use Rattle.nob_model_types.specs.declared.answer.Job.{Job as JobOf};
ghost use Rattle.nob_model_text.specs.Answers.{answer_text};
ghost use Rattle.nob_model_reading.specs.Told.{IsTold, ReadsTold, Tells};

use crate::answer_parts::{job_of, reply_of, settled_of, whole_reason, whole_session};
use crate::parts::{whole_number, whole_rep};
use nob_ids::{CallNo, ItemNo};
use nob_model_text::Unread;
use nob_model_types::Answer;
use std::alloc::{AllocError, Global};

/// The answer that a text spells: `None` where it spells none, as a transmit's, whose frames
/// scripts and traces spell in two ways. Only memory fails it. It recurses once for each level of a
/// value.
pub fn answer_of(alloc: Global, text: &[u8]) -> Result<Option<Answer>, AllocError>
    ensures found { IfOk result (λ r. IfSome r (λ answer. Tells text.now answer)) }
    ensures only { IfOk result (λ r. (answer : AnswerOf) → IsTold answer
        → text.now ≡ answer_text [] answer → r ≡ Some answer) }
{
    match whole_answer(alloc, text) {
        Ok(answer) => Ok(Some(answer)),
        Err(Unread::NoText) => Ok(None),
        Err(Unread::OutOfMemory) => Err(AllocError),
    }
}

/// The same, where a text that spells none is an error.
pub fn whole_answer(alloc: Global, text: &[u8]) -> Result<Answer, Unread>
    ensures found { IfOk result (λ answer. Tells text.now answer) }
    ensures only { (answer : AnswerOf) → ReadsTold text.now result answer }
{
    match text {
        [first, rest @ ..] => answer_by(alloc, *first, rest),
        [] => Err(Unread::NoText),
    }
}

// The same behind its first letter.
fn answer_by(alloc: Global, first: u8, text: &[u8]) -> Result<Answer, Unread>
    ensures found { IfOk result (λ answer. Tells (first ∷ text.now) answer) }
    ensures exported { (rep : RepOf) → ReadsTold (first ∷ text.now) result (Answer.Exported rep) }
    ensures ok { ReadsTold (first ∷ text.now) result Answer.Done }
    ensures called { (call : ℕ) → ReadsTold (first ∷ text.now) result (Answer.Called call) }
    ensures replied { (status : ℕ) (value : ValueOf)
        → ReadsTold (first ∷ text.now) result (Answer.Replied status value) }
    ensures ended { ReadsTold (first ∷ text.now) result Answer.Ended }
    ensures job { (job : JobOf) → ReadsTold (first ∷ text.now) result (Answer.Job job) }
    ensures finished { ReadsTold (first ∷ text.now) result Answer.Finished }
    ensures dropped { ReadsTold (first ∷ text.now) result Answer.Dropped }
    ensures acted { (item : ℕ) → ReadsTold (first ∷ text.now) result (Answer.Acted item) }
    ensures closed { (reason : ReasonOf)
        → ReadsTold (first ∷ text.now) result (Answer.Closed reason) }
    ensures settled { (peer item : ℕ) → ReadsTold (first ∷ text.now) result
        (Answer.Settled peer item) }
    ensures cleaned { (rep : RepOf) → ReadsTold (first ∷ text.now) result (Answer.Cleaned rep) }
    ensures withdrawn { ReadsTold (first ∷ text.now) result Answer.Withdrawn }
    ensures took { (count : ℕ) → ReadsTold (first ∷ text.now) result (Answer.Took count) }
    ensures opened { (number : ℕ) → ReadsTold (first ∷ text.now) result (Answer.Opened number) }
{
    match first {
        b'a' => acted_answer(alloc, text),
        b'c' => c_answer(alloc, text),
        b'e' => e_answer(alloc, text),
        b'j' => job_answer(alloc, text),
        b'o' => o_answer(alloc, text),
        b'r' => replied_answer(alloc, text),
        b's' => settled_answer(alloc, text),
        b't' => took_answer(alloc, text),
        _ => bare_answer(first, text),
    }
}

// The answer to an Act, behind the first letter of its word.
fn acted_answer(alloc: Global, text: &[u8]) -> Result<Answer, Unread>
    ensures found { IfOk result (λ answer. Tells (97 ∷ text.now) answer) }
    ensures acted { (item : ℕ) → ReadsTold (97 ∷ text.now) result (Answer.Acted item) }
{
    match text {
        [b'c', b't', b'e', b'd', b' ', rest @ ..] => Ok(Answer::Acted(ItemNo::new(whole_number(
            alloc, rest,
        )?))),
        _ => Err(Unread::NoText),
    }
}

// The answer to a Call or a Clean, or a close, behind the first letter of its word.
fn c_answer(alloc: Global, text: &[u8]) -> Result<Answer, Unread>
    ensures found { IfOk result (λ answer. Tells (99 ∷ text.now) answer) }
    ensures called { (call : ℕ) → ReadsTold (99 ∷ text.now) result (Answer.Called call) }
    ensures closed { (reason : ReasonOf) → ReadsTold (99 ∷ text.now) result (Answer.Closed reason) }
    ensures cleaned { (rep : RepOf) → ReadsTold (99 ∷ text.now) result (Answer.Cleaned rep) }
{
    match text {
        [b'a', b'l', b'l', b' ', rest @ ..] => Ok(Answer::Called(CallNo::new(whole_number(
            alloc, rest,
        )?))),
        [b'l', rest @ ..] => cl_answer(alloc, rest),
        _ => Err(Unread::NoText),
    }
}

// The answer to a Clean, or a close, behind the first two letters of its word.
fn cl_answer(alloc: Global, text: &[u8]) -> Result<Answer, Unread>
    ensures found { IfOk result (λ answer. Tells (99 ∷ 108 ∷ text.now) answer) }
    ensures closed { (reason : ReasonOf)
        → ReadsTold (99 ∷ 108 ∷ text.now) result (Answer.Closed reason) }
    ensures cleaned { (rep : RepOf) → ReadsTold (99 ∷ 108 ∷ text.now) result (Answer.Cleaned rep) }
{
    match text {
        [b'o', b's', b'e', b'd', b' ', rest @ ..] => Ok(Answer::Closed(whole_reason(alloc, rest)?)),
        [b'e', b'a', b'n', b'e', b'd', b' ', rest @ ..] => Ok(Answer::Cleaned(whole_rep(
            alloc, rest,
        )?)),
        _ => Err(Unread::NoText),
    }
}

// The answer to an Export, or that a call has ended, behind the first letter of its word.
fn e_answer(alloc: Global, text: &[u8]) -> Result<Answer, Unread>
    ensures found { IfOk result (λ answer. Tells (101 ∷ text.now) answer) }
    ensures exported { (rep : RepOf) → ReadsTold (101 ∷ text.now) result (Answer.Exported rep) }
    ensures ended { ReadsTold (101 ∷ text.now) result Answer.Ended }
{
    match text {
        b"nded" => Ok(Answer::Ended),
        [b'x', b'p', b'o', b'r', b't', b'e', b'd', b' ', rest @ ..] => Ok(Answer::Exported(
            whole_rep(alloc, rest)?,
        )),
        _ => Err(Unread::NoText),
    }
}

// The answer to a Claim, behind the first letter of its word.
fn job_answer(alloc: Global, text: &[u8]) -> Result<Answer, Unread>
    ensures found { IfOk result (λ answer. Tells (106 ∷ text.now) answer) }
    ensures job { (job : JobOf) → ReadsTold (106 ∷ text.now) result (Answer.Job job) }
{
    match text {
        [b'o', b'b', b' ', rest @ ..] => job_of(alloc, rest),
        _ => Err(Unread::NoText),
    }
}

// That a thing is done, or the answer to an Open, behind the first letter of its word.
fn o_answer(alloc: Global, text: &[u8]) -> Result<Answer, Unread>
    ensures found { IfOk result (λ answer. Tells (111 ∷ text.now) answer) }
    ensures ok { ReadsTold (111 ∷ text.now) result Answer.Done }
    ensures opened { (number : ℕ) → ReadsTold (111 ∷ text.now) result (Answer.Opened number) }
{
    match text {
        b"k" => Ok(Answer::Done),
        [b'p', b'e', b'n', b'e', b'd', b' ', rest @ ..] => Ok(Answer::Opened(whole_session(
            alloc, rest,
        )?)),
        _ => Err(Unread::NoText),
    }
}

// The answer to a TakeReply, behind the first letter of its word.
fn replied_answer(alloc: Global, text: &[u8]) -> Result<Answer, Unread>
    ensures found { IfOk result (λ answer. Tells (114 ∷ text.now) answer) }
    ensures replied { (status : ℕ) (value : ValueOf)
        → ReadsTold (114 ∷ text.now) result (Answer.Replied status value) }
{
    match text {
        [b'e', b'p', b'l', b'y', b' ', rest @ ..] => reply_of(alloc, rest),
        _ => Err(Unread::NoText),
    }
}

// The answer to a Settle, behind the first letter of its word.
fn settled_answer(alloc: Global, text: &[u8]) -> Result<Answer, Unread>
    ensures found { IfOk result (λ answer. Tells (115 ∷ text.now) answer) }
    ensures settled { (peer item : ℕ) → ReadsTold (115 ∷ text.now) result
        (Answer.Settled peer item) }
{
    match text {
        [b'e', b't', b't', b'l', b'e', b'd', b' ', rest @ ..] => settled_of(alloc, rest),
        _ => Err(Unread::NoText),
    }
}

// The answer to an Arrive, behind the first letter of its word.
fn took_answer(alloc: Global, text: &[u8]) -> Result<Answer, Unread>
    ensures found { IfOk result (λ answer. Tells (116 ∷ text.now) answer) }
    ensures took { (count : ℕ) → ReadsTold (116 ∷ text.now) result (Answer.Took count) }
{
    match text {
        [b'o', b'o', b'k', b' ', rest @ ..] => Ok(Answer::Took(whole_number(alloc, rest)?)),
        _ => Err(Unread::NoText),
    }
}

// An answer of one word, behind its first letter. It takes no memory.
fn bare_answer(first: u8, text: &[u8]) -> Result<Answer, Unread>
    ensures found { IfOk result (λ answer. Tells (first ∷ text.now) answer) }
    ensures finished { ReadsTold (first ∷ text.now) result Answer.Finished }
    ensures dropped { ReadsTold (first ∷ text.now) result Answer.Dropped }
    ensures withdrawn { ReadsTold (first ∷ text.now) result Answer.Withdrawn }
{
    match (first, text) {
        (b'f', b"inished") => Ok(Answer::Finished),
        (b'd', b"ropped") => Ok(Answer::Dropped),
        (b'w', b"ithdrawn") => Ok(Answer::Withdrawn),
        _ => Err(Unread::NoText),
    }
}
