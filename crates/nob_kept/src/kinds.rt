//! Answers, each kind of them as a type.

ghost use Rattle.std.specs.Prelude.{◌≡◌, Bool, None, false, IfSome, MatchOption};
ghost use Rattle.nob_model_types.specs.declared.answer.Answer.{Answer as AnswerOf};
ghost use Rattle.nob_model_types.specs.declared.answer.Answer.TheVariants as answers;
ghost use Rattle.nob_kept.specs.Kinds as kinds;

use nob_ids::{CallNo, Reason, WireRep};
use nob_model_types::Answer;
use nob_pickle::Value;

/// A kind of answers: all that some events are answered with, where the space doesn't refuse them.
pub trait AnswerKind {
    /// The answer as a space gives it.
    ghost as_answer: { Self → AnswerOf };

    /// Whether an answer is of this kind.
    ghost is_one: { AnswerOf → Bool };

    /// An answer of this kind, if it is one.
    fn from_answer(answer: &Answer) -> Option<Self>
        ensures some { IfSome result (λ one. answer.now ≡ as_answer one) }
        ensures none { result ≡ None → is_one answer.now ≡ false };
}

/// The answer to Export: the reference of the object.
#[derive(Clone, Copy, Debug, PartialEq, Eq)]
pub struct ExportAnswer(pub WireRep);

impl AnswerKind for ExportAnswer {
    ghost as_answer = { λ one. answers.Exported one.0 };

    ghost is_one = { kinds.is_exported };

    fn from_answer(answer: &Answer) -> Option<ExportAnswer> {
        match answer {
            Answer::Exported(rep) => Some(ExportAnswer(*rep)),
            _ => None,
        }
    }
}

/// The answer to Dup and to Release: it is done.
#[derive(Clone, Copy, Debug, PartialEq, Eq)]
pub struct DoneAnswer;

impl AnswerKind for DoneAnswer {
    ghost as_answer = { λ one. answers.Done };

    ghost is_one = { kinds.is_done };

    fn from_answer(answer: &Answer) -> Option<DoneAnswer> {
        match answer {
            Answer::Done => Some(DoneAnswer),
            _ => None,
        }
    }
}

/// The answer to Call: the number of the call.
#[derive(Clone, Copy, Debug, PartialEq, Eq)]
pub struct CallAnswer(pub CallNo);

impl AnswerKind for CallAnswer {
    ghost as_answer = { λ one. answers.Called one.0 };

    ghost is_one = { kinds.is_called };

    fn from_answer(answer: &Answer) -> Option<CallAnswer> {
        match answer {
            Answer::Called(call) => Some(CallAnswer(*call)),
            _ => None,
        }
    }
}

/// The answer to Open: the number of the session.
#[derive(Clone, Copy, Debug, PartialEq, Eq)]
pub struct OpenAnswer(pub u32);

impl AnswerKind for OpenAnswer {
    ghost as_answer = { λ one. answers.Opened one.0 };

    ghost is_one = { kinds.is_opened };

    fn from_answer(answer: &Answer) -> Option<OpenAnswer> {
        match answer {
            Answer::Opened(number) => Some(OpenAnswer(*number)),
            _ => None,
        }
    }
}

/// The answer to Close: why the session closed.
#[derive(Clone, Copy, Debug, PartialEq, Eq)]
pub struct CloseAnswer(pub Reason);

impl AnswerKind for CloseAnswer {
    ghost as_answer = { λ one. answers.Closed one.0 };

    ghost is_one = { kinds.is_closing };

    fn from_answer(answer: &Answer) -> Option<CloseAnswer> {
        match answer {
            Answer::Closed(reason) => Some(CloseAnswer(*reason)),
            _ => None,
        }
    }
}

/// The answer to Withdraw.
#[derive(Clone, Copy, Debug, PartialEq, Eq)]
pub struct WithdrawAnswer;

impl AnswerKind for WithdrawAnswer {
    ghost as_answer = { λ one. answers.Withdrawn };

    ghost is_one = { kinds.is_withdrawn };

    fn from_answer(answer: &Answer) -> Option<WithdrawAnswer> {
        match answer {
            Answer::Withdrawn => Some(WithdrawAnswer),
            _ => None,
        }
    }
}

// The answer to TakeReply, if it is one: the reply's status and value, or nothing where none comes.
pub(crate) fn reply_in(answer: &Answer) -> Option<Option<(u8, &Value)>>
    ensures some { IfSome result (λ read. MatchOption read (answer.now ≡ answers.Ended)
        (λ reply. answer.now ≡ answers.Replied reply.0 reply.1.now)) }
    ensures none { result ≡ None → kinds.is_reply answer.now ≡ false }
{
    match answer {
        Answer::Replied(status, value) => Some(Some((*status, value))),
        Answer::Ended => Some(None),
        _ => None,
    }
}
