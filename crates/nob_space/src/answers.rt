//! What an event gave in a type of its own, as an answer.

ghost use Rattle.std.specs.Prelude.{◌≡◌};
ghost use Rattle.nob_space_state.specs.Closing.{tick_answer, arrive_answer};
ghost use Rattle.nob_space_state.specs.Sending.{finish_answer};
ghost use Rattle.nob_space_state.specs.Taking.{answer_of};

use nob_ids::Reason;
use nob_model::{Answer, Arrived};
use nob_space_state::{CallResult, ReplyFate};

// What a call brought.
pub(crate) fn of_call(brought: CallResult) -> Answer
    ensures { result ≡ answer_of brought }
{
    match brought {
        CallResult::Replied { status, value } => Answer::Replied(status, value),
        CallResult::Ended => Answer::Ended,
    }
}

// What became of a reply.
pub(crate) fn of_finish(fate: ReplyFate) -> Answer
    ensures { result ≡ finish_answer fate }
{
    match fate {
        ReplyFate::HandedOn => Answer::Finished,
        ReplyFate::Dropped => Answer::Dropped,
    }
}

// What a frame brought.
pub(crate) fn of_arrive(arrived: Arrived) -> Answer
    ensures { result ≡ arrive_answer arrived }
{
    match arrived {
        Arrived::Took(count) => Answer::Took(count),
        Arrived::Closed(ending) => Answer::Closed(ending.reason),
    }
}

// What a tick did.
pub(crate) fn of_tick(closed: Option<Reason>) -> Answer
    ensures { result ≡ tick_answer closed }
{
    match closed {
        None => Answer::Done,
        Some(reason) => Answer::Closed(reason),
    }
}
