//! Two equal answers to one event: what the second owns is copied before anything changes.

ghost use Rattle.std.specs.Prelude.{◌≡◌, List, false, IsOk, IfOk, OnErr};
ghost use Rattle.nob_ids.specs.declared.limits.Limits.{Limits as LimitsOf};
ghost use Rattle.nob_model_types.specs.declared.answer.Answer.{Answer as AnswerOf};
ghost use Rattle.nob_model_types.specs.declared.deed.Deed.{Deed};
ghost use Rattle.nob_model.specs.Right.{right_after};
ghost use Rattle.nob_space_state.specs.Parts.{state_of};
ghost use Rattle.nob_space_state.specs.Stands.{StandFor, IsState, history_for};
ghost use Rattle.nob_space.specs.Twice.{Fits, IsComing, wants_memory_twice};

use nob_model::{Answer, Event, Frames, Job};
use nob_pickle::Value;
use nob_space_state::{Parts, SpaceError};
use std::alloc::AllocError;

/// What an answer owns.
#[derive(Debug, Drop)]
pub enum Spare {
    /// Nothing.
    Nothing,
    /// A reply's value.
    Value(Value),
    /// A job.
    Job(Job),
    /// Frames.
    Frames(Frames),
}

// What the answer to an event owns, copied. Memory is wanted only where nothing refuses the event.
#[tactic(auto, unfolding(nob_model::specs::Right::right_after))]
pub(crate) fn spare_of(parts: &Parts, event: &Event) -> Result<Spare, AllocError>
    requires { IsState parts.now }
    ensures fits { IfOk result (λ spare. (answer : AnswerOf)
        → IsComing parts.now.here.space parts.now.here.n (state_of parts.now) event.now answer
        → Fits spare answer) }
    ensures only { wants_memory_twice event.now ≡ false → IsOk result }
    ensures memory { OnErr result ((limits : LimitsOf) (D : List Deed)
        → StandFor limits parts.now D
        → IsOk (right_after parts.now.here.space parts.now.here.n limits
        (history_for parts.now D) event.now)) }
{
    match event {
        Event::TakeReply(call) => match parts.reply_value(*call)? {
            Some(value) => Ok(Spare::Value(value)),
            None => Ok(Spare::Nothing),
        },
        Event::Claim => match parts.job_to_claim() {
            Ok(job) => Ok(Spare::Job(job)),
            Err(SpaceError::Refused(_)) => Ok(Spare::Nothing),
            Err(SpaceError::OutOfMemory) => Err(AllocError),
        },
        Event::Transmit(peer) => match parts.frames(*peer) {
            Ok(frames) => Ok(Spare::Frames(Frames::from_vec(frames))),
            Err(SpaceError::Refused(_)) => Ok(Spare::Nothing),
            Err(SpaceError::OutOfMemory) => Err(AllocError),
        },
        _ => Ok(Spare::Nothing),
    }
}

// An answer again, of which this is what it owns. It takes no memory.
pub(crate) fn again(answer: &Answer, spare: Spare) -> Answer
    requires { Fits spare answer.now }
    ensures { result ≡ answer.now }
{
    match answer {
        Answer::Exported(rep) => Answer::Exported(*rep),
        Answer::Done => Answer::Done,
        Answer::Called(call) => Answer::Called(*call),
        Answer::Replied(status, _) => match spare {
            Spare::Value(value) => Answer::Replied(*status, value),
            _ => unreachable!(),
        },
        Answer::Ended => Answer::Ended,
        Answer::Job(_) => match spare {
            Spare::Job(job) => Answer::Job(job),
            _ => unreachable!(),
        },
        Answer::Finished => Answer::Finished,
        Answer::Dropped => Answer::Dropped,
        Answer::Acted(item) => Answer::Acted(*item),
        Answer::Closed(reason) => Answer::Closed(*reason),
        Answer::Settled(peer, item) => Answer::Settled(*peer, *item),
        Answer::Cleaned(rep) => Answer::Cleaned(*rep),
        Answer::Withdrawn => Answer::Withdrawn,
        Answer::Frames(_) => match spare {
            Spare::Frames(frames) => Answer::Frames(frames),
            _ => unreachable!(),
        },
        Answer::Took(count) => Answer::Took(*count),
        Answer::Opened(number) => Answer::Opened(*number),
    }
}
