//! Whether two results are the same.

ghost use Rattle.std.specs.Prelude.{◌≡◌, ◌↔◌, true};
ghost use Rattle.nob_model_types.specs.declared.answer.Answer.TheVariants as answers;

use crate::frames::same_frames;
use crate::values::same_value;
use nob_ids::{ItemNo, SpaceId};
use nob_model_session::Frames;
use nob_model_types::{Answer, Job, Refusal};
use nob_pickle::Value;

/// Two refusals are equal exactly where they are one.
pub fn same_refusal(refusal: Refusal, other: Refusal) -> bool
    ensures { (result ≡ true) ↔ (refusal ≡ other) }
{
    refusal == other
}

/// Whether two jobs are the same. It recurses once for each level of their values.
pub fn same_job(job: &Job, other: &Job) -> bool
    ensures { (result ≡ true) ↔ (job.now ≡ other.now) }
{
    job.job == other.job
        && job.client == other.client
        && job.call == other.call
        && job.target == other.target
        && job.method == other.method
        && same_value(&job.value, &other.value)
}

/// Whether two answers are the same. It recurses once for each level of a value.
pub fn same_answer(answer: &Answer, other: &Answer) -> bool
    ensures { (result ≡ true) ↔ (answer.now ≡ other.now) }
{
    match answer {
        Answer::Exported(rep) => matches!(other, Answer::Exported(twin) if *rep == *twin),
        Answer::Done => matches!(other, Answer::Done),
        Answer::Called(call) => matches!(other, Answer::Called(twin) if *call == *twin),
        Answer::Replied(status, value) => is_reply(other, *status, value),
        Answer::Ended => matches!(other, Answer::Ended),
        Answer::Job(job) => is_job(other, job),
        Answer::Finished => matches!(other, Answer::Finished),
        Answer::Dropped => matches!(other, Answer::Dropped),
        Answer::Acted(item) => matches!(other, Answer::Acted(twin) if *item == *twin),
        Answer::Closed(reason) => matches!(other, Answer::Closed(twin) if *reason == *twin),
        Answer::Settled(peer, item) => is_settled(other, *peer, *item),
        Answer::Cleaned(rep) => matches!(other, Answer::Cleaned(twin) if *rep == *twin),
        Answer::Withdrawn => matches!(other, Answer::Withdrawn),
        Answer::Frames(frames) => is_frames(other, frames),
        Answer::Took(count) => matches!(other, Answer::Took(twin) if *count == *twin),
        Answer::Opened(number) => matches!(other, Answer::Opened(twin) if *number == *twin),
    }
}

// Whether an answer is this reply.
fn is_reply(answer: &Answer, status: u8, value: &Value) -> bool
    ensures { (result ≡ true) ↔ (answers.Replied status value.now ≡ answer.now) }
{
    match answer {
        Answer::Replied(twin, content) => status == *twin && same_value(value, content),
        _ => false,
    }
}

// Whether an answer is this job.
fn is_job(answer: &Answer, job: &Job) -> bool
    ensures { (result ≡ true) ↔ (answers.Job job.now ≡ answer.now) }
{
    match answer {
        Answer::Job(twin) => same_job(job, twin),
        _ => false,
    }
}

// Whether an answer is the settling of this message.
fn is_settled(answer: &Answer, peer: SpaceId, item: ItemNo) -> bool
    ensures { (result ≡ true) ↔ (answers.Settled peer item ≡ answer.now) }
{
    match answer {
        Answer::Settled(twin, number) => peer == *twin && item == *number,
        _ => false,
    }
}

// Whether an answer is these frames.
fn is_frames(answer: &Answer, frames: &Frames) -> bool
    ensures { (result ≡ true) ↔ (answers.Frames frames.now ≡ answer.now) }
{
    match answer {
        Answer::Frames(twins) => same_frames(frames, twins),
        _ => false,
    }
}

/// Whether two results are the same. It recurses once for each level of a value.
pub fn same_result(one: &Result<Answer, Refusal>, other: &Result<Answer, Refusal>) -> bool
    ensures { (result ≡ true) ↔ (one.now ≡ other.now) }
{
    match one {
        Ok(answer) => match other {
            Ok(twin) => same_answer(answer, twin),
            Err(_) => false,
        },
        Err(refusal) => match other {
            Ok(_) => false,
            Err(twin) => *refusal == *twin,
        },
    }
}
