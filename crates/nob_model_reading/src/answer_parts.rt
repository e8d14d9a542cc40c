//! Texts to what an answer is about: a reason, a session, a reply, a settled message, a job.

ghost use Rattle.std.specs.Prelude.{◌≡◌, ◌++◌, ◌∷◌, ◌<◌, ◌^◌, ℕ, List, IfOk, codes};
ghost use Rattle.std.specs.Fmt.{decimal};
ghost use Rattle.nob_ids.specs.Names.{IsSpace};
ghost use Rattle.nob_ids.specs.Reasons.{reason_number};
ghost use Rattle.nob_ids.specs.declared.reason.Reason.{Reason as ReasonOf};
ghost use Rattle.nob_pickle.specs.declared.value.Value.{Value as ValueOf};
ghost use Rattle.nob_model_types.specs.declared.answer.Job.{Job as JobOf};
ghost use Rattle.nob_model_text.specs.Fronts.{Stops};
ghost use Rattle.nob_model_text.specs.Reading.{Reads};
ghost use Rattle.nob_model_text.specs.Values as values;
ghost use Rattle.nob_model_text.specs.Answers.{job_text};
ghost use Rattle.nob_model_reading.specs.Told.{IsJob, ReadsTold, Tells};

use crate::parts::{after, after_space, whole_number};
use nob_ids::{CallNo, ItemNo, JobNo, Reason};
use nob_model_text::{Unread, number_at, space_of, whole_value};
use nob_model_types::{Answer, Job};
use std::alloc::Global;

// The reason whose number a text spells.
pub fn whole_reason(alloc: Global, text: &[u8]) -> Result<Reason, Unread>
    ensures found { IfOk result (λ reason. text.now ≡ decimal (reason_number reason)) }
    ensures only { (reason : ReasonOf) → text.now ≡ decimal (reason_number reason)
        → Reads (λ r. r ≡ reason) result }
{
    let number = whole_number(alloc, text)?;
    if number > 6 {
        return Err(Unread::NoText);
    }
    match Reason::from_number(number as u8) {
        Some(reason) => Ok(reason),
        None => Err(Unread::NoText),
    }
}

// The number of a session that a text spells.
pub fn whole_session(alloc: Global, text: &[u8]) -> Result<u32, Unread>
    ensures found { IfOk result (λ n. (n < 2 ^ 32) × (text.now ≡ decimal n)) }
    ensures only { (n : ℕ) → n < 2 ^ 32 → text.now ≡ decimal n → Reads (λ m. m ≡ n) result }
{
    let number = whole_number(alloc, text)?;
    if number > 4_294_967_295 {
        return Err(Unread::NoText);
    }
    Ok(number as u32)
}

// The reply that a text spells behind its word.
pub fn reply_of(alloc: Global, text: &[u8]) -> Result<Answer, Unread>
    ensures found { IfOk result (λ answer. Tells (codes "reply " ++ text.now) answer) }
    ensures only { (status : ℕ) (value : ValueOf)
        → ReadsTold (codes "reply " ++ text.now) result (Answer.Replied status value) }
{
    let (status, behind) = number_at(alloc, text)?;
    if status > 255 {
        return Err(Unread::NoText);
    }
    let value = whole_value(alloc, after_space(behind)?)?;
    Ok(Answer::Replied(status as u8, value))
}

// The settled message that a text spells behind its word.
pub fn settled_of(alloc: Global, text: &[u8]) -> Result<Answer, Unread>
    ensures found { IfOk result (λ answer. Tells (codes "settled " ++ text.now) answer) }
    ensures only { (peer item : ℕ) → ReadsTold (codes "settled " ++ text.now) result
        (Answer.Settled peer item) }
{
    let (peer, behind) = number_at(alloc, text)?;
    let Some(peer) = space_of(peer) else {
        return Err(Unread::NoText);
    };
    let item = whole_number(alloc, after_space(behind)?)?;
    Ok(Answer::Settled(peer, ItemNo::new(item)))
}

// The job that a text spells behind its word.
pub fn job_of(alloc: Global, text: &[u8]) -> Result<Answer, Unread>
    ensures found { IfOk result (λ answer. Tells (codes "job " ++ text.now) answer) }
    ensures only { (job : JobOf) → ReadsTold (codes "job " ++ text.now) result (Answer.Job job) }
{
    let (job, client, call, behind) = origin_at(alloc, text)?;
    let Some(client) = space_of(client) else {
        return Err(Unread::NoText);
    };
    let (target, left) = number_at(alloc, after(behind, b" on ")?)?;
    let (method, last) = number_at(alloc, after(left, b" method ")?)?;
    if method > 65_535 {
        return Err(Unread::NoText);
    }
    let value = whole_value(alloc, after_space(last)?)?;
    Ok(Answer::Job(Job {
        job: JobNo::new(job),
        client,
        call: CallNo::new(call),
        target,
        method: method as u16,
        value,
    }))
}

// The numbers of a job, of its client and of the call at the front of a text, and what is left.
fn origin_at(alloc: Global, text: &[u8]) -> Result<(u64, u64, u64, &[u8]), Unread>
    ensures found { IfOk result (λ parts. text.now
        ≡ decimal parts.0 ++ (codes " from " ++
        (decimal parts.1 ++ (codes " call " ++ (decimal parts.2 ++ parts.3.now))))) }
    ensures only { (job client call : ℕ) (rest : List ℕ) → job < 2 ^ 64 → client < 2 ^ 64
        → call < 2 ^ 64 → Stops rest
        → text.now ≡ decimal job ++ (codes " from " ++
        (decimal client ++ (codes " call " ++ (decimal call ++ rest))))
        → Reads (λ parts. (parts.0 ≡ job) × (parts.1 ≡ client) × (parts.2 ≡ call)
        × (parts.3.now ≡ rest)) result }
{
    let (job, behind) = number_at(alloc, text)?;
    let (client, left) = number_at(alloc, after(behind, b" from ")?)?;
    let (call, rest) = number_at(alloc, after(left, b" call ")?)?;
    Ok((job, client, call, rest))
}
