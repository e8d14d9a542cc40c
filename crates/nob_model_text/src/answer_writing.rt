//! Answers to texts.

ghost use Rattle.std.specs.Prelude.{◌≡◌, ◌++◌, ◌∷◌, codes, IfOk};
ghost use Rattle.std.specs.String.{string_bytes};
ghost use Rattle.std.specs.Fmt.{decimal};
ghost use Rattle.nob_ids.specs.Reasons.{reason_number};
ghost use Rattle.nob_model_text.specs.Values as values;
ghost use Rattle.nob_model_text.specs.Answers as spec;

use crate::value_writing::{rep_text, value_text};
use nob_ids::{ItemNo, Reason, SpaceId, WireRep};
use nob_model_types::{Answer, Job};
use nob_pickle::Value;
use std::alloc::{AllocError, Global};

/// The text of an answer, where the frames of a transmit are written so. Only memory fails it. It
/// recurses once for each level of a value.
pub fn answer_text(alloc: Global, answer: &Answer, frames: &str) -> Result<String, AllocError>
    ensures { IfOk result (λ text. string_bytes text ≡ spec.answer_text frames.now answer.now) }
{
    match answer {
        Answer::Exported(rep) => exported_text(alloc, *rep),
        Answer::Done => String::from_str(alloc, "ok"),
        Answer::Called(call) => called_text(alloc, call.get()),
        Answer::Replied(status, value) => replied_text(alloc, *status, value),
        Answer::Ended => String::from_str(alloc, "ended"),
        Answer::Job(job) => job_text(alloc, job),
        Answer::Finished => String::from_str(alloc, "finished"),
        Answer::Dropped => String::from_str(alloc, "dropped"),
        Answer::Acted(item) => acted_text(alloc, item.get()),
        Answer::Closed(reason) => closed_text(alloc, *reason),
        Answer::Settled(peer, item) => settled_text(alloc, *peer, *item),
        Answer::Cleaned(rep) => cleaned_text(alloc, *rep),
        Answer::Withdrawn => String::from_str(alloc, "withdrawn"),
        Answer::Frames(_) => String::from_str(alloc, frames),
        Answer::Took(count) => took_text(alloc, *count),
        Answer::Opened(number) => opened_text(alloc, *number),
    }
}

fn exported_text(alloc: Global, rep: WireRep) -> Result<String, AllocError>
    ensures { IfOk result (λ text. string_bytes text ≡ codes "exported " ++ values.rep_text rep) }
{
    let rep = rep_text(alloc, rep)?;
    format!(in alloc; "exported {rep}")
}

fn called_text(alloc: Global, call: u64) -> Result<String, AllocError>
    ensures { IfOk result (λ text. string_bytes text ≡ codes "call " ++ decimal call) }
{
    format!(in alloc; "call {call}")
}

fn replied_text(alloc: Global, status: u8, value: &Value) -> Result<String, AllocError>
    ensures { IfOk result (λ text. string_bytes text
        ≡ codes "reply " ++ (decimal status ++ 32 ∷ values.value_text value.now)) }
{
    let value = value_text(alloc, value)?;
    format!(in alloc; "reply {status} {value}")
}

fn job_text(alloc: Global, job: &Job) -> Result<String, AllocError>
    ensures { IfOk result (λ text. string_bytes text ≡ spec.job_text job.now) }
{
    let number = job.job.get();
    let client = job.client;
    let call = job.call.get();
    let target = job.target;
    let method = job.method;
    let value = value_text(alloc, &job.value)?;
    format!(in alloc; "job {number} from {client} call {call} on {target} method {method} {value}")
}

fn acted_text(alloc: Global, item: u64) -> Result<String, AllocError>
    ensures { IfOk result (λ text. string_bytes text ≡ codes "acted " ++ decimal item) }
{
    format!(in alloc; "acted {item}")
}

fn closed_text(alloc: Global, reason: Reason) -> Result<String, AllocError>
    ensures { IfOk result (λ text. string_bytes text
        ≡ codes "closed " ++ decimal (reason_number reason)) }
{
    let number = reason.number();
    format!(in alloc; "closed {number}")
}

fn settled_text(alloc: Global, peer: SpaceId, item: ItemNo) -> Result<String, AllocError>
    ensures { IfOk result (λ text. string_bytes text
        ≡ codes "settled " ++ (decimal peer ++ 32 ∷ decimal item)) }
{
    let item = item.get();
    format!(in alloc; "settled {peer} {item}")
}

fn cleaned_text(alloc: Global, rep: WireRep) -> Result<String, AllocError>
    ensures { IfOk result (λ text. string_bytes text ≡ codes "cleaned " ++ values.rep_text rep) }
{
    let rep = rep_text(alloc, rep)?;
    format!(in alloc; "cleaned {rep}")
}

fn took_text(alloc: Global, count: u64) -> Result<String, AllocError>
    ensures { IfOk result (λ text. string_bytes text ≡ codes "took " ++ decimal count) }
{
    format!(in alloc; "took {count}")
}

fn opened_text(alloc: Global, number: u32) -> Result<String, AllocError>
    ensures { IfOk result (λ text. string_bytes text ≡ codes "opened " ++ decimal number) }
{
    format!(in alloc; "opened {number}")
}
