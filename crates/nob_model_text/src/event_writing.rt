//! Events to texts.

ghost use Rattle.std.specs.Prelude.{◌≡◌, ◌++◌, ◌∷◌, codes, IfOk};
ghost use Rattle.std.specs.String.{string_bytes};
ghost use Rattle.std.specs.Fmt.{decimal};
ghost use Rattle.nob_model_types.specs.declared.event.Event.TheVariants as events;
ghost use Rattle.nob_model_text.specs.Values as values;
ghost use Rattle.nob_model_text.specs.Events as spec;

use crate::value_writing::{rep_text, value_text};
use nob_ids::{JobNo, WireRep};
use nob_model_types::{Event, Outcome};
use nob_pickle::Value;
use std::alloc::{AllocError, Global};

/// The text of an event, where the bytes of a frame that arrives are written so. Only memory fails
/// it. It recurses once for each level of a value.
pub fn event_text(alloc: Global, event: &Event, bytes: &str) -> Result<String, AllocError>
    ensures { IfOk result (λ text. string_bytes text ≡ spec.event_text bytes.now event.now) }
{
    match event {
        Event::Export => String::from_str(alloc, "export"),
        Event::Dup(rep) => about_rep(alloc, "dup ", *rep),
        Event::Release(rep) => about_rep(alloc, "release ", *rep),
        Event::Call {
            target,
            method,
            value,
        } => call_text(alloc, *target, *method, value),
        Event::TakeReply(call) => about_number(alloc, "take ", call.get()),
        Event::Claim => String::from_str(alloc, "claim"),
        Event::Finish(job, outcome) => finish_text(alloc, *job, outcome),
        Event::Act(peer) => about_number(alloc, "act ", peer.get() as u64),
        Event::Settle => String::from_str(alloc, "settle"),
        Event::Clean => String::from_str(alloc, "clean"),
        Event::Withdraw(index) => about_number(alloc, "withdraw ", *index),
        Event::Transmit(peer) => about_number(alloc, "send ", peer.get() as u64),
        Event::Arrive(_) => arrive_text(alloc, bytes),
        Event::Tick(peer) => about_number(alloc, "tick ", peer.get() as u64),
        Event::Close(peer) => about_number(alloc, "close ", peer.get() as u64),
        Event::Open(peer) => about_number(alloc, "open ", peer.get() as u64),
    }
}

// A word and a reference.
fn about_rep(alloc: Global, word: &str, rep: WireRep) -> Result<String, AllocError>
    ensures { IfOk result (λ text. string_bytes text ≡ word.now ++ values.rep_text rep) }
{
    let rep = rep_text(alloc, rep)?;
    format!(in alloc; "{word}{rep}")
}

// A word and a number.
fn about_number(alloc: Global, word: &str, number: u64) -> Result<String, AllocError>
    ensures { IfOk result (λ text. string_bytes text ≡ word.now ++ decimal number) }
{
    format!(in alloc; "{word}{number}")
}

fn call_text(
    alloc: Global,
    target: WireRep,
    method: u16,
    value: &Value,
) -> Result<String, AllocError>
    ensures { IfOk result (λ text. string_bytes text
        ≡ codes "call " ++ (values.rep_text target ++ 32 ∷
        (decimal method ++ 32 ∷ values.value_text value.now))) }
{
    let target = rep_text(alloc, target)?;
    let value = value_text(alloc, value)?;
    format!(in alloc; "call {target} {method} {value}")
}

fn arrive_text(alloc: Global, bytes: &str) -> Result<String, AllocError>
    ensures { IfOk result (λ text. string_bytes text ≡ codes "arrive " ++ bytes.now) }
{
    format!(in alloc; "arrive {bytes}")
}

fn finish_text(alloc: Global, job: JobNo, outcome: &Outcome) -> Result<String, AllocError>
    ensures { IfOk result (λ text. string_bytes text
        ≡ codes "finish " ++ (decimal job ++ 32 ∷ spec.outcome_text outcome.now)) }
{
    let job = job.get();
    let outcome = outcome_text(alloc, outcome)?;
    format!(in alloc; "finish {job} {outcome}")
}

fn outcome_text(alloc: Global, outcome: &Outcome) -> Result<String, AllocError>
    ensures { IfOk result (λ text. string_bytes text ≡ spec.outcome_text outcome.now) }
{
    match outcome {
        Outcome::Answer(value) => valued_text(alloc, "answer ", value),
        Outcome::Fault(value) => valued_text(alloc, "fault ", value),
        Outcome::NoMethod => String::from_str(alloc, "nomethod"),
    }
}

// A word and a value.
fn valued_text(alloc: Global, word: &str, value: &Value) -> Result<String, AllocError>
    ensures { IfOk result (λ text. string_bytes text ≡ word.now ++ values.value_text value.now) }
{
    let value = value_text(alloc, value)?;
    format!(in alloc; "{word}{value}")
}
