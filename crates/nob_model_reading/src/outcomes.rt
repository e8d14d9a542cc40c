//! Texts to what a call and the end of a job are about.

ghost use Rattle.std.specs.Prelude.{◌≡◌, ◌++◌, ◌∷◌, ◌<◌, ◌^◌, ℕ, IfOk, codes};
ghost use Rattle.std.specs.Fmt.{decimal};
ghost use Rattle.nob_ids.specs.declared.wire_rep.WireRep.{WireRep as RepOf};
ghost use Rattle.nob_pickle.specs.declared.value.Value.{Value as ValueOf};
ghost use Rattle.nob_model_types.specs.declared.event.Outcome.{Outcome as OutcomeOf};
ghost use Rattle.nob_model_text.specs.Reading.{Reads};
ghost use Rattle.nob_model_text.specs.Values as values;
ghost use Rattle.nob_model_text.specs.Events as spec;
ghost use Rattle.nob_model_reading.specs.Spoken.{Speaks};

use crate::parts::after_space;
use nob_ids::JobNo;
use nob_model_text::{Unread, number_at, rep_numbers_at, rep_of, whole_value};
use nob_model_types::{Event, Outcome};
use std::alloc::Global;

// The outcome that a text spells.
pub fn whole_outcome(alloc: Global, text: &[u8]) -> Result<Outcome, Unread>
    ensures found { IfOk result (λ outcome. spec.IsOutcome outcome
        × (text.now ≡ spec.outcome_text outcome)) }
    ensures only { (outcome : OutcomeOf) → spec.IsOutcome outcome
        → text.now ≡ spec.outcome_text outcome → Reads (λ o. o ≡ outcome) result }
{
    match text {
        b"nomethod" => Ok(Outcome::NoMethod),
        [b'a', b'n', b's', b'w', b'e', b'r', b' ', value @ ..] => Ok(Outcome::Answer(whole_value(
            alloc, value,
        )?)),
        [b'f', b'a', b'u', b'l', b't', b' ', value @ ..] => Ok(Outcome::Fault(whole_value(
            alloc, value,
        )?)),
        _ => Err(Unread::NoText),
    }
}

// The call that a text spells behind its word.
pub fn call_of(alloc: Global, text: &[u8]) -> Result<Event, Unread>
    ensures found { IfOk result (λ event. Speaks (codes "call " ++ text.now) event) }
    ensures only { (target : RepOf) (method : ℕ) (value : ValueOf) → spec.IsRep target
        → method < 2 ^ 16 → values.HasText value
        → text.now ≡ values.rep_text target ++ 32 ∷ (decimal method ++ 32 ∷ values.value_text value)
        → Reads (λ event. event ≡ Event.Call target method value) result }
{
    let (owner, index, behind) = rep_numbers_at(alloc, text)?;
    let (method, left) = number_at(alloc, after_space(behind)?)?;
    if method > 65_535 {
        return Err(Unread::NoText);
    }
    let Some(target) = rep_of(owner, index) else {
        return Err(Unread::NoText);
    };
    let value = whole_value(alloc, after_space(left)?)?;
    Ok(Event::Call {
        target,
        method: method as u16,
        value,
    })
}

// The end of a job that a text spells behind its word.
pub fn finish_of(alloc: Global, text: &[u8]) -> Result<Event, Unread>
    ensures found { IfOk result (λ event. Speaks (codes "finish " ++ text.now) event) }
    ensures only { (job : ℕ) (outcome : OutcomeOf) → job < 2 ^ 64 → spec.IsOutcome outcome
        → text.now ≡ decimal job ++ 32 ∷ spec.outcome_text outcome
        → Reads (λ event. event ≡ Event.Finish job outcome) result }
{
    let (job, behind) = number_at(alloc, text)?;
    let outcome = whole_outcome(alloc, after_space(behind)?)?;
    Ok(Event::Finish(JobNo::new(job), outcome))
}
