//! Lines of world scripts to what they say.

ghost use Rattle.std.specs.Prelude.{◌≡◌, ◌++◌, ◌∷◌, [], ℕ, List, Some, None, IfOk, IfSome, MatchOption, codes};
ghost use Rattle.std.specs.Fmt.{decimal};
ghost use Rattle.nob_ids.specs.declared.limits.Limits.{Limits as LimitsOf};
ghost use Rattle.nob_model_types.specs.declared.event.Event.{Event as EventOf};
ghost use Rattle.nob_model_types.specs.declared.entry.WorldStep.{WorldStep as StepOf};
ghost use Rattle.nob_model_text.specs.Fronts.{Stops};
ghost use Rattle.nob_model_text.specs.Reading.{Reads};
ghost use Rattle.nob_model_reading.specs.declared.opening.Opening.{Opening as OpeningOf};
ghost use Rattle.nob_model_reading.specs.Scripts as spec;

use crate::event_reading::whole_event;
use crate::opening::Opening;
use crate::parts::{after, after_space, whole_number};
use nob_ids::Limits;
use nob_model_text::{Unread, number_at, space_of};
use nob_model_types::WorldStep;
use std::alloc::{AllocError, Global};

/// What a first line says: `None` where it spells nothing. Only memory fails it.
pub fn opening_of(alloc: Global, line: &[u8]) -> Result<Option<Opening>, AllocError>
    ensures found { IfOk result (λ r. IfSome r
        (λ opening. spec.IsOpening opening × (line.now ≡ spec.opening_text opening))) }
    ensures only { IfOk result (λ r. (opening : OpeningOf) → spec.IsOpening opening
        → line.now ≡ spec.opening_text opening → r ≡ Some opening) }
{
    match whole_opening(alloc, line) {
        Ok(opening) => Ok(Some(opening)),
        Err(Unread::NoText) => Ok(None),
        Err(Unread::OutOfMemory) => Err(AllocError),
    }
}

// The same, where a line that spells none is an error.
fn whole_opening(alloc: Global, line: &[u8]) -> Result<Opening, Unread>
    ensures found { IfOk result (λ opening. spec.IsOpening opening
        × (line.now ≡ spec.opening_text opening)) }
    ensures only { (opening : OpeningOf) → spec.IsOpening opening
        → line.now ≡ spec.opening_text opening → Reads (λ o. o ≡ opening) result }
{
    let (n, behind) = number_at(alloc, after(line, b"spaces ")?)?;
    let Some(n) = space_of(n) else {
        return Err(Unread::NoText);
    };
    if behind.is_empty() {
        return Ok(Opening { n, limits: None });
    }
    let (limits, rest) = limits_at(alloc, behind)?;
    if !rest.is_empty() {
        return Err(Unread::NoText);
    }
    Ok(Opening {
        n,
        limits: Some(limits),
    })
}

/// The limits at the front of a text, behind the words that announce them, and what is left. Only
/// memory and a text that begins otherwise fail it.
pub fn limits_at(alloc: Global, text: &[u8]) -> Result<(Limits, &[u8]), Unread>
    ensures found { IfOk result (λ parts. spec.AreLimits parts.0
        × (text.now ≡ spec.limits_text parts.0 parts.1.now)) }
    ensures only { (limits : LimitsOf) (rest : List ℕ) → spec.AreLimits limits → Stops rest
        → text.now ≡ spec.limits_text limits rest
        → Reads (λ parts. (parts.0 ≡ limits) × (parts.1.now ≡ rest)) result }
{
    let (window, behind) = number_at(alloc, after(text, b" window ")?)?;
    let (retry, rest) = number_at(alloc, after(behind, b" retry ")?)?;
    match Limits::new(window, retry) {
        Some(limits) => Ok((limits, rest)),
        None => Err(Unread::NoText),
    }
}

/// The step that a line spells: `None` where it spells none. Only memory fails it. It recurses once
/// for each level of a value.
pub fn step_of(alloc: Global, line: &[u8]) -> Result<Option<WorldStep>, AllocError>
    ensures found { IfOk result (λ r. IfSome r
        (λ step. spec.IsStep step × (line.now ≡ spec.step_text step))) }
    ensures only { IfOk result (λ r. (step : StepOf) → spec.IsStep step
        → line.now ≡ spec.step_text step → r ≡ Some step) }
{
    match whole_step(alloc, line) {
        Ok(step) => Ok(Some(step)),
        Err(Unread::NoText) => Ok(None),
        Err(Unread::OutOfMemory) => Err(AllocError),
    }
}

// The same, where a line that spells none is an error.
fn whole_step(alloc: Global, line: &[u8]) -> Result<WorldStep, Unread>
    ensures found { IfOk result (λ step. spec.IsStep step × (line.now ≡ spec.step_text step)) }
    ensures only { (step : StepOf) → spec.IsStep step → line.now ≡ spec.step_text step
        → Reads (λ s. s ≡ step) result }
{
    match after_deliver(line) {
        Some(rest) => delivery_of(alloc, rest),
        None => deed_of(alloc, line),
    }
}

// What follows the word of a delivery with which a line begins.
fn after_deliver(line: &[u8]) -> Option<&[u8]>
    ensures { MatchOption result ((rest : List ℕ) → line.now ≡ codes "deliver " ++ rest → ⊥)
        (λ rest. line.now ≡ codes "deliver " ++ rest.now) }
{
    match line {
        [b'd', b'e', b'l', b'i', b'v', b'e', b'r', b' ', rest @ ..] => Some(rest),
        _ => None,
    }
}

// The delivery whose frame's number a text spells.
fn delivery_of(alloc: Global, text: &[u8]) -> Result<WorldStep, Unread>
    ensures found { IfOk result (λ step. spec.IsStep step
        × (codes "deliver " ++ text.now ≡ spec.step_text step)) }
    ensures only { (frame : ℕ) → spec.IsStep (WorldStep.Deliver frame) → text.now ≡ decimal frame
        → Reads (λ s. s ≡ WorldStep.Deliver frame) result }
{
    Ok(WorldStep::Deliver(whole_number(alloc, text)?))
}

// The event at a space that a line spells.
fn deed_of(alloc: Global, line: &[u8]) -> Result<WorldStep, Unread>
    ensures found { IfOk result (λ step. spec.IsStep step × (line.now ≡ spec.step_text step)) }
    ensures only { (space : ℕ) (event : EventOf) → spec.IsStep (WorldStep.Do space event)
        → line.now ≡ spec.step_text (WorldStep.Do space event)
        → Reads (λ s. s ≡ WorldStep.Do space event) result }
{
    let (number, behind) = number_at(alloc, line)?;
    let Some(space) = space_of(number) else {
        return Err(Unread::NoText);
    };
    let event = whole_event(alloc, after_space(behind)?)?;
    Ok(WorldStep::Do(space, event))
}
