//! Texts of scripts to events, by their first letters.

ghost use Rattle.std.specs.Prelude.{◌≡◌, ◌++◌, ◌∷◌, [], ℕ, List, Some, IfOk, IfSome, codes};
ghost use Rattle.nob_ids.specs.declared.wire_rep.WireRep.{WireRep as RepOf};
ghost use Rattle.nob_pickle.specs.declared.value.Value.{Value as ValueOf};
ghost use Rattle.nob_model_types.specs.declared.event.Event.{Event as EventOf};
ghost use Rattle.nob_model_types.specs.declared.event.Outcome.{Outcome as OutcomeOf};
ghost use Rattle.nob_model_text.specs.Events.{IsSpoken, event_text};
ghost use Rattle.nob_model_reading.specs.Spoken.{Speaks, ReadsSpoken};

use crate::outcomes::{call_of, finish_of};
use crate::parts::{whole_number, whole_rep, whole_space};
use nob_ids::CallNo;
use nob_model_text::Unread;
use nob_model_types::Event;
use std::alloc::{AllocError, Global};

/// The event that a text of a script spells: `None` where it spells none, as an arrival's, which no
/// script has. Only memory fails it. It recurses once for each level of a value.
pub fn event_of(alloc: Global, text: &[u8]) -> Result<Option<Event>, AllocError>
    ensures found { IfOk result (λ r. IfSome r (λ event. Speaks text.now event)) }
    ensures only { IfOk result (λ r. (event : EventOf) → IsSpoken event
        → text.now ≡ event_text [] event → r ≡ Some event) }
{
    match whole_event(alloc, text) {
        Ok(event) => Ok(Some(event)),
        Err(Unread::NoText) => Ok(None),
        Err(Unread::OutOfMemory) => Err(AllocError),
    }
}

/// The same, where a text that spells none is an error.
pub fn whole_event(alloc: Global, text: &[u8]) -> Result<Event, Unread>
    ensures found { IfOk result (λ event. Speaks text.now event) }
    ensures only { (event : EventOf) → ReadsSpoken text.now result event }
{
    match text {
        [first, rest @ ..] => event_by(alloc, *first, rest),
        [] => Err(Unread::NoText),
    }
}

// The same behind its first letter.
fn event_by(alloc: Global, first: u8, text: &[u8]) -> Result<Event, Unread>
    ensures found { IfOk result (λ event. Speaks (first ∷ text.now) event) }
    ensures export { ReadsSpoken (first ∷ text.now) result Event.Export }
    ensures dup { (rep : RepOf) → ReadsSpoken (first ∷ text.now) result (Event.Dup rep) }
    ensures release { (rep : RepOf) → ReadsSpoken (first ∷ text.now) result (Event.Release rep) }
    ensures call { (target : RepOf) (method : ℕ) (value : ValueOf)
        → ReadsSpoken (first ∷ text.now) result (Event.Call target method value) }
    ensures take { (call : ℕ) → ReadsSpoken (first ∷ text.now) result (Event.TakeReply call) }
    ensures claim { ReadsSpoken (first ∷ text.now) result Event.Claim }
    ensures finish { (job : ℕ) (outcome : OutcomeOf)
        → ReadsSpoken (first ∷ text.now) result (Event.Finish job outcome) }
    ensures act { (peer : ℕ) → ReadsSpoken (first ∷ text.now) result (Event.Act peer) }
    ensures settle { ReadsSpoken (first ∷ text.now) result Event.Settle }
    ensures clean { ReadsSpoken (first ∷ text.now) result Event.Clean }
    ensures withdraw { (index : ℕ) → ReadsSpoken (first ∷ text.now) result (Event.Withdraw index) }
    ensures send { (peer : ℕ) → ReadsSpoken (first ∷ text.now) result (Event.Transmit peer) }
    ensures tick { (peer : ℕ) → ReadsSpoken (first ∷ text.now) result (Event.Tick peer) }
    ensures close { (peer : ℕ) → ReadsSpoken (first ∷ text.now) result (Event.Close peer) }
    ensures open { (peer : ℕ) → ReadsSpoken (first ∷ text.now) result (Event.Open peer) }
{
    match first {
        b'a' => act_event(alloc, text),
        b'c' => c_event(alloc, text),
        b'd' => dup_event(alloc, text),
        b'e' => export_event(text),
        b'f' => finish_event(alloc, text),
        b'o' => open_event(alloc, text),
        b'r' => release_event(alloc, text),
        b's' => s_event(alloc, text),
        b't' => t_event(alloc, text),
        b'w' => withdraw_event(alloc, text),
        _ => Err(Unread::NoText),
    }
}

// An Act, behind the first letter of its word.
fn act_event(alloc: Global, text: &[u8]) -> Result<Event, Unread>
    ensures found { IfOk result (λ event. Speaks (97 ∷ text.now) event) }
    ensures act { (peer : ℕ) → ReadsSpoken (97 ∷ text.now) result (Event.Act peer) }
{
    match text {
        [b'c', b't', b' ', rest @ ..] => Ok(Event::Act(whole_space(alloc, rest)?)),
        _ => Err(Unread::NoText),
    }
}

// A Call, a Claim, a Clean or a Close, behind the first letter of its word.
fn c_event(alloc: Global, text: &[u8]) -> Result<Event, Unread>
    ensures found { IfOk result (λ event. Speaks (99 ∷ text.now) event) }
    ensures call { (target : RepOf) (method : ℕ) (value : ValueOf)
        → ReadsSpoken (99 ∷ text.now) result (Event.Call target method value) }
    ensures claim { ReadsSpoken (99 ∷ text.now) result Event.Claim }
    ensures clean { ReadsSpoken (99 ∷ text.now) result Event.Clean }
    ensures close { (peer : ℕ) → ReadsSpoken (99 ∷ text.now) result (Event.Close peer) }
{
    match text {
        [b'a', b'l', b'l', b' ', rest @ ..] => call_of(alloc, rest),
        [b'l', rest @ ..] => cl_event(alloc, rest),
        _ => Err(Unread::NoText),
    }
}

// A Claim, a Clean or a Close, behind the first two letters of its word.
fn cl_event(alloc: Global, text: &[u8]) -> Result<Event, Unread>
    ensures found { IfOk result (λ event. Speaks (99 ∷ 108 ∷ text.now) event) }
    ensures claim { ReadsSpoken (99 ∷ 108 ∷ text.now) result Event.Claim }
    ensures clean { ReadsSpoken (99 ∷ 108 ∷ text.now) result Event.Clean }
    ensures close { (peer : ℕ) → ReadsSpoken (99 ∷ 108 ∷ text.now) result (Event.Close peer) }
{
    match text {
        b"aim" => Ok(Event::Claim),
        b"ean" => Ok(Event::Clean),
        [b'o', b's', b'e', b' ', rest @ ..] => Ok(Event::Close(whole_space(alloc, rest)?)),
        _ => Err(Unread::NoText),
    }
}

// A Dup, behind the first letter of its word.
fn dup_event(alloc: Global, text: &[u8]) -> Result<Event, Unread>
    ensures found { IfOk result (λ event. Speaks (100 ∷ text.now) event) }
    ensures dup { (rep : RepOf) → ReadsSpoken (100 ∷ text.now) result (Event.Dup rep) }
{
    match text {
        [b'u', b'p', b' ', rest @ ..] => Ok(Event::Dup(whole_rep(alloc, rest)?)),
        _ => Err(Unread::NoText),
    }
}

// An Export, behind the first letter of its word.
fn export_event(text: &[u8]) -> Result<Event, Unread>
    ensures found { IfOk result (λ event. Speaks (101 ∷ text.now) event) }
    ensures export { ReadsSpoken (101 ∷ text.now) result Event.Export }
{
    match text {
        b"xport" => Ok(Event::Export),
        _ => Err(Unread::NoText),
    }
}

// A Finish, behind the first letter of its word.
fn finish_event(alloc: Global, text: &[u8]) -> Result<Event, Unread>
    ensures found { IfOk result (λ event. Speaks (102 ∷ text.now) event) }
    ensures finish { (job : ℕ) (outcome : OutcomeOf)
        → ReadsSpoken (102 ∷ text.now) result (Event.Finish job outcome) }
{
    match text {
        [b'i', b'n', b'i', b's', b'h', b' ', rest @ ..] => finish_of(alloc, rest),
        _ => Err(Unread::NoText),
    }
}

// An Open, behind the first letter of its word.
fn open_event(alloc: Global, text: &[u8]) -> Result<Event, Unread>
    ensures found { IfOk result (λ event. Speaks (111 ∷ text.now) event) }
    ensures open { (peer : ℕ) → ReadsSpoken (111 ∷ text.now) result (Event.Open peer) }
{
    match text {
        [b'p', b'e', b'n', b' ', rest @ ..] => Ok(Event::Open(whole_space(alloc, rest)?)),
        _ => Err(Unread::NoText),
    }
}

// A Release, behind the first letter of its word.
fn release_event(alloc: Global, text: &[u8]) -> Result<Event, Unread>
    ensures found { IfOk result (λ event. Speaks (114 ∷ text.now) event) }
    ensures release { (rep : RepOf) → ReadsSpoken (114 ∷ text.now) result (Event.Release rep) }
{
    match text {
        [b'e', b'l', b'e', b'a', b's', b'e', b' ', rest @ ..] => Ok(Event::Release(whole_rep(
            alloc, rest,
        )?)),
        _ => Err(Unread::NoText),
    }
}

// A Settle or a Transmit, behind the first letter of its word.
fn s_event(alloc: Global, text: &[u8]) -> Result<Event, Unread>
    ensures found { IfOk result (λ event. Speaks (115 ∷ text.now) event) }
    ensures settle { ReadsSpoken (115 ∷ text.now) result Event.Settle }
    ensures send { (peer : ℕ) → ReadsSpoken (115 ∷ text.now) result (Event.Transmit peer) }
{
    match text {
        b"ettle" => Ok(Event::Settle),
        [b'e', b'n', b'd', b' ', rest @ ..] => Ok(Event::Transmit(whole_space(alloc, rest)?)),
        _ => Err(Unread::NoText),
    }
}

// A TakeReply or a Tick, behind the first letter of its word.
fn t_event(alloc: Global, text: &[u8]) -> Result<Event, Unread>
    ensures found { IfOk result (λ event. Speaks (116 ∷ text.now) event) }
    ensures take { (call : ℕ) → ReadsSpoken (116 ∷ text.now) result (Event.TakeReply call) }
    ensures tick { (peer : ℕ) → ReadsSpoken (116 ∷ text.now) result (Event.Tick peer) }
{
    match text {
        [b'a', b'k', b'e', b' ', rest @ ..] => Ok(Event::TakeReply(CallNo::new(whole_number(
            alloc, rest,
        )?))),
        [b'i', b'c', b'k', b' ', rest @ ..] => Ok(Event::Tick(whole_space(alloc, rest)?)),
        _ => Err(Unread::NoText),
    }
}

// A Withdraw, behind the first letter of its word.
fn withdraw_event(alloc: Global, text: &[u8]) -> Result<Event, Unread>
    ensures found { IfOk result (λ event. Speaks (119 ∷ text.now) event) }
    ensures withdraw { (index : ℕ) → ReadsSpoken (119 ∷ text.now) result (Event.Withdraw index) }
{
    match text {
        [b'i', b't', b'h', b'd', b'r', b'a', b'w', b' ', rest @ ..] => Ok(Event::Withdraw(
            whole_number(alloc, rest)?,
        )),
        _ => Err(Unread::NoText),
    }
}
