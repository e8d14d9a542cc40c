//! What an event may have made possible.

ghost use Rattle.std.specs.Prelude.{◌≡◌, ◌↔◌, ◌⊎◌, ◌&&◌, ◌||◌, true};
ghost use Rattle.nob_ids.specs.Names.{IsSpace};
ghost use Rattle.nob_model.specs.Next as next;
ghost use Rattle.nob_kept.specs.Accounts as accounts;
ghost use Rattle.nob_kept.specs.Kinds as kinds;
ghost use Rattle.nob_keeper.specs.Waking as waking;

use nob_ids::SpaceId;
use nob_kept::{Due, Kept};
use nob_model_types::{Answer, Event};

/// What an answered event may have made possible that wasn't.
#[derive(Clone, Copy, Debug, PartialEq, Eq)]
pub struct Wakes {
    /// There may be more to transmit.
    pub send: bool,
    /// There may be more to settle, to clean or to withdraw.
    pub care: bool,
    /// There may be a job more to claim.
    pub claim: bool,
    /// A reply may be ready.
    pub reply: bool,
}

/// What an event made possible or left possible, read under the lock under which it happened.
#[derive(Clone, Copy, Debug, PartialEq, Eq)]
pub struct Prospects {
    /// Whether there is something new to transmit, and the event may have made it so.
    pub send: bool,
    /// Whether there is something to settle, to clean or to withdraw, and the event may have made it
    /// so.
    pub care: bool,
    /// Whether there is a job to claim, and the event may have made it so.
    pub claim: bool,
}

/// What an answered event may have made possible. A refused one changed nothing.
pub fn wakes_of(event: &Event, answer: &Answer) -> Wakes
    ensures { result ≡ waking.wakes_of event.now answer.now }
{
    Wakes {
        send: may_send(event, answer),
        care: may_care(event, answer),
        claim: may_claim(event, answer),
        reply: may_reply(event),
    }
}

/// Whether what a Transmit would give was never given before.
pub fn is_new(due: Due) -> bool
    ensures { result ≡ waking.is_new due }
{
    match due {
        Due::New => true,
        Due::Close => true,
        _ => false,
    }
}

// Whether an answer says that a session closed.
fn is_closing(answer: &Answer) -> bool
    ensures { result ≡ kinds.is_closing answer.now }
{
    match answer {
        Answer::Closed(_) => true,
        _ => false,
    }
}

// Whether there may be more to transmit.
fn may_send(event: &Event, answer: &Answer) -> bool
    ensures { result ≡ waking.may_send event.now answer.now }
{
    match event {
        Event::Call { .. } => true,
        Event::Finish(..) => true,
        Event::Act(_) => true,
        Event::Settle => true,
        Event::Clean => true,
        Event::Arrive(_) => true,
        Event::Tick(_) => is_closing(answer),
        Event::Close(_) => true,
        _ => false,
    }
}

// Whether there may be more to settle, to clean or to withdraw.
fn may_care(event: &Event, answer: &Answer) -> bool
    ensures { result ≡ waking.may_care event.now answer.now }
{
    match event {
        Event::Release(_) => true,
        Event::TakeReply(_) => true,
        Event::Finish(..) => true,
        Event::Act(_) => true,
        Event::Settle => true,
        Event::Arrive(_) => is_closing(answer),
        Event::Tick(_) => is_closing(answer),
        Event::Close(_) => true,
        _ => false,
    }
}

// Whether there may be a job more to claim.
fn may_claim(event: &Event, answer: &Answer) -> bool
    ensures { result ≡ waking.may_claim event.now answer.now }
{
    match event {
        Event::Finish(..) => true,
        Event::Act(_) => true,
        Event::Settle => true,
        Event::Arrive(_) => is_closing(answer),
        Event::Tick(_) => is_closing(answer),
        Event::Close(_) => true,
        _ => false,
    }
}

// Whether a reply may be ready that wasn't.
fn may_reply(event: &Event) -> bool
    ensures { result ≡ waking.may_reply event.now }
{
    match event {
        Event::Act(_) => true,
        Event::Settle => true,
        Event::Arrive(_) => true,
        Event::Tick(_) => true,
        Event::Close(_) => true,
        _ => false,
    }
}

// What there is of what an event may have made possible. Where the trace is full, all that may: who
// goes on with it sees so. A few look-ups, and one for each space until there is something new.
pub(crate) fn prospects_of(kept: &Kept, wakes: Wakes) -> Prospects
    ensures send { (result.send ≡ true) ↔ ((wakes.send ≡ true)
        × ((accounts.is_full kept.now ≡ true) ⊎ waking.HasNew kept.now)) }
    ensures care { result.care ≡ (wakes.care && (accounts.is_full kept.now
        || waking.can_care kept.now.id kept.now.n (accounts.history_in kept.now))) }
    ensures claim { result.claim ≡ (wakes.claim && (accounts.is_full kept.now
        || next.can_claim (accounts.history_in kept.now))) }
{
    let is_full = kept.is_full();
    Prospects {
        send: wakes.send && (is_full || has_new(kept)),
        care: wakes.care && (is_full || can_care(kept)),
        claim: wakes.claim && (is_full || kept.can_claim()),
    }
}

// Whether there is something to settle, to clean or to withdraw. It costs what `Space::can_settle`,
// `can_clean` and `to_withdraw` cost.
pub(crate) fn can_care(kept: &Kept) -> bool
    ensures { result ≡ waking.can_care kept.now.id kept.now.n (accounts.history_in kept.now) }
{
    kept.can_settle() || kept.can_clean() || kept.to_withdraw().is_some()
}

// Whether a Transmit to some space would give something that was never given.
fn has_new(kept: &Kept) -> bool
    ensures { (result ≡ true) ↔ waking.HasNew kept.now }
{
    for number in 1..=kept.n().get() {
        if is_new_to(kept, number) {
            return true;
        }
    }
    false
}

// Whether a Transmit to the space of a number would give something that was never given.
fn is_new_to(kept: &Kept, number: u16) -> bool
    requires { IsSpace number }
    ensures { result ≡ waking.is_new_to kept.now number }
{
    match SpaceId::new(number) {
        Some(peer) => is_new(kept.due(peer)),
        None => false,
    }
}
