//! Random events and steps.

ghost use Rattle.std.specs.Prelude.{◌≡◌, ◌+◌, ℕ, IfOk};
ghost use Rattle.nob_model_types.specs.declared.event.Event.TheVariants as events;
ghost use Rattle.nob_rounds.specs.Choices as spec;

use crate::Words;
use crate::choices::{random_object, random_outcome, random_space, random_value};
use crate::known::Known;
use crate::sessions::SessionEnd;
use nob_ids::{CallNo, JobNo, SpaceId, WireRep};
use nob_model_types::{Event, WorldStep};
use std::alloc::{AllocError, Global};

// The number of newest frames that are mostly delivered.
const LAST_FRAMES: u64 = 12;

// The method that is called.
const METHOD: u16 = 1;

// What is called: an object, or the agent of a space.
fn random_target(words: &mut Words, n: u16, rep: &WireRep) -> WireRep
    ensures target { result ≡ spec.target_at n rep.now words.old.x }
    ensures row { words.new.x ≡ spec.later (spec.words_of_target words.old.x) words.old.x }
{
    if words.below(2) == 0 {
        return *rep;
    }
    let owner = random_space(words, n);
    WireRep { owner, index: 0 }
}

// A call of an object, or of the agent of a space.
#[tactic(auto, unfolding(crate::specs::Choices::call_at))]
fn random_call(
    alloc: Global,
    words: &mut Words,
    known: &Known,
    rep: &WireRep,
) -> Result<Event, AllocError>
    ensures { IfOk result (λ event. event
        ≡ spec.call_at known.now.n known.now.objects.items rep.now words.old.x) }
{
    let target = random_target(words, known.n, rep);
    let value = random_value(alloc, words, known.objects.as_slice())?;
    Ok(Event::Call {
        target,
        method: METHOD,
        value,
    })
}

// A tick of the session with a peer, now and then its close, or that it is opened anew.
#[tactic(auto, unfolding(crate::specs::Choices::end_at))]
fn random_end(words: &mut Words, peer: SpaceId) -> Event
    ensures { result ≡ spec.end_at peer words.old.x }
{
    let word = words.below(16);
    if word <= 3 {
        return Event::Close(peer);
    }
    if word <= 5 {
        return Event::Open(peer);
    }
    Event::Tick(peer)
}

// The end of a job.
fn random_finish(alloc: Global, words: &mut Words, known: &Known) -> Result<Event, AllocError>
    ensures { IfOk result (λ event. event
        ≡ events.Finish (spec.word 1 known.now.jobs words.old.x + 1)
        (spec.outcome_at known.now.objects.items (spec.later 1 words.old.x))) }
{
    let job = JobNo::new(words.below(known.jobs).saturating_add(1));
    let outcome = random_outcome(alloc, words, known.objects.as_slice())?;
    Ok(Event::Finish(job, outcome))
}

// What a space is asked about a peer and an object, by the word of this kind.
#[tactic(auto, unfolding(crate::specs::Choices::later_event))]
fn later_event(words: &mut Words, word: u64, peer: SpaceId, rep: &WireRep) -> Event
    ensures { (x : ℕ) → word ≡ spec.word 1 32 x → words.old.x ≡ spec.later 1 x
        → result ≡ spec.later_event peer rep.now x }
{
    if word <= 20 {
        return Event::Act(peer);
    }
    if word <= 22 {
        return Event::Settle;
    }
    if word <= 23 {
        return Event::Clean;
    }
    if word <= 24 {
        return Event::Withdraw(rep.index);
    }
    if word <= 30 {
        return Event::Transmit(peer);
    }
    random_end(words, peer)
}

// What a space is asked about a peer and an object.
#[tactic(auto, unfolding(crate::specs::Choices::event_about))]
fn event_about(
    alloc: Global,
    words: &mut Words,
    known: &Known,
    peer: SpaceId,
    rep: &WireRep,
) -> Result<Event, AllocError>
    ensures { IfOk result (λ event. event
        ≡ spec.event_about known.now.n known.now.objects.items known.now.calls known.now.jobs
        peer rep.now words.old.x) }
{
    let word = words.below(32);
    if word <= 1 {
        return Ok(Event::Export);
    }
    if word <= 2 {
        return Ok(Event::Dup(*rep));
    }
    if word <= 5 {
        return Ok(Event::Release(*rep));
    }
    if word <= 9 {
        return random_call(alloc, words, known, rep);
    }
    if word <= 10 {
        let call = words.below(known.calls).saturating_add(1);
        return Ok(Event::TakeReply(CallNo::new(call)));
    }
    if word <= 12 {
        return Ok(Event::Claim);
    }
    if word <= 14 {
        return random_finish(alloc, words, known);
    }
    Ok(later_event(words, word, peer, rep))
}

/// What a space is asked. Only memory fails it.
#[tactic(auto, unfolding(crate::specs::Choices::event_at))]
pub fn random_event(alloc: Global, words: &mut Words, known: &Known) -> Result<Event, AllocError>
    ensures { IfOk result (λ event. event
        ≡ spec.event_at known.now.n known.now.objects.items known.now.calls known.now.jobs
        words.old.x) }
{
    let peer = random_space(words, known.n);
    let rep = random_object(words, known.objects.as_slice());
    event_about(alloc, words, known, peer, &rep)
}

// Among how many of the last frames one is chosen.
fn frames_reached(count: u64, word: u64) -> u64
    ensures { result ≡ spec.frames_reached count word }
{
    if word == 0 {
        return count;
    }
    if count <= LAST_FRAMES {
        return count;
    }
    LAST_FRAMES
}

// One of the ends that have closed, seldom, if there is one.
fn random_closed(words: &mut Words, closed: &[SessionEnd]) -> Option<SessionEnd>
    ensures end { result ≡ spec.closed_at closed.now words.old.x }
    ensures row { words.new.x ≡ spec.later 2 words.old.x }
{
    let seldom = words.below(8);
    let place = words.below(closed.len() as u64);
    if seldom != 0 {
        return None;
    }
    match closed.get(place as usize) {
        Some(end) => Some(*end),
        None => None,
    }
}

// A step that delivers nothing: an end is opened anew, if there is one, or a space is asked
// something.
fn random_asking(
    alloc: Global,
    words: &mut Words,
    known: &Known,
    end: Option<SessionEnd>,
) -> Result<WorldStep, AllocError>
    ensures { IfOk result (λ step. step
        ≡ spec.asking_at known.now.n known.now.objects.items known.now.calls known.now.jobs
        end words.old.x) }
{
    if let Some(end) = end {
        return Ok(WorldStep::Do(end.space, Event::Open(end.peer)));
    }
    let space = random_space(words, known.n);
    Ok(WorldStep::Do(space, random_event(alloc, words, known)?))
}

// A step that delivers nothing, by whether an end that has closed is opened anew.
fn random_other(alloc: Global, words: &mut Words, known: &Known) -> Result<WorldStep, AllocError>
    ensures { IfOk result (λ step. step
        ≡ spec.asking_at known.now.n known.now.objects.items known.now.calls known.now.jobs
        (spec.closed_at known.now.closed.items words.old.x) (spec.later 2 words.old.x)) }
{
    let end = random_closed(words, known.closed.as_slice());
    random_asking(alloc, words, known, end)
}

/// A step, where so many frames were transmitted: one of three delivers a frame, mostly one of the
/// last, and of the others one of eight opens an end anew that has closed. Only memory fails it.
#[tactic(auto, unfolding(crate::specs::Choices::step_at))]
pub fn random_step(
    alloc: Global,
    words: &mut Words,
    known: &Known,
    frames: u64,
) -> Result<WorldStep, AllocError>
    ensures { IfOk result (λ step. step
        ≡ spec.step_at known.now.n known.now.objects.items known.now.calls known.now.jobs
        frames known.now.closed.items words.old.x) }
{
    let word = words.below(3);
    if word == 0 && frames >= 1 {
        let seldom = words.below(8);
        let behind = words.below(frames_reached(frames, seldom));
        return Ok(WorldStep::Deliver(frames.saturating_sub(behind)));
    }
    random_other(alloc, words, known)
}
