//! What a space is asked: the status, and what is told of its answer. The README says what the
//! numbers mean.

ghost use Rattle.std.specs.Prelude.{◌≡◌, ◌≤◌, List};
ghost use Rattle.nob_ids.specs.Names.{IsSpace};
ghost use Rattle.nob_pickle.specs.Reading.{value_read};
ghost use Rattle.nob_frame.specs.declared.version.Version.TheVariants.{Two};
ghost use Rattle.nob_frame.specs.Reading.{frame_at};
ghost use Rattle.nob_model_types.specs.declared.entry.Entry.{Entry};
ghost use Rattle.nob_model_types.specs.declared.event.Event.TheVariants as events;
ghost use Rattle.nob_model_types.specs.declared.event.Outcome.TheVariants as outcomes;
ghost use Rattle.nob_space.specs.Spaces.{StandsFor};
ghost use Rattle.nob_host_space.specs.Kept.{Through};
ghost use Rattle.nob_host_space.specs.Numbers.{is_wanted};
ghost use Rattle.nob_host_space.specs.Asked.{HostAsked, AskedBy, CameBy, SaysEmpty, Unasked, reference, right_of, answer_after};

use nob_host_space::{Handle, KEEPS_NONE, Told};
use nob_model_types::Event;
use std::alloc::Global;

/// Export: a new object, once in the hand.
#[unsafe(no_mangle)]
pub extern "C" fn nob_export(handle: &mut Handle, alloc: Global, told: &mut Told) -> u32
    ensures asked { Through handle.old.held handle.new.held (λ old new. HostAsked old
        events.Export new told.new result) }
    ensures answer { Through handle.old.held handle.new.held (λ old new. new.answer ≡ old.answer) }
    ensures empty { SaysEmpty handle.old.held handle.new.held told.new result }
{
    let Some(mut host) = handle.take(alloc) else {
        *told = Told::nothing();
        return KEEPS_NONE;
    };
    let status = host.ask(&Event::Export, told);
    handle.put(host);
    status
}

/// Dup: one more hold on a reference.
#[unsafe(no_mangle)]
pub extern "C" fn nob_dup(
    handle: &mut Handle,
    alloc: Global,
    owner: u16,
    index: u64,
    told: &mut Told,
) -> u32
    ensures asked { IsSpace owner → Through handle.old.held handle.new.held (λ old new. HostAsked
        old (events.Dup (reference owner index)) new told.new result) }
    ensures answer { Through handle.old.held handle.new.held (λ old new. new.answer ≡ old.answer) }
    ensures range { (IsSpace owner → ⊥) → Through handle.old.held handle.new.held (λ old new.
        Unasked old new told.new result 60) }
    ensures empty { SaysEmpty handle.old.held handle.new.held told.new result }
{
    let Some(mut host) = handle.take(alloc) else {
        *told = Told::nothing();
        return KEEPS_NONE;
    };
    let status = host.dup(owner, index, told);
    handle.put(host);
    status
}

/// Release: a hold is given back.
#[unsafe(no_mangle)]
pub extern "C" fn nob_release(
    handle: &mut Handle,
    alloc: Global,
    owner: u16,
    index: u64,
    told: &mut Told,
) -> u32
    ensures asked { IsSpace owner → Through handle.old.held handle.new.held (λ old new. HostAsked
        old (events.Release (reference owner index)) new told.new result) }
    ensures answer { Through handle.old.held handle.new.held (λ old new. new.answer ≡ old.answer) }
    ensures range { (IsSpace owner → ⊥) → Through handle.old.held handle.new.held (λ old new.
        Unasked old new told.new result 60) }
    ensures empty { SaysEmpty handle.old.held handle.new.held told.new result }
{
    let Some(mut host) = handle.take(alloc) else {
        *told = Told::nothing();
        return KEEPS_NONE;
    };
    let status = host.release(owner, index, told);
    handle.put(host);
    status
}

/// Call of a method with the value that a pickle spells.
#[unsafe(no_mangle)]
pub extern "C" fn nob_call(
    handle: &mut Handle,
    alloc: Global,
    owner: u16,
    index: u64,
    method: u16,
    pickle: &[u8],
    told: &mut Told,
) -> u32
    ensures asked { IsSpace owner → Through handle.old.held handle.new.held (λ old new. AskedBy
        (value_read pickle.now) (λ value. events.Call (reference owner index) method value) old new
        told.new result) }
    ensures answer { Through handle.old.held handle.new.held (λ old new. new.answer ≡ old.answer) }
    ensures range { (IsSpace owner → ⊥) → Through handle.old.held handle.new.held (λ old new.
        Unasked old new told.new result 60) }
    ensures empty { SaysEmpty handle.old.held handle.new.held told.new result }
{
    let Some(mut host) = handle.take(alloc) else {
        *told = Told::nothing();
        return KEEPS_NONE;
    };
    let status = host.call(alloc, owner, index, method, pickle, told);
    handle.put(host);
    status
}

/// TakeReply: what a call brought; its value is kept.
#[unsafe(no_mangle)]
pub extern "C" fn nob_take_reply(
    handle: &mut Handle,
    alloc: Global,
    call: u64,
    told: &mut Told,
) -> u32
    ensures asked { Through handle.old.held handle.new.held (λ old new. HostAsked old
        (events.TakeReply call) new told.new result) }
    ensures answer { Through handle.old.held handle.new.held (λ old new. new.answer ≡ old.answer) }
    ensures empty { SaysEmpty handle.old.held handle.new.held told.new result }
{
    let Some(mut host) = handle.take(alloc) else {
        *told = Told::nothing();
        return KEEPS_NONE;
    };
    let status = host.take_reply(call, told);
    handle.put(host);
    status
}

/// Claim: a job; its argument is kept.
#[unsafe(no_mangle)]
pub extern "C" fn nob_claim(handle: &mut Handle, alloc: Global, told: &mut Told) -> u32
    ensures asked { Through handle.old.held handle.new.held (λ old new. HostAsked old events.Claim
        new told.new result) }
    ensures answer { Through handle.old.held handle.new.held (λ old new. new.answer ≡ old.answer) }
    ensures empty { SaysEmpty handle.old.held handle.new.held told.new result }
{
    let Some(mut host) = handle.take(alloc) else {
        *told = Told::nothing();
        return KEEPS_NONE;
    };
    let status = host.ask(&Event::Claim, told);
    handle.put(host);
    status
}

/// Finish: the outcome of a job, 0 an answer, 1 a fault, 2 no such method.
#[unsafe(no_mangle)]
pub extern "C" fn nob_finish(
    handle: &mut Handle,
    alloc: Global,
    job: u64,
    outcome: u32,
    pickle: &[u8],
    told: &mut Told,
) -> u32
    ensures answered { outcome ≡ 0 → Through handle.old.held handle.new.held (λ old new. AskedBy
        (value_read pickle.now) (λ value. events.Finish job (outcomes.Answer value)) old new
        told.new result) }
    ensures failed { outcome ≡ 1 → Through handle.old.held handle.new.held (λ old new. AskedBy
        (value_read pickle.now) (λ value. events.Finish job (outcomes.Fault value)) old new told.new
        result) }
    ensures no_method { outcome ≡ 2 → Through handle.old.held handle.new.held (λ old new. HostAsked
        old (events.Finish job outcomes.NoMethod) new told.new result) }
    ensures range { 3 ≤ outcome → Through handle.old.held handle.new.held (λ old new. Unasked old
        new told.new result 60) }
    ensures answer { Through handle.old.held handle.new.held (λ old new. new.answer ≡ old.answer) }
    ensures empty { SaysEmpty handle.old.held handle.new.held told.new result }
{
    let Some(mut host) = handle.take(alloc) else {
        *told = Told::nothing();
        return KEEPS_NONE;
    };
    let status = host.finish(alloc, job, outcome, pickle, told);
    handle.put(host);
    status
}

/// Act on the next item of a peer.
#[unsafe(no_mangle)]
pub extern "C" fn nob_act(handle: &mut Handle, alloc: Global, peer: u16, told: &mut Told) -> u32
    ensures asked { IsSpace peer → Through handle.old.held handle.new.held (λ old new. HostAsked old
        (events.Act peer) new told.new result) }
    ensures answer { Through handle.old.held handle.new.held (λ old new. new.answer ≡ old.answer) }
    ensures range { (IsSpace peer → ⊥) → Through handle.old.held handle.new.held (λ old new. Unasked
        old new told.new result 60) }
    ensures empty { SaysEmpty handle.old.held handle.new.held told.new result }
{
    let Some(mut host) = handle.take(alloc) else {
        *told = Told::nothing();
        return KEEPS_NONE;
    };
    let status = host.act(peer, told);
    handle.put(host);
    status
}

/// Settle: a message whose references are all resolved.
#[unsafe(no_mangle)]
pub extern "C" fn nob_settle(handle: &mut Handle, alloc: Global, told: &mut Told) -> u32
    ensures asked { Through handle.old.held handle.new.held (λ old new. HostAsked old
        events.Settle new told.new result) }
    ensures answer { Through handle.old.held handle.new.held (λ old new. new.answer ≡ old.answer) }
    ensures empty { SaysEmpty handle.old.held handle.new.held told.new result }
{
    let Some(mut host) = handle.take(alloc) else {
        *told = Told::nothing();
        return KEEPS_NONE;
    };
    let status = host.ask(&Event::Settle, told);
    handle.put(host);
    status
}

/// Clean: a surrogate that nothing uses is given up.
#[unsafe(no_mangle)]
pub extern "C" fn nob_clean(handle: &mut Handle, alloc: Global, told: &mut Told) -> u32
    ensures asked { Through handle.old.held handle.new.held (λ old new. HostAsked old events.Clean
        new told.new result) }
    ensures answer { Through handle.old.held handle.new.held (λ old new. new.answer ≡ old.answer) }
    ensures empty { SaysEmpty handle.old.held handle.new.held told.new result }
{
    let Some(mut host) = handle.take(alloc) else {
        *told = Told::nothing();
        return KEEPS_NONE;
    };
    let status = host.ask(&Event::Clean, told);
    handle.put(host);
    status
}

/// Withdraw: the object of an index is live no more.
#[unsafe(no_mangle)]
pub extern "C" fn nob_withdraw(
    handle: &mut Handle,
    alloc: Global,
    index: u64,
    told: &mut Told,
) -> u32
    ensures asked { Through handle.old.held handle.new.held (λ old new. HostAsked old
        (events.Withdraw index) new told.new result) }
    ensures answer { Through handle.old.held handle.new.held (λ old new. new.answer ≡ old.answer) }
    ensures empty { SaysEmpty handle.old.held handle.new.held told.new result }
{
    let Some(mut host) = handle.take(alloc) else {
        *told = Told::nothing();
        return KEEPS_NONE;
    };
    let status = host.withdraw(index, told);
    handle.put(host);
    status
}

/// Transmit: the bytes of the frames for a peer become the answer.
#[unsafe(no_mangle)]
pub extern "C" fn nob_transmit(
    handle: &mut Handle,
    alloc: Global,
    peer: u16,
    told: &mut Told,
) -> u32
    ensures asked { IsSpace peer → Through handle.old.held handle.new.held (λ old new. HostAsked old
        (events.Transmit peer) new told.new result) }
    ensures answer { IsSpace peer → Through handle.old.held handle.new.held (λ old new. (L : List
        Entry) → StandsFor old.space L → new.answer ≡ answer_after (is_wanted result) (right_of
        old.space L (events.Transmit peer)) old.answer) }
    ensures range { (IsSpace peer → ⊥) → Through handle.old.held handle.new.held (λ old new. Unasked
        old new told.new result 60) }
    ensures empty { SaysEmpty handle.old.held handle.new.held told.new result }
{
    let Some(mut host) = handle.take(alloc) else {
        *told = Told::nothing();
        return KEEPS_NONE;
    };
    let status = host.transmit(alloc, peer, told);
    handle.put(host);
    status
}

/// Arrive: the frame that bytes spell came.
#[unsafe(no_mangle)]
pub extern "C" fn nob_arrive(
    handle: &mut Handle,
    alloc: Global,
    frame: &[u8],
    told: &mut Told,
) -> u32
    ensures came { Through handle.old.held handle.new.held (λ old new. CameBy
        (frame_at Two frame.now) old new told.new result) }
    ensures empty { SaysEmpty handle.old.held handle.new.held told.new result }
{
    let Some(mut host) = handle.take(alloc) else {
        *told = Told::nothing();
        return KEEPS_NONE;
    };
    let status = host.arrive(alloc, frame, told);
    handle.put(host);
    status
}

/// Tick: the session with a peer counts one more.
#[unsafe(no_mangle)]
pub extern "C" fn nob_tick(handle: &mut Handle, alloc: Global, peer: u16, told: &mut Told) -> u32
    ensures asked { IsSpace peer → Through handle.old.held handle.new.held (λ old new. HostAsked old
        (events.Tick peer) new told.new result) }
    ensures answer { Through handle.old.held handle.new.held (λ old new. new.answer ≡ old.answer) }
    ensures range { (IsSpace peer → ⊥) → Through handle.old.held handle.new.held (λ old new. Unasked
        old new told.new result 60) }
    ensures empty { SaysEmpty handle.old.held handle.new.held told.new result }
{
    let Some(mut host) = handle.take(alloc) else {
        *told = Told::nothing();
        return KEEPS_NONE;
    };
    let status = host.tick(peer, told);
    handle.put(host);
    status
}

/// Close: the session with a peer closes here.
#[unsafe(no_mangle)]
pub extern "C" fn nob_close(handle: &mut Handle, alloc: Global, peer: u16, told: &mut Told) -> u32
    ensures asked { IsSpace peer → Through handle.old.held handle.new.held (λ old new. HostAsked old
        (events.Close peer) new told.new result) }
    ensures answer { Through handle.old.held handle.new.held (λ old new. new.answer ≡ old.answer) }
    ensures range { (IsSpace peer → ⊥) → Through handle.old.held handle.new.held (λ old new. Unasked
        old new told.new result 60) }
    ensures empty { SaysEmpty handle.old.held handle.new.held told.new result }
{
    let Some(mut host) = handle.take(alloc) else {
        *told = Told::nothing();
        return KEEPS_NONE;
    };
    let status = host.close(peer, told);
    handle.put(host);
    status
}

/// Open: the session with a peer, which closed here, opens anew.
#[unsafe(no_mangle)]
pub extern "C" fn nob_open(handle: &mut Handle, alloc: Global, peer: u16, told: &mut Told) -> u32
    ensures asked { IsSpace peer → Through handle.old.held handle.new.held (λ old new. HostAsked old
        (events.Open peer) new told.new result) }
    ensures answer { Through handle.old.held handle.new.held (λ old new. new.answer ≡ old.answer) }
    ensures range { (IsSpace peer → ⊥) → Through handle.old.held handle.new.held (λ old new. Unasked
        old new told.new result 60) }
    ensures empty { SaysEmpty handle.old.held handle.new.held told.new result }
{
    let Some(mut host) = handle.take(alloc) else {
        *told = Told::nothing();
        return KEEPS_NONE;
    };
    let status = host.open(peer, told);
    handle.put(host);
    status
}
