//! What a space is asked, with numbers and bytes for references, peers, values and frames.

ghost use Rattle.std.specs.Prelude.{◌≡◌, ◌≤◌, List, None, Some};
ghost use Rattle.nob_ids.specs.Names.{IsSpace};
ghost use Rattle.nob_pickle.specs.declared.value.Value.{Value as ValueOf};
ghost use Rattle.nob_pickle.specs.Reading.{value_read};
ghost use Rattle.nob_pickle.specs.Writing.{pickle_of};
ghost use Rattle.nob_frame.specs.declared.version.Version.TheVariants.{Two};
ghost use Rattle.nob_frame.specs.Reading.{frame_at};
ghost use Rattle.nob_model_types.specs.declared.entry.Entry.{Entry};
ghost use Rattle.nob_model_types.specs.declared.event.Event.TheVariants as events;
ghost use Rattle.nob_model_types.specs.declared.event.Outcome.TheVariants as outcomes;
ghost use Rattle.nob_space.specs.Spaces.{StandsFor};
ghost use Rattle.nob_host_space.specs.Numbers.{is_wanted, nothing};
ghost use Rattle.nob_host_space.specs.Asked.{HostAsked, AskedBy, CameBy, Pickles, SameStreams, Unasked, reference, right_of, answer_after};

use crate::bringing::bring;
use crate::bytes::spelled_all;
use crate::host::Host;
use crate::numbers::{DONE, NO_VALUE, OUT_OF_RANGE, WANTED, frame_number, pickle_number};
use crate::told::Told;
use nob_ids::{CallNo, JobNo, SpaceId, WireRep};
use nob_model::{Event, Outcome};
use nob_pickle::{Bytes, Value};
use nob_space::SpaceError;
use std::alloc::Global;

// Nothing is told, for this status.
pub(crate) fn untold(told: &mut Told, status: u32) -> u32
    ensures status { result ≡ status }
    ensures told { told.new ≡ nothing }
{
    *told = Told::nothing();
    status
}

// The pickle of a value, in place of these bytes: the status.
fn pickle_into(alloc: Global, value: &Value, answer: &mut Bytes) -> u32
    ensures { Pickles (is_wanted result) result answer.old answer.new (pickle_of value.now) }
{
    match nob_pickle::encode(alloc, value) {
        Ok(bytes) => {
            *answer = Bytes::from_vec(bytes);
            DONE
        }
        Err(error) => pickle_number(error),
    }
}

impl Host {
    /// Dup of a reference. 60 where the owner is outside 1 to 32.
    pub fn dup(&mut self, owner: u16, index: u64, told: &mut Told) -> u32
        ensures asked { IsSpace owner → HostAsked self.old (events.Dup (reference owner index))
            self.new told.new result }
        ensures answer { self.new.answer ≡ self.old.answer }
        ensures range { (IsSpace owner → ⊥) → Unasked self.old self.new told.new result 60 }
    {
        let Some(owner) = SpaceId::new(owner) else {
            return untold(told, OUT_OF_RANGE);
        };
        self.ask(&Event::Dup(WireRep { owner, index }), told)
    }

    /// Release of a reference. 60 where the owner is outside 1 to 32.
    pub fn release(&mut self, owner: u16, index: u64, told: &mut Told) -> u32
        ensures asked { IsSpace owner → HostAsked self.old (events.Release (reference owner index))
            self.new told.new result }
        ensures answer { self.new.answer ≡ self.old.answer }
        ensures range { (IsSpace owner → ⊥) → Unasked self.old self.new told.new result 60 }
    {
        let Some(owner) = SpaceId::new(owner) else {
            return untold(told, OUT_OF_RANGE);
        };
        self.ask(&Event::Release(WireRep { owner, index }), told)
    }

    /// Call of a method with the value that a pickle spells. 60 where the owner is outside 1 to 32;
    /// then the number of the pickle's first fault.
    pub fn call(
        &mut self,
        alloc: Global,
        owner: u16,
        index: u64,
        method: u16,
        pickle: &[u8],
        told: &mut Told,
    ) -> u32
        ensures asked { IsSpace owner → AskedBy (value_read pickle.now)
            (λ value. events.Call (reference owner index) method value)
            self.old self.new told.new result }
        ensures answer { self.new.answer ≡ self.old.answer }
        ensures range { (IsSpace owner → ⊥) → Unasked self.old self.new told.new result 60 }
    {
        let Some(owner) = SpaceId::new(owner) else {
            return untold(told, OUT_OF_RANGE);
        };
        let target = WireRep { owner, index };
        match nob_pickle::decode(alloc, pickle) {
            Ok(value) => self.ask(
                &Event::Call {
                    target,
                    method,
                    value,
                },
                told,
            ),
            Err(error) => untold(told, pickle_number(error)),
        }
    }

    /// TakeReply of a call. The value of the reply is kept.
    pub fn take_reply(&mut self, call: u64, told: &mut Told) -> u32
        ensures asked { HostAsked self.old (events.TakeReply call) self.new told.new result }
        ensures answer { self.new.answer ≡ self.old.answer }
    {
        self.ask(&Event::TakeReply(CallNo::new(call)), told)
    }

    // Finish of a job that answered the value which a pickle spells. Else the number of the
    // pickle's first fault.
    fn finish_answer(&mut self, alloc: Global, job: u64, pickle: &[u8], told: &mut Told) -> u32
        ensures asked { AskedBy (value_read pickle.now)
            (λ value. events.Finish job (outcomes.Answer value)) self.old self.new told.new result }
        ensures answer { self.new.answer ≡ self.old.answer }
    {
        match nob_pickle::decode(alloc, pickle) {
            Ok(value) => {
                let outcome = Outcome::Answer(value);
                self.ask(&Event::Finish(JobNo::new(job), outcome), told)
            }
            Err(error) => untold(told, pickle_number(error)),
        }
    }

    // Finish of a job that failed with the value which a pickle spells. Else the number of the
    // pickle's first fault.
    fn finish_fault(&mut self, alloc: Global, job: u64, pickle: &[u8], told: &mut Told) -> u32
        ensures asked { AskedBy (value_read pickle.now)
            (λ value. events.Finish job (outcomes.Fault value)) self.old self.new told.new result }
        ensures answer { self.new.answer ≡ self.old.answer }
    {
        match nob_pickle::decode(alloc, pickle) {
            Ok(value) => {
                let outcome = Outcome::Fault(value);
                self.ask(&Event::Finish(JobNo::new(job), outcome), told)
            }
            Err(error) => untold(told, pickle_number(error)),
        }
    }

    // Finish of a job that has no method.
    fn finish_no_method(&mut self, job: u64, told: &mut Told) -> u32
        ensures asked { HostAsked self.old (events.Finish job outcomes.NoMethod) self.new told.new
            result }
        ensures answer { self.new.answer ≡ self.old.answer }
    {
        self.ask(&Event::Finish(JobNo::new(job), Outcome::NoMethod), told)
    }

    /// Finish of a job by its outcome: 0 an answer, 1 a fault, 2 no such method, which needs no
    /// pickle. 60 for any other.
    pub fn finish(
        &mut self,
        alloc: Global,
        job: u64,
        outcome: u32,
        pickle: &[u8],
        told: &mut Told,
    ) -> u32
        ensures answered { outcome ≡ 0 → AskedBy (value_read pickle.now)
            (λ value. events.Finish job (outcomes.Answer value)) self.old self.new told.new result }
        ensures failed { outcome ≡ 1 → AskedBy (value_read pickle.now)
            (λ value. events.Finish job (outcomes.Fault value)) self.old self.new told.new result }
        ensures no_method { outcome ≡ 2 → HostAsked self.old (events.Finish job outcomes.NoMethod)
            self.new told.new result }
        ensures range { 3 ≤ outcome → Unasked self.old self.new told.new result 60 }
        ensures answer { self.new.answer ≡ self.old.answer }
    {
        match outcome {
            0 => self.finish_answer(alloc, job, pickle, told),
            1 => self.finish_fault(alloc, job, pickle, told),
            2 => self.finish_no_method(job, told),
            _ => untold(told, OUT_OF_RANGE),
        }
    }

    /// Act on an item of a peer. 60 where the peer is outside 1 to 32.
    pub fn act(&mut self, peer: u16, told: &mut Told) -> u32
        ensures asked { IsSpace peer → HostAsked self.old (events.Act peer) self.new told.new
            result }
        ensures answer { self.new.answer ≡ self.old.answer }
        ensures range { (IsSpace peer → ⊥) → Unasked self.old self.new told.new result 60 }
    {
        let Some(peer) = SpaceId::new(peer) else {
            return untold(told, OUT_OF_RANGE);
        };
        self.ask(&Event::Act(peer), told)
    }

    /// Tick of the session with a peer. 60 where the peer is outside 1 to 32.
    pub fn tick(&mut self, peer: u16, told: &mut Told) -> u32
        ensures asked { IsSpace peer → HostAsked self.old (events.Tick peer) self.new told.new
            result }
        ensures answer { self.new.answer ≡ self.old.answer }
        ensures range { (IsSpace peer → ⊥) → Unasked self.old self.new told.new result 60 }
    {
        let Some(peer) = SpaceId::new(peer) else {
            return untold(told, OUT_OF_RANGE);
        };
        self.ask(&Event::Tick(peer), told)
    }

    /// Close of the session with a peer. 60 where the peer is outside 1 to 32.
    pub fn close(&mut self, peer: u16, told: &mut Told) -> u32
        ensures asked { IsSpace peer → HostAsked self.old (events.Close peer) self.new told.new
            result }
        ensures answer { self.new.answer ≡ self.old.answer }
        ensures range { (IsSpace peer → ⊥) → Unasked self.old self.new told.new result 60 }
    {
        let Some(peer) = SpaceId::new(peer) else {
            return untold(told, OUT_OF_RANGE);
        };
        self.ask(&Event::Close(peer), told)
    }

    /// Open of the session with a peer. 60 where the peer is outside 1 to 32.
    pub fn open(&mut self, peer: u16, told: &mut Told) -> u32
        ensures asked { IsSpace peer → HostAsked self.old (events.Open peer) self.new told.new
            result }
        ensures answer { self.new.answer ≡ self.old.answer }
        ensures range { (IsSpace peer → ⊥) → Unasked self.old self.new told.new result 60 }
    {
        let Some(peer) = SpaceId::new(peer) else {
            return untold(told, OUT_OF_RANGE);
        };
        self.ask(&Event::Open(peer), told)
    }

    /// Withdraw of the object of an index.
    pub fn withdraw(&mut self, index: u64, told: &mut Told) -> u32
        ensures asked { HostAsked self.old (events.Withdraw index) self.new told.new result }
        ensures answer { self.new.answer ≡ self.old.answer }
    {
        self.ask(&Event::Withdraw(index), told)
    }

    // Transmit to a peer, whose frames' bytes become the answer. They are made before anything
    // changes.
    fn transmit_to(&mut self, alloc: Global, peer: SpaceId, told: &mut Told) -> u32
        ensures asked { HostAsked self.old (events.Transmit peer) self.new told.new result }
        ensures answer { (L : List Entry) → StandsFor self.old.space L → self.new.answer
            ≡ answer_after (is_wanted result) (right_of self.old.space L (events.Transmit peer))
            self.old.answer }
    {
        let _here = self.space.id().get();
        match self.space.frames(peer) {
            Ok(frames) => {
                let Ok(bytes) = spelled_all(alloc, frames.as_slice()) else {
                    return untold(told, WANTED);
                };
                let status = self.ask(&Event::Transmit(peer), told);
                if status == DONE {
                    self.answer = Bytes::from_vec(bytes);
                }
                status
            }
            Err(SpaceError::OutOfMemory) => untold(told, WANTED),
            Err(SpaceError::Refused(_)) => self.ask(&Event::Transmit(peer), told),
        }
    }

    /// Transmit to a peer: the bytes of its frames, one after the other, become the answer. 60
    /// where the peer is outside 1 to 32. It makes the frames twice.
    pub fn transmit(&mut self, alloc: Global, peer: u16, told: &mut Told) -> u32
        ensures asked { IsSpace peer → HostAsked self.old (events.Transmit peer) self.new told.new
            result }
        ensures answer { IsSpace peer → (L : List Entry) → StandsFor self.old.space L
            → self.new.answer ≡ answer_after (is_wanted result)
            (right_of self.old.space L (events.Transmit peer)) self.old.answer }
        ensures range { (IsSpace peer → ⊥) → Unasked self.old self.new told.new result 60 }
    {
        let Some(peer) = SpaceId::new(peer) else {
            return untold(told, OUT_OF_RANGE);
        };
        self.transmit_to(alloc, peer, told)
    }

    /// Arrive of the frame that bytes spell. Else the number of their first fault.
    pub fn arrive(&mut self, alloc: Global, bytes: &[u8], told: &mut Told) -> u32
        ensures { CameBy (frame_at Two bytes.now) self.old self.new told.new result }
    {
        match nob_frame::decode(alloc, bytes) {
            Ok(frame) => bring(&mut self.space, &frame, told),
            Err(error) => untold(told, frame_number(error)),
        }
    }

    /// The pickle of the value that is kept becomes the answer, and the value stays kept. 63 where
    /// none is kept; 14 for want of memory; else the number of the value's first fault.
    pub fn pickle(&mut self, alloc: Global) -> u32
        ensures pickled { (value : ValueOf) → self.old.value ≡ Some value → Pickles
            (is_wanted result) result self.old.answer self.new.answer (pickle_of value) }
        ensures none { self.old.value ≡ None → result ≡ 63 }
        ensures same_answer { self.old.value ≡ None → self.new.answer ≡ self.old.answer }
        ensures space { self.new.space ≡ self.old.space }
        ensures value { self.new.value ≡ self.old.value }
        ensures streams { SameStreams self.old self.new }
    {
        let Some(value) = &self.value else {
            return NO_VALUE;
        };
        pickle_into(alloc, value, &mut self.answer)
    }
}
