//! The calls and the replies.

ghost use Rattle.std.specs.Prelude.{◌≡◌, ◌+◌, ◌<◌, ◌≤◌, ◌^◌, ◌++◌, ◌∷◌, [], not, length, filter, find, map, option_copied, IsOk, OnOk};
ghost use Rattle.std.specs.List.{list_any};
ghost use Rattle.nob_model_work.specs.Work.{is_call, call_after_reply, call_after_close, without_first};
ghost use Rattle.nob_model_acting.specs.Acting.{awaits_reply};
ghost use Rattle.nob_space_calls.specs.Calls.{is_reply, IsAbove, KeepsRooms};
ghost use Rattle.nob_space_calls.specs.Calls as words;

use crate::ready::Ready;
use crate::rows::Rows;
use nob_ids::{CallNo, SpaceId};
use nob_model_types::Message;
use nob_model_work::OwnCall;
use std::alloc::{AllocError, Global};
use std::marker::Model;

/// The calls of a space whose replies aren't taken, the first made first, and the ready replies, in
/// order of becoming ready. Contracts see both lists, and for how many more of each there is room.
///
/// A call is looked for by halving, since the numbers of the calls rise, and for each space the
/// numbers of the calls made to it stand in a list of their own. For each call that has a ready
/// reply a map has the stamp of the first, and the replies stand in the order of their stamps.
#[derive(Drop)]
pub struct Calls {
    calls: Rows,
    ready: Ready,
}

impl Model for Calls {
    ghost use Rattle.std.specs.Coded.{codes};
    ghost use Rattle.nob_pickle.specs.Marks.{trees_code};
    ghost use Rattle.nob_space_calls.specs.Calls.{CallLists};

    ghost Value = { CallLists };

    ghost coded = { Prim.hlevel (codes, trees_code) };

    ghost view = { λ c. record {
      calls = c.calls.calls;
      replies = c.ready.replies;
      calls_room = c.calls.room;
      replies_room = c.ready.room;
    } };
}

impl Calls {
    /// No call, and no reply. It takes no memory before the first.
    pub fn new(alloc: Global) -> Calls
        ensures calls { result.calls ≡ [] }
        ensures replies { result.replies ≡ [] }
    {
        Calls {
            calls: Rows::new(alloc),
            ready: Ready::new(alloc),
        }
    }

    /// How many calls there are. Constant time.
    pub fn calls_len(&self) -> usize
        ensures { result ≡ length self.now.calls }
    {
        self.calls.len()
    }

    /// How many replies are ready. Constant time.
    pub fn replies_len(&self) -> usize
        ensures count { result ≡ length self.now.replies }
        ensures fits { result < 2 ^ 60 }
    {
        self.ready.len()
    }

    /// Makes room for so many more calls. Only memory fails it, and not where there is room. The
    /// calls and the replies are the same in any case, and what had room before has it still.
    /// Constant time on average.
    pub fn reserve_calls(&mut self, additional: usize) -> Result<(), AllocError>
        ensures calls { self.new.calls ≡ self.old.calls }
        ensures replies { self.new.replies ≡ self.old.replies }
        ensures ok { OnOk result (additional ≤ self.new.calls_room) }
        ensures succeeds { additional ≤ self.old.calls_room → IsOk result }
        ensures rooms { KeepsRooms self.old self.new }
    {
        self.calls.reserve(additional)
    }

    /// Makes room for so many more replies. Only memory fails it, and not where there is room; 2^60
    /// replies over all time are want of memory too. The calls and the replies are the same in any
    /// case, and what had room before has it still. Constant time on average.
    pub fn reserve_replies(&mut self, additional: usize) -> Result<(), AllocError>
        ensures calls { self.new.calls ≡ self.old.calls }
        ensures replies { self.new.replies ≡ self.old.replies }
        ensures ok { OnOk result (additional ≤ self.new.replies_room) }
        ensures succeeds { additional ≤ self.old.replies_room → IsOk result }
        ensures rooms { KeepsRooms self.old self.new }
    {
        self.ready.reserve(additional)
    }

    /// Puts a call behind all others. It takes no memory. Constant time. The caller's condition:
    /// there is room for it, and its number is above those of all calls.
    pub fn push(&mut self, own: OwnCall)
        requires room { 0 < self.old.calls_room }
        requires above { IsAbove self.old.calls own.call }
        ensures calls { self.new.calls ≡ self.old.calls ++ own ∷ [] }
        ensures replies { self.new.replies ≡ self.old.replies }
        ensures calls_room { self.new.calls_room + 1 ≡ self.old.calls_room }
        ensures replies_room { self.new.replies_room ≡ self.old.replies_room }
    {
        self.calls.push(own);
    }

    /// The call of this number. Logarithmic in the calls.
    pub fn call(&self, number: CallNo) -> Option<OwnCall>
        ensures { result ≡ find (is_call number) self.now.calls }
    {
        self.calls.get(number)
    }

    /// Takes the call of this number out, if there is one; the replies to it stay. It takes no
    /// memory. Logarithmic in the calls, and constant time on average beside that.
    pub fn remove(&mut self, number: CallNo)
        ensures calls { self.new.calls ≡ filter (λ own. not (is_call number own)) self.old.calls }
        ensures replies { self.new.replies ≡ self.old.replies }
        ensures rooms { KeepsRooms self.old self.new }
    {
        self.calls.remove(number);
    }

    /// Puts a ready reply behind all others. It takes no memory. Constant time on average. The
    /// caller's condition: there is room for it.
    pub fn push_reply(&mut self, message: Message)
        requires { 0 < self.old.replies_room }
        ensures calls { self.new.calls ≡ self.old.calls }
        ensures replies { self.new.replies ≡ self.old.replies ++ message ∷ [] }
        ensures calls_room { self.new.calls_room ≡ self.old.calls_room }
        ensures replies_room { self.new.replies_room + 1 ≡ self.old.replies_room }
    {
        self.ready.push(message);
    }

    /// The first ready reply to a call. One look-up, logarithmic in the replies.
    pub fn reply(&self, number: CallNo) -> Option<&Message>
        ensures { option_copied result ≡ find (is_reply number) self.now.replies }
    {
        self.ready.get(number)
    }

    /// The call of the reply that became ready first, if one is ready. It passes the empty slots
    /// of those that were taken before it, never more than the replies that are ready and one.
    pub fn first_call(&self) -> Option<CallNo>
        ensures { result ≡ words.first_call self.now.replies }
    {
        self.ready.first_call()
    }

    /// Takes the first ready reply to a call out. It takes no memory. One look-up, logarithmic in
    /// the replies; where several replies to the call were ready, linear in all.
    pub fn take_reply(&mut self, number: CallNo) -> Option<Message>
        ensures reply { result ≡ find (is_reply number) self.old.replies }
        ensures calls { self.new.calls ≡ self.old.calls }
        ensures replies { self.new.replies ≡ without_first (is_reply number) self.old.replies }
        ensures rooms { KeepsRooms self.old self.new }
    {
        self.ready.take(number)
    }

    /// Whether a call of this number was made to a space and waits for its Reply. Logarithmic in
    /// the calls.
    pub fn awaits(&self, peer: SpaceId, number: CallNo) -> bool
        ensures { result ≡ list_any (awaits_reply peer number) self.now.calls }
    {
        self.calls.awaits(peer, number)
    }

    /// A Reply from a space to a call of this number was acted on: the call is answered, if it was
    /// made to the space and waits for its Reply. It takes no memory. Logarithmic in the calls.
    pub fn answer(&mut self, peer: SpaceId, number: CallNo)
        ensures calls { self.new.calls ≡ map (call_after_reply peer number) self.old.calls }
        ensures replies { self.new.replies ≡ self.old.replies }
        ensures rooms { KeepsRooms self.old self.new }
    {
        self.calls.answer(peer, number);
    }

    /// The session with a space closed: the calls to it that have no ready reply from it end. It
    /// takes no memory. Linear in the calls to this space, with look-ups for each; one to which
    /// several replies are ready passes all replies.
    pub fn close(&mut self, peer: SpaceId)
        ensures calls { self.new.calls ≡ map (call_after_close peer self.old.replies)
            self.old.calls }
        ensures replies { self.new.replies ≡ self.old.replies }
        ensures rooms { KeepsRooms self.old self.new }
    {
        self.calls.close(peer, &self.ready);
    }
}
