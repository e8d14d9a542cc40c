//! TakeReply: what a call brought.

ghost use Rattle.std.specs.Prelude.{◌≡◌, ℕ, ◌+◌, ◌<◌, List, not, Some, None, Ok, IsOk, OnErr, IfOk};
ghost use Rattle.std.specs.List.{list_any};
ghost use Rattle.nob_ids.specs.declared.limits.Limits.{Limits as LimitsOf};
ghost use Rattle.nob_pickle.specs.declared.value.Value.{Value as ValueOf};
ghost use Rattle.nob_model_types.specs.declared.answer.Answer.TheVariants as answers;
ghost use Rattle.nob_model_types.specs.declared.deed.Deed.{Deed};
ghost use Rattle.nob_model.specs.Right as right;
ghost use Rattle.nob_model.specs.Next.{reply_ready};
ghost use Rattle.nob_space_state.specs.Parts.{state_of};
ghost use Rattle.nob_space_state.specs.Stands.{StandFor, IsState, Keeps, Did, Answers, history_for};
ghost use Rattle.nob_space_state.specs.TakingOver.{reps_of};
ghost use Rattle.nob_space_state.specs.Taking.{is_full, take_answer, answer_of, deed_of};

use crate::parts::Parts;
use crate::{take_over, times};
use nob_ids::{CallNo, WireRep};
use nob_item::Item;
use nob_model::{Message, RefCopy, Refusal, Stage};
use nob_pickle::Value;
use std::alloc::AllocError;

// The greatest hand.
const GREATEST_HAND: u64 = u32::MAX as u64;

/// What a call brought.
#[derive(Debug, Drop)]
pub enum CallResult {
    /// Its reply: the status and the value.
    Replied {
        /// 0 where the method answered, 1 to 2 where it didn't, and 3 where a reference of it was
        /// lost.
        status: u8,
        /// The value.
        value: Value,
    },
    /// Nothing, and it never will: the session closed before.
    Ended,
}

impl Parts {
    // Whether the hand of a reference would pass its limit by the references of copies.
    fn is_full(&self, rep: &WireRep, copies: &[RefCopy]) -> bool
        ensures { result ≡ is_full self.now.table (reps_of copies.now) rep.now }
    {
        let before = self.hand(rep);
        let more = times(rep, copies);
        u64::from(before) + more as u64 > GREATEST_HAND
    }

    // Whether one of their hands would.
    fn is_overfull(&self, copies: &[RefCopy]) -> bool
        ensures { result ≡ list_any (λ copy. is_full self.now.table (reps_of copies.now) copy.rep)
            copies.now }
    {
        copies.iter().any(|copy| self.is_full(&copy.rep, copies))
    }

    /// Whether TakeReply of a call would say anything but that the reply isn't ready: of a call
    /// that was never made, or is taken, too. It takes no memory. Logarithmic in the calls and the
    /// ready replies.
    pub fn reply_ready(&self, call: CallNo) -> bool
        ensures { (limits : LimitsOf) (D : List Deed)
            → StandFor limits self.now D
            → result ≡ reply_ready call (history_for self.now D) }
    {
        let Some(own) = self.calls.call(call) else {
            return true;
        };
        match self.calls.reply(call) {
            Some(_) => return true,
            None => {}
        }
        match own.stage {
            Stage::Sent => false,
            Stage::Answered => false,
            Stage::Ended => true,
        }
    }

    /// The value that TakeReply of a call would bring, copied: `None` where it would bring none.
    /// Only memory fails it, and not where TakeReply is refused. Logarithmic in the calls and the
    /// ready replies, and linear in the value.
    pub fn reply_value(&self, call: CallNo) -> Result<Option<Value>, AllocError>
        ensures value { IfOk result (λ copy. (status : ℕ) (value : ValueOf)
            → take_answer call (state_of self.now) ≡ Ok (answers.Replied status value)
            → copy ≡ Some value) }
        ensures memory { OnErr result (IsOk (take_answer call (state_of self.now))) }
    {
        let Some(_) = self.calls.call(call) else {
            return Ok(None);
        };
        let Some(message) = self.calls.reply(call) else {
            return Ok(None);
        };
        if self.is_overfull(message.copies.as_slice()) {
            return Ok(None);
        }
        let Item::Reply { value, .. } = &message.item else {
            return Ok(None);
        };
        Ok(Some(value.copy()?))
    }

    /// TakeReply of a call: its reply, whose references come into the hand, or that there will be
    /// none. It takes no memory. Logarithmic in the calls and the ready replies, and linear in the
    /// value.
    pub fn take_reply(&mut self, call: CallNo) -> Result<CallResult, Refusal>
        requires { IsState self.old }
        ensures answer { (limits : LimitsOf) (D : List Deed)
            → StandFor limits self.old D
            → Answers answer_of result (right.right_take_reply call
            (history_for self.old D)) }
        ensures stands { IfOk result (λ brought.
            Did self.old self.new
            (deed_of call brought)) }
        ensures err { OnErr result (Keeps self.old self.new) }
        ensures here { self.new.here ≡ self.old.here }
    {
        let Some(own) = self.calls.call(call) else {
            return Err(Refusal::NoCall);
        };
        let Some(ready) = self.calls.reply(call) else {
            match own.stage {
                Stage::Sent => return Err(Refusal::NotReady),
                Stage::Answered => return Err(Refusal::NotReady),
                Stage::Ended => {}
            }
            self.calls.remove(call);
            return Ok(CallResult::Ended);
        };
        if self.is_overfull(ready.copies.as_slice()) {
            return Err(Refusal::Limit);
        }
        let Some(Message { item, copies, .. }) = self.calls.take_reply(call) else {
            unreachable!();
        };
        take_over(&mut self.table, copies.as_slice());
        self.calls.remove(call);
        match item {
            Item::Reply { status, value, .. } => Ok(CallResult::Replied { status, value }),
            _ => unreachable!(),
        }
    }
}
