//! The event Call.

ghost use Rattle.std.specs.Prelude.{◌≡◌, List, ◌∷◌, Some, None, Ok, Err, OnErr, IfOk, MatchResult};
ghost use Rattle.nob_ids.specs.declared.limits.Limits.{Limits as LimitsOf};
ghost use Rattle.nob_item.specs.Spelling.{Fits};
ghost use Rattle.nob_item.specs.declared.item.Item.TheVariants as items;
ghost use Rattle.nob_model_types.specs.declared.answer.Answer.TheVariants as answers;
ghost use Rattle.nob_model_types.specs.declared.deed.Deed.{Deed};
ghost use Rattle.nob_model_types.specs.declared.deed.Deed.TheVariants as did;
ghost use Rattle.nob_model.specs.Right as right;
ghost use Rattle.nob_space_state.specs.Parts.{state_of};
ghost use Rattle.nob_space_state.specs.Sending.{call_refusal};
ghost use Rattle.nob_space_state.specs.Stands.{StandFor, IsState, Keeps, Did, AnswersOrWants, history_for};

use crate::error::SpaceError;
use crate::listings::keep_all;
use crate::parts::Parts;
use crate::send_pinned;
use nob_ids::{CallNo, SpaceId, WireRep};
use nob_item::{ItemError, encode_call};
use nob_model::right::{LAST_NUMBER, MOST_CALLS};
use nob_model::{Kind, OwnCall, Refusal, Stage};
use nob_model_acting::sending::counted;
use nob_pickle::Value;
use std::alloc::Global;

impl Parts {
    // Why a Call of a target with a value is refused. It takes no memory.
    #[tactic(auto, unfolding(crate::specs::Sending::call_refusal))]
    fn refuse_call(&self, target: &WireRep, value: &Value) -> Result<(), Refusal>
        ensures { MatchResult result (λ _.
            call_refusal self.now.here.space self.now.here.n (state_of self.now) target.now value.now ≡ None)
            (λ refusal. call_refusal self.now.here.space self.now.here.n
            (state_of self.now) target.now value.now ≡ Some refusal) }
    {
        if !self.here.is_peer(target.owner) {
            return Err(Refusal::NoPeer);
        }
        if self.has_closed(target.owner) {
            return Err(Refusal::Closed);
        }
        if target.index != 0 && !self.is_held(target) {
            return Err(Refusal::NotHeld);
        }
        self.refuse_value(value)?;
        if self.calls.calls_len() >= MOST_CALLS || self.calls_made >= LAST_NUMBER {
            return Err(Refusal::Limit);
        }
        self.refuse_send(target.owner, Kind::Limited)
    }

    /// Call: a method of the object that a reference names is called with a value, whose references
    /// are pinned until the object's owner has settled them: the number of the call. Linear in the
    /// value.
    pub fn call(
        &mut self,
        alloc: Global,
        target: &WireRep,
        method: u16,
        value: &Value,
    ) -> Result<CallNo, SpaceError>
        requires { IsState self.old }
        ensures answer { (limits : LimitsOf) (D : List Deed)
            → StandFor limits self.old D
            → AnswersOrWants (λ call. answers.Called call) result
            (right.right_call self.old.here.space self.old.here.n target.now value.now
            (history_for self.old D)) }
        ensures stands { IfOk result (λ call.
            Did self.old self.new
            (did.Call target.now method value.now call)) }
        // What is handed on has a spelling.
        ensures fits { IfOk result (λ call.
            Fits (items.Call call target.now.index method value.now)) }
        ensures err { OnErr result (Keeps self.old self.new) }
        ensures here { self.new.here ≡ self.old.here }
    {
        self.refuse_call(target, value)?;
        let call = CallNo::new(self.calls_made + 1);
        let payload = match encode_call(alloc, call, target.index, method, value) {
            Ok(payload) => payload,
            Err(ItemError::Fault(_)) => unreachable!(),
            Err(ItemError::OutOfMemory) => return Err(SpaceError::OutOfMemory),
        };
        let reps = counted(alloc, value)?;
        self.calls.reserve_calls(1)?;
        let peer = target.owner;
        let session = &mut self.sessions[peer.place()];
        send_pinned(
            alloc,
            session,
            &mut self.pins,
            peer,
            payload,
            Kind::Limited,
            reps.as_slice(),
        )?;
        let own = OwnCall {
            call,
            to: peer,
            stage: Stage::Sent,
        };
        self.calls.push(own);
        self.calls_made += 1;
        keep_all(&mut self.table, reps.as_slice());
        Ok(call)
    }
}
