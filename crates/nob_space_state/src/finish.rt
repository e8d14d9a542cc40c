//! The event Finish.

ghost use Rattle.std.specs.Prelude.{◌≡◌, ◌-◌, ◌<◌, List, true, Some, None, Ok, Err, find, not, OnErr, IfOk, MatchResult};
ghost use Rattle.nob_ids.specs.declared.limits.Limits.{Limits as LimitsOf};
ghost use Rattle.nob_model_types.specs.declared.deed.Deed.{Deed};
ghost use Rattle.nob_model_work.specs.Gifts as words;
ghost use Rattle.nob_pickle.specs.Limits.{Fits};
ghost use Rattle.nob_pickle.specs.declared.value.Value.TheVariants as values;
ghost use Rattle.nob_model_work.specs.declared.work.Run.{Run as RunOf};
ghost use Rattle.nob_model_work.specs.Work.{is_run};
ghost use Rattle.nob_model.specs.Right as right;
ghost use Rattle.nob_space_state.specs.Looks.{has_ended};
ghost use Rattle.nob_space_state.specs.Parts.{state_of};
ghost use Rattle.nob_space_state.specs.Sending.{reply_refusal, finish_answer, finish_deed};
ghost use Rattle.nob_space_state.specs.Stands.{StandFor, IsState, Keeps, Did, AnswersOrWants, history_for};

use crate::error::SpaceError;
use crate::listings::keep_all;
use crate::parts::Parts;
use crate::{end_job, send_pinned};
use nob_ids::{JobNo, SpaceId};
use nob_item::{Item, ItemError, encode_reply};
use nob_model::{Kind, Outcome, Refusal};
use nob_model_acting::sending::counted;
use nob_pickle::Value;
use std::alloc::Global;

/// What became of the reply to a job that was ended.
#[derive(Clone, Copy, Debug, PartialEq, Eq)]
pub enum ReplyFate {
    /// It is handed on to the session with the client.
    HandedOn,
    /// It is dropped: the session in which the call came has ended.
    Dropped,
}

// The status of an outcome.
fn status_of(outcome: &Outcome) -> u8
    ensures { result ≡ words.status_of outcome.now }
{
    match outcome {
        Outcome::Answer(_) => 0,
        Outcome::Fault(_) => 1,
        Outcome::NoMethod => 2,
    }
}

// The value of an outcome: unit where there is no such method.
fn value_of<'a>(outcome: &'a Outcome, unit: &'a Value) -> &'a Value
    requires { unit.now ≡ values.Unit }
    ensures { result.now ≡ words.value_of outcome.now }
{
    match outcome {
        Outcome::Answer(value) | Outcome::Fault(value) => value,
        Outcome::NoMethod => unit,
    }
}

impl Parts {
    // Why the reply to a client may not be sent. It takes no memory.
    fn refuse_reply(&self, client: SpaceId, value: &Value) -> Result<(), Refusal>
        ensures { MatchResult result (λ _. reply_refusal self.now.here.space client (state_of self.now) value.now
            ≡ None) (λ refusal. reply_refusal self.now.here.space client (state_of self.now) value.now
            ≡ Some refusal) }
    {
        self.refuse_value(value)?;
        self.refuse_send(client, Kind::Limited)
    }

    /// Finish: a job that runs is ended. Its outcome goes to its client as a reply, whose
    /// references are pinned until the client has settled them; what its call had lent is given
    /// back. Where the session in which the call came has ended, by a close or by another one that was
    /// opened, the reply is dropped, whatever the outcome. Logarithmic in the jobs that run, and
    /// linear in the value and in what the call had lent.
    pub fn finish(
        &mut self,
        alloc: Global,
        job: JobNo,
        outcome: &Outcome,
    ) -> Result<ReplyFate, SpaceError>
        requires { IsState self.old }
        ensures answer { (limits : LimitsOf) (D : List Deed)
            → StandFor limits self.old D
            → AnswersOrWants finish_answer result
            (right.right_finish self.old.here.space job outcome.now
            (history_for self.old D)) }
        ensures stands { IfOk result (λ fate.
            Did self.old self.new
            (finish_deed job outcome.now fate)) }
        // What is handed on has a spelling.
        ensures fits { IfOk result (λ fate. fate ≡ ReplyFate.HandedOn
            → Fits (words.value_of outcome.now)) }
        // A reply is dropped without memory.
        ensures dropped { (run : RunOf) → find (is_run job) self.old.messages.jobs.running ≡ Some run
            → has_ended self.old.sessions.items run.message.from run.message.session ≡ true
            → result ≡ Ok ReplyFate.Dropped }
        ensures err { OnErr result (Keeps self.old self.new) }
        ensures here { self.new.here ≡ self.old.here }
    {
        let Some(message) = self.messages.find_run(job) else {
            return Err(SpaceError::Refused(Refusal::NoJob));
        };
        let client = message.from;
        let session = message.session;
        let call = match &message.item {
            Item::Call { call, .. } => *call,
            _ => unreachable!(),
        };
        if self.has_ended(client, session) {
            end_job(&mut self.table, &mut self.messages, self.here.space, job);
            return Ok(ReplyFate::Dropped);
        }
        let unit = Value::Unit;
        let value = value_of(outcome, &unit);
        self.refuse_reply(client, value)?;
        let payload = match encode_reply(alloc, call, status_of(outcome), value) {
            Ok(payload) => payload,
            Err(ItemError::Fault(_)) => unreachable!(),
            Err(ItemError::OutOfMemory) => return Err(SpaceError::OutOfMemory),
        };
        let reps = counted(alloc, value)?;
        let end = &mut self.sessions[client.place()];
        send_pinned(
            alloc,
            end,
            &mut self.pins,
            client,
            payload,
            Kind::Limited,
            reps.as_slice(),
        )?;
        end_job(&mut self.table, &mut self.messages, self.here.space, job);
        keep_all(&mut self.table, reps.as_slice());
        Ok(ReplyFate::HandedOn)
    }
}
