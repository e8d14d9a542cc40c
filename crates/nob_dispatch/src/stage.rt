//! How far a job is.

ghost use Rattle.std.specs.Prelude.{◌≡◌, ◌≢◌, ◌∷◌, Some, None, true, false, IfOk, IfErr, OnOk, OnErr};
ghost use Rattle.nob_dispatch.specs.Ends.{finishes, is_claim, ended, claimed, was_accepted};
ghost use Rattle.nob_keeper.specs.Seats.{Adds};
ghost use Rattle.nob_model_types.specs.declared.event.Event.TheVariants as events;
ghost use Rattle.nob_model_types.specs.declared.event.Outcome.TheVariants as endings;
ghost use Rattle.nob_pickle.specs.declared.value.Value.TheVariants as values;
ghost use Rattle.nob_dispatch.specs.declared.stage.AfterFinish.TheVariants.{Ended};

use crate::calls::JobCalls;
use crate::errand::Errand;
use nob_dispatch_objects::Outcome;
use nob_ids::{CallNo, JobNo};
use nob_keeper::{KeeperError, Seat};
use nob_model_types::{Event, Outcome as Ending, Refusal};
use nob_pickle::Value;
use std::sync::Wait;

/// An event that a method asks for: a call, or a hold more or less.
#[derive(Debug, Drop)]
pub(crate) struct Request {
    pub(crate) event: Event,
    pub(crate) ghost ends_none: { finishes event ≡ None },
}

/// The event that ends a job.
#[derive(Debug, Drop)]
pub(crate) struct Finish {
    pub(crate) job: JobNo,
    pub(crate) event: Event,
    pub(crate) ghost ends: { finishes event ≡ Some job },
    pub(crate) ghost claims_none: { is_claim event ≡ false },
}

/// What is next for a method that runs.
#[derive(Debug, Drop)]
pub(crate) enum Stage {
    /// It begins.
    Begin,
    /// This is asked.
    Ask(Request),
    /// The reply to this call is taken.
    Await(CallNo),
    /// It is told what the newest receipt says.
    Tell,
    /// It has ended so: its object comes back.
    End(Ending),
}

/// What a worker keeps.
#[derive(Drop)]
pub(crate) enum Keeping<O: Drop> {
    /// Nothing.
    Nothing,
    /// A job with its object, and what is next for its method.
    Running(Errand<O>, Stage),
    /// A job whose object has come back: what ends it.
    Ending(Finish),
}

impl Finish {
    ghost use Rattle.nob_dispatch.specs.Closings.{IsAfter};

    // What ends a job so.
    pub(crate) fn new(job: JobNo, ending: Ending) -> Finish
        ensures job { result.job ≡ job }
        ensures event { result.event ≡ events.Finish job ending }
    {
        Finish {
            job,
            event: Event::Finish(job, ending),
        }
    }

    // Asks the keeper to end the job.
    pub(crate) fn ask<R: Wait, C: JobCalls>(
        &self,
        rt: &R,
        keeper: &C,
        seat: &mut Seat,
    ) -> Result<AfterFinish, KeeperError>
        ensures ended { IfOk result (λ after. after ≡ Ended
            → ended seat.new ≡ self.now.job ∷ ended seat.old) }
        ensures more { IfOk result (λ after. after ≢ Ended → ended seat.new ≡ ended seat.old) }
        ensures accepted { IfOk result (λ after. after ≡ Ended → was_accepted seat.new ≡ true) }
        ensures refused { IfOk result (λ after. after ≢ Ended → was_accepted seat.new ≡ false) }
        ensures claimed { claimed seat.new ≡ claimed seat.old }
        ensures adds { OnOk result (Adds seat.old seat.new self.now.event 0) }
        ensures after { IfOk result (λ after. IsAfter after seat.new) }
        ensures error { IfErr result (λ error. C.answered keeper.now error) }
        ensures err { OnErr result (seat.new ≡ seat.old) }
    {
        keeper.call(rt, seat, &self.event)?;
        Ok(AfterFinish::of(seat))
    }

    // What ends a job whose answer can't be sent.
    pub(crate) fn fault(job: JobNo) -> Finish
        ensures job { result.job ≡ job }
        ensures event { result.event ≡ events.Finish job (endings.Fault values.Unit) }
    {
        Finish::new(job, Ending::Fault(Value::Unit))
    }
}

/// What is next after a Finish.
#[derive(Clone, Copy, Debug, PartialEq, Eq)]
pub(crate) enum AfterFinish {
    /// The job has ended.
    Ended,
    /// Its value can't be sent: it ends by a fault.
    Fault,
    /// It is tried again later.
    Later,
}

impl AfterFinish {
    ghost use Rattle.nob_dispatch.specs.Closings.{IsAfter};

    // What is next after the Finish of the newest receipt.
    pub(crate) fn of(seat: &Seat) -> AfterFinish
        ensures ended { result ≡ Ended → was_accepted seat.now ≡ true }
        ensures more { result ≢ Ended → was_accepted seat.now ≡ false }
        ensures after { IsAfter result seat.now }
    {
        let Some(receipt) = seat.newest() else {
            return AfterFinish::Later;
        };
        match &receipt.result {
            Ok(_) => AfterFinish::Ended,
            Err(Refusal::Closed) => AfterFinish::Fault,
            Err(Refusal::NoObject) => AfterFinish::Fault,
            Err(Refusal::NotHeld) => AfterFinish::Fault,
            Err(Refusal::TooBig) => AfterFinish::Fault,
            Err(_) => AfterFinish::Later,
        }
    }
}

impl Stage {
    ghost use Rattle.nob_dispatch.specs.Steps as steps;

    // What is next after what a method came to.
    pub(crate) fn of(outcome: Outcome) -> Stage
        ensures { steps.Comes outcome result }
    {
        match outcome {
            Outcome::Answer(value) => Stage::End(Ending::Answer(value)),
            Outcome::Fault(value) => Stage::End(Ending::Fault(value)),
            Outcome::NoMethod => Stage::End(Ending::NoMethod),
            Outcome::Call {
                target,
                method,
                value,
            } => Stage::Ask(Request {
                event: Event::Call {
                    target,
                    method,
                    value,
                },
            }),
            Outcome::Dup(rep) => Stage::Ask(Request {
                event: Event::Dup(rep),
            }),
            Outcome::Release(rep) => Stage::Ask(Request {
                event: Event::Release(rep),
            }),
        }
    }
}
