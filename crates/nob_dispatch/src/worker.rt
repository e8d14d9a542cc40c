//! Who carries jobs out.

ghost use Rattle.std.specs.Prelude.{◌≡◌, ◌≢◌, ◌∷◌, [], Some, None, true, false, OnOk, OnErr, IfOk, IfErr, IfSome, MatchOption};
ghost use Rattle.nob_dispatch.specs.Ends.{ended};
ghost use Rattle.nob_dispatch.specs.Faults as faults;
ghost use Rattle.nob_dispatch.specs.Steps as steps;
ghost use Rattle.nob_dispatch.specs.Working as working;
ghost use Rattle.nob_dispatch.specs.KeeperError.TheVariants as errors;

use crate::calls::JobCalls;
use crate::errand::{Errand, Return};
use crate::gate::Gate;
use crate::stage::{AfterFinish, Finish, Keeping, Stage};
use crate::telling::{done_of, is_not_ready, stage_after};
use nob_dispatch_objects::Object;
use nob_ids::JobNo;
use nob_keeper::{KeeperError, Seat};
use nob_model_types::Job;
use std::marker::Model;
use std::sync::Wait;

/// What a worker did in a turn.
#[derive(Drop)]
pub enum Progress<O: Drop> {
    /// A step of the job that it keeps.
    Did,
    /// The method has ended: the object comes back. The Finish is next.
    Back(Return<O>),
    /// The job has ended: the worker keeps none.
    Ended(JobNo),
    /// Nothing now: a reply isn't ready, or there is no room for the Finish. It is tried again.
    Later,
    /// Nothing: the worker keeps no job.
    Idle,
}

/// Who carries jobs out, one at a time, over a seat of its own. Contracts see its receipts, the
/// number of the job that it keeps, that job while it has its object, with the object and what is
/// next for its method, and then the event that is to end the job.
#[derive(Drop)]
pub struct Worker<O: Drop> {
    seat: Seat,
    keeping: Keeping<O>,
}

impl<O: Drop> Model for Worker<O> {
    ghost use Rattle.nob_dispatch.specs.Working.{Working, job_in, running_in, course_in, closing_in};

    ghost Value = { Working O };

    ghost use Rattle.std.specs.Coded.{codes};
    ghost use Rattle.nob_pickle.specs.Marks.{trees_code};

    ghost coded = { Prim.hlevel (codes, trees_code) };

    ghost view = { λ worker. record {
      receipts = worker.seat;
      job = job_in worker.keeping;
      running = running_in worker.keeping;
      course = course_in worker.keeping;
      closing = closing_in worker.keeping;
    } };
}

impl<O: Object> Worker<O> {
    /// A worker over a seat, which keeps no job. The caller's condition: the seat is unused.
    pub fn new(seat: Seat) -> Worker<O>
        requires { seat ≡ [] }
        ensures { result ≡ record {
          receipts = [];
          job = None;
          running = None;
          course = None;
          closing = None;
        } }
    {
        Worker {
            seat,
            keeping: Keeping::Nothing,
        }
    }

    /// Whether it keeps no job.
    pub fn is_free(&self) -> bool
        ensures free { result ≡ working.is_free self.now }
        ensures idle { result ≡ true → self.now.running ≡ None }
    {
        match &self.keeping {
            Keeping::Nothing => true,
            _ => false,
        }
    }

    /// Takes an errand, if it keeps no job: else the errand comes back.
    pub fn take(&mut self, errand: Errand<O>) -> Result<(), Errand<O>>
        ensures took { OnOk result (self.new ≡ working.with_errand errand self.old) }
        ensures free { OnOk result ((self.old.job ≡ None) × (self.old.running ≡ None)) }
        ensures got { OnOk result (working.got self.new
            ≡ errand.job.job ∷ working.got self.old) }
        ensures back { IfErr result (λ back. (back ≡ errand) × (self.old.job ≢ None)) }
        ensures err { OnErr result (self.new ≡ self.old) }
    {
        if !self.is_free() {
            return Err(errand);
        }
        self.keeping = Keeping::Running(errand, Stage::Begin);
        Ok(())
    }

    /// One turn: a step of the job that it keeps. It may wait in the object's method, at the gate,
    /// and for the reply to a call that the method made, by no lock but the keeper's own. After K2,
    /// or another error of the keeper, the next turn goes on where this one stood.
    pub fn turn<R: Wait, C: JobCalls, G: Gate>(
        &mut self,
        rt: &R,
        keeper: &C,
        gate: &G,
    ) -> Result<Progress<O>, KeeperError>
        ensures got { working.got self.new ≡ working.got self.old }
        ensures objects { working.GivesBack result self.old self.new }
        ensures free { working.IsFreeAfter result self.new }
        ensures ended { working.EndsItsJob result self.old }
        ensures runs { IfOk result (λ progress.
            working.Runs O.begins O.resumes progress self.old self.new) }
        ensures error { IfErr result (λ error. faults.IsAnswered (C.answered keeper.now) error) }
        ensures err { OnErr result (self.new ≡ self.old) }
    {
        if let Some(back) = self.hand_back() {
            return Ok(Progress::Back(back));
        }
        if self.is_free() {
            return Ok(Progress::Idle);
        }
        self.step(rt, keeper, gate)
    }

    // Whether the method has ended, and its object hasn't come back.
    fn has_returned(&self) -> bool
        ensures { result ≡ steps.has_returned self.now.course }
    {
        match &self.keeping {
            Keeping::Running(_, Stage::End(_)) => true,
            _ => false,
        }
    }

    // The object comes back from a method that has ended. Else nothing is moved.
    fn hand_back(&mut self) -> Option<Return<O>>
        ensures back { IfSome result (λ back. working.ComesFrom back self.old) }
        ensures given { MatchOption result (self.new ≡ self.old)
            (λ _. self.new ≡ working.without_object self.old) }
        ensures none { result ≡ None → steps.has_returned self.old.course ≡ false }
    {
        if !self.has_returned() {
            return None;
        }
        let keeping = std::mem::replace(&mut self.keeping, Keeping::Nothing);
        match keeping {
            Keeping::Running(errand, stage) => match stage {
                Stage::End(ending) => {
                    let Errand { job, object } = errand;
                    self.keeping = Keeping::Ending(Finish::new(job.job, ending));
                    Some(Return {
                        job: job.job,
                        index: job.target,
                        object,
                    })
                }
                other => {
                    self.keeping = Keeping::Running(errand, other);
                    None
                }
            },
            other => {
                self.keeping = other;
                None
            }
        }
    }

    // A step of the job that it keeps.
    fn step<R: Wait, C: JobCalls, G: Gate>(
        &mut self,
        rt: &R,
        keeper: &C,
        gate: &G,
    ) -> Result<Progress<O>, KeeperError>
        requires { steps.has_returned self.old.course ≡ false }
        ensures got { working.got self.new ≡ working.got self.old }
        ensures objects { working.GivesBack result self.old self.new }
        ensures free { working.IsFreeAfter result self.new }
        ensures ended { working.EndsItsJob result self.old }
        ensures runs { IfOk result (λ progress.
            working.Runs O.begins O.resumes progress self.old self.new) }
        ensures error { IfErr result (λ error. faults.IsAnswered (C.answered keeper.now) error) }
        ensures err { OnErr result (self.new ≡ self.old) }
    {
        let Keeping::Running(errand, stage) = &mut self.keeping else {
            return self.finish(rt, keeper, gate);
        };
        if advance(rt, keeper, gate, &mut self.seat, errand, stage)? {
            return Ok(Progress::Did);
        }
        Ok(Progress::Later)
    }

    // The Finish of the job whose object has come back.
    fn finish<R: Wait, C: JobCalls, G: Gate>(
        &mut self,
        rt: &R,
        keeper: &C,
        gate: &G,
    ) -> Result<Progress<O>, KeeperError>
        requires { self.old.running ≡ None }
        ensures got { working.got self.new ≡ working.got self.old }
        ensures objects { working.GivesBack result self.old self.new }
        ensures free { working.IsFreeAfter result self.new }
        ensures ended { working.EndsItsJob result self.old }
        ensures runs { IfOk result (λ progress.
            working.Runs O.begins O.resumes progress self.old self.new) }
        ensures error { IfErr result (λ error. faults.IsAnswered (C.answered keeper.now) error) }
        ensures err { OnErr result (self.new ≡ self.old) }
    {
        let Keeping::Ending(finish) = &self.keeping else {
            return Ok(Progress::Idle);
        };
        let job = finish.job;
        match finish.ask(rt, keeper, &mut self.seat)? {
            AfterFinish::Ended => {
                self.keeping = Keeping::Nothing;
                gate.leave(job);
                Ok(Progress::Ended(job))
            }
            AfterFinish::Fault => {
                self.keeping = Keeping::Ending(Finish::fault(job));
                Ok(Progress::Did)
            }
            AfterFinish::Later => Ok(Progress::Later),
        }
    }

    /// Gives up the job that it keeps, if it keeps one: it isn't ended by this worker. Its object
    /// comes back, where it hasn't yet.
    pub fn give_up(&mut self) -> Option<Return<O>>
        ensures freed { self.new ≡ working.freed self.old }
        ensures back { MatchOption result (self.old.running ≡ None)
            (λ back. working.ComesFrom back self.old) }
    {
        let keeping = std::mem::replace(&mut self.keeping, Keeping::Nothing);
        match keeping {
            Keeping::Running(errand, _) => {
                let Errand { job, object } = errand;
                Some(Return {
                    job: job.job,
                    index: job.target,
                    object,
                })
            }
            _ => None,
        }
    }

    /// Its parts: its seat, and the errand that it keeps, if its method hasn't ended.
    pub fn end(self) -> (Seat, Option<Errand<O>>)
        ensures seat { result.0 ≡ self.receipts }
        ensures errand { MatchOption result.1 (self.running ≡ None)
            (λ errand. self.running ≡ Some errand.job) }
        ensures object { MatchOption result.1 (self.course ≡ None)
            (λ errand. steps.object_in self.course ≡ Some errand.object) }
    {
        let Worker { seat, keeping } = self;
        match keeping {
            Keeping::Running(errand, _) => (seat, Some(errand)),
            _ => (seat, None),
        }
    }
}

// The next step of a method that runs. False where it is to be tried again later.
fn advance<O: Object, R: Wait, C: JobCalls, G: Gate>(
    rt: &R,
    keeper: &C,
    gate: &G,
    seat: &mut Seat,
    errand: &mut Errand<O>,
    stage: &mut Stage,
) -> Result<bool, KeeperError>
    requires { steps.is_end stage.old ≡ false }
    ensures ended { ended seat.new ≡ ended seat.old }
    ensures job { errand.new.job ≡ errand.old.job }
    ensures goes { IfOk result (λ _. steps.Goes O.begins O.resumes seat.old seat.new
        stage.old errand.old stage.new errand.new) }
    ensures err { OnErr result
        ((seat.new ≡ seat.old) × (errand.new ≡ errand.old) × (stage.new ≡ stage.old)) }
    ensures error { IfErr result (λ error. faults.IsAnswered (C.answered keeper.now) error) }
{
    match stage {
        Stage::Begin => {
            gate.enter(errand.job.job);
            *stage = begin(errand);
            Ok(true)
        }
        Stage::Ask(request) => {
            keeper.call(rt, seat, &request.event)?;
            *stage = stage_after(seat);
            Ok(true)
        }
        Stage::Await(call) => {
            keeper.wait_reply(rt, seat, *call)?;
            if is_not_ready(seat) {
                return Ok(false);
            }
            *stage = Stage::Tell;
            Ok(true)
        }
        Stage::Tell => {
            *stage = tell(seat, errand)?;
            Ok(true)
        }
        Stage::End(_) => unreachable!(),
    }
}

// The method of a job begins at its object: what is next for it.
fn begin<O: Object>(errand: &mut Errand<O>) -> Stage
    ensures { steps.IsBegun O.begins errand.old result errand.new }
{
    let outcome = errand.object.invoke(errand.job.method, &errand.job.value);
    Stage::of(outcome)
}

// A method is told what the newest receipt says: what is next for it. Only memory fails it.
fn tell<O: Object>(seat: &Seat, errand: &mut Errand<O>) -> Result<Stage, KeeperError>
    ensures told { IfOk result (λ stage.
        steps.IsTold O.resumes seat.now errand.old stage errand.new) }
    ensures memory { IfErr result (λ error. error ≡ errors.OutOfMemory) }
    ensures err { OnErr result (errand.new ≡ errand.old) }
{
    let done = done_of(seat)?;
    let outcome = errand.object.resume(&done);
    Ok(Stage::of(outcome))
}
