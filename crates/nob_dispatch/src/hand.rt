//! A worker with the ends of its lanes.

ghost use Rattle.std.specs.Prelude.{◌≡◌, ◌≢◌, [], ℕ, List, Some, None, true, false, reverse, IfErr, MatchOption};
ghost use Rattle.nob_dispatch.specs.Faults as faults;
ghost use Rattle.nob_dispatch.specs.Serving as serving;
ghost use Rattle.nob_dispatch.specs.Stakes as ends;
ghost use Rattle.nob_dispatch_lanes.specs.Ends.{stake_of};
ghost use Rattle.nob_dispatch.specs.Steps as steps;
ghost use Rattle.nob_dispatch.specs.Working as working;

use crate::calls::JobCalls;
use crate::errand::{Errand, Return};
use crate::gate::Gate;
use crate::worker::{Progress, Worker};
use nob_dispatch_lanes::{LanePut, LaneTake};
use nob_dispatch_objects::Object;
use nob_keeper::{KeeperError, Seat};
use std::marker::Model;
use std::sync::Wait;

/// What a hand did in a turn.
#[derive(Clone, Copy, Debug, PartialEq, Eq)]
pub enum Deed {
    /// A step of the job that it keeps.
    Did,
    /// The job has ended: the hand keeps none.
    Ended,
    /// Nothing now: a reply isn't ready, or there is no room for the Finish. It is tried again.
    Later,
    /// Nothing: the hand keeps no job.
    Idle,
}

/// A worker with the end of the lane that its errands come by, and the end of the lane that their
/// objects go back by. Contracts see what the ends got and gave, and the worker; these are tied.
#[derive(Drop)]
pub struct Hand<O: Drop> {
    worker: Worker<O>,
    errands: LaneTake<Errand<O>>,
    returns: LanePut<Return<O>>,
    // The error of the keeper for which it gives up each job that it gets, if there was one.
    fault: Option<KeeperError>,
}

impl<O: Drop> Model for Hand<O> {
    ghost use Rattle.nob_dispatch.specs.Serving.{Serving};

    ghost Value = { Serving O };

    ghost use Rattle.std.specs.Coded.{codes};
    ghost use Rattle.nob_pickle.specs.Marks.{trees_code};

    ghost coded = { Prim.hlevel (codes, trees_code) };

    ghost use Rattle.nob_dispatch.specs.Sides.{serving_of, IsHand};

    ghost view = { serving_of };

    ghost invariant = { IsHand };
}

impl<O: Object> Hand<O> {
    /// A worker over a seat, with its ends. The caller's condition: the seat and the ends are
    /// unused.
    pub fn new(seat: Seat, errands: LaneTake<Errand<O>>, returns: LanePut<Return<O>>) -> Hand<O>
        requires seat { seat ≡ [] }
        requires errands { serving.taken errands ≡ [] }
        requires returns { serving.given returns ≡ [] }
        ensures { result ≡ record {
          taken = [];
          given = [];
          worker = record {
            receipts = [];
            job = None;
            running = None;
            course = None;
            closing = None;
          };
          fault = None;
          is_alone = returns.has_heard_gone;
          stakes = ends.of_hand errands returns;
        } }
    {
        Hand {
            worker: Worker::new(seat),
            errands,
            returns,
            fault: None,
        }
    }

    /// Waits for the next errand where the worker is free, and takes it. False where none comes any
    /// more. It doesn't wait where the worker keeps a job.
    pub fn get<R: Wait>(&mut self, rt: &R) -> bool
        ensures kept { self.old.worker.job ≢ None → (result ≡ true) × (self.new ≡ self.old) }
        ensures got { self.old.worker.job ≡ None → result ≡ true
            → serving.Gets self.old self.new }
        ensures none { result ≡ false → (self.old.worker.job ≡ None) × (self.new ≡ self.old) }
        ensures fault { self.new.fault ≡ self.old.fault }
        ensures stakes { self.new.stakes ≡ self.old.stakes }
    {
        if !self.worker.is_free() {
            return true;
        }
        let Some(errand) = self.errands.get_as(rt) else {
            return false;
        };
        match self.worker.take(errand) {
            Ok(()) => true,
            Err(_) => unreachable!(),
        }
    }

    /// Takes the next errand if there is one now and the worker is free: whether the worker keeps
    /// one then. It doesn't wait, and may find none while another thread is just giving or getting
    /// one.
    pub fn try_get<R: Wait>(&mut self, rt: &R) -> bool
        ensures kept { self.old.worker.job ≢ None → (result ≡ true) × (self.new ≡ self.old) }
        ensures got { self.old.worker.job ≡ None → result ≡ true
            → serving.Gets self.old self.new }
        ensures none { result ≡ false → (self.old.worker.job ≡ None) × (self.new ≡ self.old) }
        ensures fault { self.new.fault ≡ self.old.fault }
        ensures stakes { self.new.stakes ≡ self.old.stakes }
    {
        if !self.worker.is_free() {
            return true;
        }
        let Some(errand) = self.errands.try_get_as(rt) else {
            return false;
        };
        match self.worker.take(errand) {
            Ok(()) => true,
            Err(_) => unreachable!(),
        }
    }

    /// One turn: a step of the job that the worker keeps, as `Worker::turn` has it. An object that
    /// comes back is given to the lane at once, before the Finish. Where the hand heard that nobody
    /// gets it any more it is let go. After an error of the keeper other than K2 the hand gives up
    /// the job that it keeps, and from then on each that it gets: the object goes back over the
    /// lane, and the job isn't ended.
    pub fn turn<R: Wait, C: JobCalls, G: Gate>(
        &mut self,
        rt: &R,
        keeper: &C,
        gate: &G,
    ) -> Result<Deed, KeeperError>
        ensures taken { self.new.taken ≡ self.old.taken }
        ensures given { serving.GivesBack self.old self.new }
        ensures runs { serving.RunsBy O.begins O.resumes result self.old self.new }
        ensures fault { self.new.fault ≡ serving.fault_after result self.old.fault }
        ensures error { IfErr result (λ error. faults.IsAnswered (C.answered keeper.now) error) }
        ensures free { serving.IsFreeAfter result self.new }
        ensures stakes { self.new.stakes ≡ self.old.stakes }
    {
        if let Some(error) = self.fault {
            self.give_up(rt, error);
            return Ok(Deed::Idle);
        }
        match self.worker.turn(rt, keeper, gate) {
            Ok(Progress::Back(back)) => {
                send_back(rt, &mut self.returns, back);
                Ok(Deed::Did)
            }
            Ok(Progress::Did) => Ok(Deed::Did),
            Ok(Progress::Ended(_)) => Ok(Deed::Ended),
            Ok(Progress::Later) => Ok(Deed::Later),
            Ok(Progress::Idle) => Ok(Deed::Idle),
            Err(error) => {
                if is_memory(error) {
                    return Err(error);
                }
                self.give_up(rt, error);
                Err(error)
            }
        }
    }

    // Gives up the job that it keeps, if it keeps one, and from now on each that it gets.
    fn give_up<R: Wait>(&mut self, rt: &R, error: KeeperError)
        requires { faults.is_memory error ≡ false }
        ensures fault { self.new.fault ≡ Some error }
        ensures taken { self.new.taken ≡ self.old.taken }
        ensures given { serving.GivesBack self.old self.new }
        ensures worker { self.new.worker ≡ working.freed self.old.worker }
        ensures stakes { self.new.stakes ≡ self.old.stakes }
    {
        self.fault = Some(error);
        if let Some(back) = self.worker.give_up() {
            send_back(rt, &mut self.returns, back);
        }
    }

    /// Its parts, which are tied: its seat, the errand that it keeps, if its method hasn't ended,
    /// and its ends.
    pub fn end(
        self,
    ) -> (
        Seat,
        Option<Errand<O>>,
        LaneTake<Errand<O>>,
        LanePut<Return<O>>,
    )
        ensures seat { result.0 ≡ self.worker.receipts }
        ensures errand { MatchOption result.1 (self.worker.running ≡ None)
            (λ errand. self.worker.running ≡ Some errand.job) }
        ensures object { MatchOption result.1 (self.worker.course ≡ None)
            (λ errand. steps.object_in self.worker.course ≡ Some errand.object) }
        ensures errands { serving.taken result.2 ≡ self.taken }
        ensures returns { serving.given result.3 ≡ self.given }
        ensures stakes { ends.of_hand result.2 result.3 ≡ self.stakes }
        ensures tied { serving.IsTied self }
    {
        let Hand {
            worker,
            errands,
            returns,
            fault: _,
        } = self;
        let (seat, errand) = worker.end();
        (seat, errand, errands, returns)
    }
}

/// Whether an error of the keeper is want of memory.
pub(crate) fn is_memory(error: KeeperError) -> bool
    ensures { result ≡ faults.is_memory error }
{
    match error {
        KeeperError::OutOfMemory => true,
        KeeperError::Stamp => false,
        KeeperError::Seats => false,
        KeeperError::Size => false,
        KeeperError::NoTrace => false,
    }
}

// Gives an object back over a lane, unless it was heard that nobody gets it any more.
#[tactic(auto, using(crate::proofs::Follows::missed))]
fn send_back<O: Object, R: Wait>(rt: &R, returns: &mut LanePut<Return<O>>, back: Return<O>)
    ensures follows { (all : List (ℕ × ℕ))
        → serving.Follows returns.old.has_heard_gone (Some (back.job, back.index)) all
        (serving.returned (reverse (serving.given returns.old)))
        → serving.Follows returns.new.has_heard_gone None all
        (serving.returned (reverse (serving.given returns.new))) }
    ensures given { serving.GivesAtMost (Some back.object) (serving.given returns.old)
        (serving.given returns.new) }
    ensures stake { stake_of returns.new.pass ≡ stake_of returns.old.pass }
{
    if returns.has_heard_gone() {
        return;
    }
    let Err(_) = returns.give_as(rt, back) else {
        return;
    };
}
