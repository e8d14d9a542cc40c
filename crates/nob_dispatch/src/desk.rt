//! A dispatcher with the ends of its lanes.

ghost use Rattle.std.specs.Prelude.{◌≡◌, ◌≢◌, ◌<◌, [], List, Some, None, true, false, OnOk, OnErr, MatchOption, MatchResult};
ghost use Rattle.nob_dispatch.specs.Assigning as assigning;
ghost use Rattle.nob_dispatch.specs.Stakes as ends;
ghost use Rattle.nob_model_types.specs.declared.answer.Job.{Job as JobOf};
ghost use Rattle.nob_dispatch.specs.Dispatching as dispatching;
ghost use Rattle.nob_dispatch.specs.Ends.{claimed};
ghost use Rattle.nob_dispatch.specs.Serving as serving;
ghost use Rattle.nob_dispatch.specs.Shelves as shelves;
ghost use Rattle.nob_dispatch.specs.declared.shelf.Place.TheVariants.{Here, Away};

use crate::calls::JobCalls;
use crate::dispatcher::{Dispatcher, Handing, Remaining};
use crate::errand::{Errand, Return};
use crate::shelf::{AddError, Place, Shelf};
use nob_dispatch_lanes::{LanePut, LaneTake, MOST_ERRANDS};
use nob_dispatch_objects::Object;
use nob_keeper::{KeeperError, Seat};
use nob_model_types::Job;
use std::alloc::Global;
use std::marker::Model;
use std::sync::Wait;

/// The maximum number of objects that are away at a time: half of what a lane holds, so that giving
/// never waits.
pub const MAX_AWAY: u64 = 512;

/// What a desk did in a turn.
#[derive(Clone, Copy, Debug, PartialEq, Eq)]
pub enum Assigned {
    /// An errand was given.
    Handed,
    /// Something else.
    Did,
    /// Nothing now: it is tried again. There is no room for a Finish, or as many objects are away
    /// as may be, or a job waits for its object.
    Later,
    /// Nothing: there is no job to claim, or no more is claimed.
    Idle,
}

/// A dispatcher with the end of the lane that its errands go by, and the end of the lane that their
/// objects come back by. Contracts see what the ends gave and got, and the dispatcher; these are
/// tied.
#[derive(Drop)]
pub struct Desk<O: Drop> {
    dispatcher: Dispatcher<O>,
    errands: LanePut<Errand<O>>,
    returns: LaneTake<Return<O>>,
    // How many objects were given and haven't come back.
    away: u64,
    // The job of the errand that couldn't be given, since nobody gets any more.
    unsent: Option<Job>,
    // Whether no more is claimed.
    has_stopped: bool,
}

impl<O: Drop> Model for Desk<O> {
    ghost use Rattle.nob_dispatch.specs.Assigning.{Assigning};

    ghost Value = { Assigning O };

    ghost use Rattle.std.specs.Coded.{codes};
    ghost use Rattle.nob_pickle.specs.Marks.{trees_code};

    ghost coded = { Prim.hlevel (codes, trees_code) };

    ghost use Rattle.nob_dispatch.specs.Sides.{assigning_of, IsDesk};

    ghost view = { assigning_of };

    ghost invariant = { IsDesk };
}

impl<O: Object> Desk<O> {
    /// A dispatcher over a seat, with no objects, and its ends. The caller's condition: the seat
    /// and the ends are unused. It takes no memory.
    pub fn new(
        alloc: Global,
        seat: Seat,
        errands: LanePut<Errand<O>>,
        returns: LaneTake<Return<O>>,
    ) -> Desk<O>
        requires seat { seat ≡ [] }
        requires errands { serving.given errands ≡ [] }
        requires returns { serving.taken returns ≡ [] }
        ensures { result ≡ record {
          given = [];
          back = [];
          unsent = None;
          is_alone = errands.has_heard_gone;
          away = 0;
          has_stopped = false;
          dispatcher = record {
            receipts = [];
            shelf = [];
            is_due = false;
            waiting = [];
            ending = None;
          };
          stakes = ends.of_desk errands returns;
        } }
    {
        Desk {
            dispatcher: Dispatcher::new(alloc, seat),
            errands,
            returns,
            away: 0,
            unsent: None,
            has_stopped: false,
        }
    }

    /// The objects.
    pub fn shelf(&self) -> &Shelf<O>
        ensures { result.now ≡ self.now.dispatcher.shelf }
    {
        self.dispatcher.shelf()
    }

    /// An object more, at an index that has no place yet.
    pub fn add(&mut self, index: u64, object: O) -> Result<(), AddError<O>>
        ensures added { OnOk result (self.new ≡ assigning.with_shelf
            (shelves.with_place index (Here object) self.old.dispatcher.shelf) self.old) }
        ensures err { OnErr result (self.new ≡ self.old) }
    {
        self.dispatcher.add(index, object)
    }

    /// Takes an object out, once it is withdrawn: its place.
    pub fn remove(&mut self, index: u64) -> Option<Place<O>>
        ensures place { result ≡ shelves.place_of index self.old.dispatcher.shelf }
        ensures removed { self.new ≡ assigning.with_shelf
            (shelves.without_place index self.old.dispatcher.shelf) self.old }
    {
        self.dispatcher.remove(index)
    }

    /// Lends the object of an index, which is away from then on: `None` where it is away already,
    /// or there is none. A job that calls it waits until it is put back.
    pub fn lend(&mut self, index: u64) -> Option<O>
        ensures object { result
            ≡ shelves.object_in (shelves.place_of index self.old.dispatcher.shelf) }
        ensures away { MatchOption result (self.new ≡ self.old)
            (λ _. self.new ≡ assigning.with_shelf
            (shelves.with_place index Away self.old.dispatcher.shelf) self.old) }
    {
        self.dispatcher.lend(index)
    }

    /// Puts a lent object back where it is away: else it comes back to the caller.
    pub fn give_back_lent(&mut self, index: u64, object: O) -> Result<(), O>
        ensures here { OnOk result (self.new ≡ assigning.with_shelf
            (shelves.with_place index (Here object) self.old.dispatcher.shelf) self.old) }
        ensures back { MatchResult result
            (λ _. shelves.place_of index self.old.dispatcher.shelf ≡ Some Away)
            (λ back. (back ≡ object)
            × (shelves.place_of index self.old.dispatcher.shelf ≢ Some Away)) }
        ensures err { OnErr result (self.new ≡ self.old) }
    {
        self.dispatcher.give_back_lent(index, object)
    }

    /// From now on no job is claimed. Those that the dispatcher keeps are still handed on.
    pub fn stop_claiming(&mut self)
        ensures { self.new ≡ assigning.stopped self.old }
    {
        self.has_stopped = true;
    }

    /// Whether nothing is away, and the dispatcher keeps no job.
    pub fn is_at_rest(&self) -> bool
        ensures rest { result ≡ true
            → (self.now.away ≡ 0) × dispatching.IsAtRest self.now.dispatcher }
        ensures busy { self.now.away ≡ 0 → dispatching.IsAtRest self.now.dispatcher
            → result ≡ true }
    {
        self.away == 0 && self.dispatcher.is_at_rest()
    }

    /// One turn: all objects that are on their way back now come back, and then the dispatcher has
    /// its turn, whose errand is given to the lane. It claims nothing while as many objects are
    /// away as may be. It waits neither for a job nor for an object. After K2, or another error of
    /// the keeper, the next turn goes on where this one stood: nothing is lost.
    pub fn turn<R: Wait, C: JobCalls>(
        &mut self,
        rt: &R,
        keeper: &C,
    ) -> Result<Assigned, KeeperError>
        ensures given { assigning.GivesAfter result self.old self.new }
        ensures claims { self.old.has_stopped ≡ true
            → claimed self.new.dispatcher.receipts ≡ claimed self.old.dispatcher.receipts }
        ensures stopped { self.new.has_stopped ≡ self.old.has_stopped }
        ensures stakes { self.new.stakes ≡ self.old.stakes }
    {
        self.take_back(rt);
        if self.unsent.is_some() {
            return Ok(Assigned::Idle);
        }
        if self.away >= MAX_AWAY {
            return Ok(Assigned::Later);
        }
        self.hand_on(rt, keeper)
    }

    /// All objects that are on their way back now come back.
    pub fn take_back<R: Wait>(&mut self, rt: &R)
        ensures back { assigning.SomeComeBack self.old self.new }
        ensures same { assigning.IsSameBesideBack self.old self.new }
    {
        for _ in 0..MOST_ERRANDS {
            if !self.take_one_back(rt) {
                return;
            }
        }
    }

    // An object comes back, if one is on its way now: whether one was.
    fn take_one_back<R: Wait>(&mut self, rt: &R) -> bool
        ensures back { result ≡ true → assigning.ComesBack self.old self.new }
        ensures none { result ≡ false → self.new ≡ self.old }
        ensures same { assigning.IsSameBesideBack self.old self.new }
    {
        match self.returns.try_get_as(rt) {
            Some(back) => {
                self.away = self.away.saturating_sub(1);
                put_down(&mut self.dispatcher, back);
                true
            }
            None => false,
        }
    }

    // The dispatcher's turn, whose errand is given.
    fn hand_on<R: Wait, C: JobCalls>(&mut self, rt: &R, keeper: &C) -> Result<Assigned, KeeperError>
        requires unsent { self.old.unsent ≡ None }
        requires room { self.old.away < 512 }
        ensures given { assigning.GivesOne result self.old self.new }
        ensures goes_on { assigning.GoesOn self.old self.new }
        ensures claims { self.old.has_stopped ≡ true
            → claimed self.new.dispatcher.receipts ≡ claimed self.old.dispatcher.receipts }
        ensures stopped { self.new.has_stopped ≡ self.old.has_stopped }
        ensures stakes { self.new.stakes ≡ self.old.stakes }
    {
        let claims = !self.has_stopped;
        match step(rt, keeper, &mut self.dispatcher, claims)? {
            Handing::Errand(errand) => {
                let Err(gone) = self.errands.give_as(rt, errand) else {
                    self.away += 1;
                    return Ok(Assigned::Handed);
                };
                keep_unsent(&mut self.dispatcher, &mut self.unsent, gone.errand);
                Ok(Assigned::Did)
            }
            Handing::Did => Ok(Assigned::Did),
            Handing::Later => Ok(Assigned::Later),
            Handing::Idle if self.dispatcher.is_at_rest() => Ok(Assigned::Idle),
            Handing::Idle => Ok(Assigned::Later),
        }
    }

    /// Its parts, which are tied: all that its dispatcher has, the job of the errand that it
    /// couldn't give, and its ends.
    pub fn end(
        self,
    ) -> (
        Remaining<O>,
        Option<Job>,
        LanePut<Errand<O>>,
        LaneTake<Return<O>>,
    )
        ensures left { dispatching.IsLeft result.0 self.dispatcher }
        ensures unsent { result.1 ≡ self.unsent }
        ensures errands { serving.given result.2 ≡ self.given }
        ensures returns { serving.taken result.3 ≡ self.back }
        ensures stakes { ends.of_desk result.2 result.3 ≡ self.stakes }
        ensures tied { assigning.IsTied self }
    {
        let Desk {
            dispatcher,
            errands,
            returns,
            away: _,
            unsent,
            has_stopped: _,
        } = self;
        (dispatcher.end(), unsent, errands, returns)
    }
}

// A turn of a dispatcher, with a claim or without.
fn step<O: Object, R: Wait, C: JobCalls>(
    rt: &R,
    keeper: &C,
    dispatcher: &mut Dispatcher<O>,
    claims: bool,
) -> Result<Handing<O>, KeeperError>
    ensures tied { (handed : List JobOf) → dispatching.IsTied handed dispatcher.old
        → dispatching.IsTied (dispatching.with_handed result handed) dispatcher.new }
    ensures object { dispatching.HandsOver result dispatcher.old.shelf dispatcher.new.shelf }
    ensures goes_on { dispatching.GoesOn claims result dispatcher.old dispatcher.new }
    ensures claims { claims ≡ false → claimed dispatcher.new.receipts
        ≡ claimed dispatcher.old.receipts }
{
    if claims {
        return dispatcher.turn(rt, keeper);
    }
    dispatcher.go_on(rt, keeper)
}

// An object comes back to its place. Where its place was taken out it is let go.
fn put_down<O: Object>(dispatcher: &mut Dispatcher<O>, back: Return<O>)
    ensures away { shelves.place_of back.index dispatcher.old.shelf ≡ Some Away
        → dispatcher.new ≡ dispatching.with_shelf
        (shelves.with_place back.index (Here back.object) dispatcher.old.shelf) dispatcher.old }
    ensures out { shelves.place_of back.index dispatcher.old.shelf ≢ Some Away
        → dispatcher.new ≡ dispatcher.old }
    ensures tied { (handed : List JobOf) → dispatching.IsTied handed dispatcher.old
        → dispatching.IsTied handed dispatcher.new }
    ensures same { dispatching.IsSameBesideShelf dispatcher.old dispatcher.new }
{
    let _ = dispatcher.give_back(back);
}

// Keeps the job of an errand that couldn't be given, and puts its object down.
fn keep_unsent<O: Object>(
    dispatcher: &mut Dispatcher<O>,
    unsent: &mut Option<Job>,
    errand: Errand<O>,
)
    ensures unsent { unsent.new ≡ Some errand.job }
    ensures back { shelves.place_of errand.job.target dispatcher.old.shelf ≡ Some Away
        → dispatcher.new.shelf ≡ shelves.with_place errand.job.target (Here errand.object)
        dispatcher.old.shelf }
    ensures same { dispatching.IsSameBesideShelf dispatcher.old dispatcher.new }
    ensures tied { (handed : List JobOf) → dispatching.IsTied handed dispatcher.old
        → dispatching.IsTied handed dispatcher.new }
{
    let Errand { job, object } = errand;
    let back = Return {
        job: job.job,
        index: job.target,
        object,
    };
    put_down(dispatcher, back);
    *unsent = Some(job);
}
