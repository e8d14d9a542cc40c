//! Who claims jobs.

ghost use Rattle.std.specs.Prelude.{◌≡◌, ◌≢◌, ◌<◌, ◌+◌, ◌∷◌, [], ⊤, ℕ, List, Bool, true, false, None, Some, Ok, is_some, length, slice_index_or, OnOk, OnErr, IfOk, IfSome, MatchOption, MatchResult};
ghost use Rattle.nob_model_types.specs.declared.answer.Job.{Job as JobOf};
ghost use Rattle.nob_dispatch_lanes.specs.Balance.{weigh};
ghost use Rattle.nob_dispatch.specs.Dispatching as dispatching;
ghost use Rattle.nob_dispatch.specs.Ends.{claimed};
ghost use Rattle.nob_dispatch.specs.Shelves as shelves;
ghost use Rattle.nob_dispatch.specs.declared.shelf.Place.TheVariants.{Here, Away};

use crate::calls::JobCalls;
use crate::errand::{Errand, Return};
use crate::shelf::{AddError, Place, Shelf};
use crate::stage::{AfterFinish, Finish};
use nob_dispatch_objects::Object;
use nob_ids::JobNo;
use nob_keeper::{KeeperError, Seat};
use nob_model_types::{Answer, Event, Job, Outcome as Ending};
use std::alloc::Global;
use std::marker::Model;
use std::sync::Wait;

/// What a dispatcher did in a turn.
#[derive(Drop)]
pub enum Handing<O: Drop> {
    /// An errand is handed on.
    Errand(Errand<O>),
    /// Something else.
    Did,
    /// Nothing now: there is no room for the Finish of a job whose object isn't there. It is tried
    /// again.
    Later,
    /// Nothing: there is no job to claim.
    Idle,
}

/// What a dispatcher leaves: all that it had.
#[derive(Drop)]
pub struct Remaining<O: Drop> {
    /// Its seat.
    pub seat: Seat,
    /// The objects.
    pub shelf: Shelf<O>,
    /// Whether the job of the newest receipt wasn't handed on yet.
    pub is_due: bool,
    /// The jobs whose objects are away, the first claimed first.
    pub waiting: Vec<Job>,
    /// The job that wasn't ended yet, whose object isn't there.
    pub ending: Option<JobNo>,
}

/// Who claims the jobs of a space, over a seat of its own, and hands each on with its object.
#[derive(Drop)]
pub struct Dispatcher<O: Drop> {
    seat: Seat,
    shelf: Shelf<O>,
    // Whether the job of the newest receipt is to be handed on.
    is_due: bool,
    // The jobs whose objects are away, the first claimed first.
    waiting: Vec<Job>,
    // The job that is to be ended, since its object isn't there.
    ending: Option<JobNo>,
}

impl<O: Drop> Model for Dispatcher<O> {
    ghost use Rattle.nob_dispatch.specs.Dispatching.{Dispatching};

    ghost Value = { Dispatching O };

    ghost use Rattle.std.specs.Coded.{codes};
    ghost use Rattle.nob_pickle.specs.Marks.{trees_code};

    ghost coded = { Prim.hlevel (codes, trees_code) };

    ghost view = { λ dispatcher. record {
      receipts = dispatcher.seat;
      shelf = dispatcher.shelf;
      is_due = dispatcher.is_due;
      waiting = dispatcher.waiting.items;
      ending = dispatcher.ending;
    } };
}

impl<O: Object> Dispatcher<O> {
    /// A dispatcher over a seat, with no objects. The caller's condition: the seat is unused. It
    /// takes no memory.
    pub fn new(alloc: Global, seat: Seat) -> Dispatcher<O>
        requires { seat ≡ [] }
        ensures new { result ≡ record {
          receipts = [];
          shelf = [];
          is_due = false;
          waiting = [];
          ending = None;
        } }
        ensures tied { dispatching.IsTied [] result }
    {
        Dispatcher {
            seat,
            shelf: Shelf::new(alloc),
            is_due: false,
            waiting: Vec::new(alloc),
            ending: None,
        }
    }

    /// The objects.
    pub fn shelf(&self) -> &Shelf<O>
        ensures { result.now ≡ self.now.shelf }
    {
        &self.shelf
    }

    /// An object more, at an index that has no place yet.
    pub fn add(&mut self, index: u64, object: O) -> Result<(), AddError<O>>
        ensures added { OnOk result (self.new ≡ dispatching.with_shelf
            (shelves.with_place index (Here object) self.old.shelf) self.old) }
        ensures err { OnErr result (self.new ≡ self.old) }
    {
        self.shelf.add(index, object)
    }

    /// An object comes back from its job. Where it isn't away, or was taken out, it comes back to
    /// the caller.
    pub fn give_back(&mut self, back: Return<O>) -> Result<(), O>
        ensures here { OnOk result (self.new ≡ dispatching.with_shelf
            (shelves.with_place back.index (Here back.object) self.old.shelf) self.old) }
        ensures back { MatchResult result
            (λ _. shelves.place_of back.index self.old.shelf ≡ Some Away)
            (λ object. (object ≡ back.object)
            × (shelves.place_of back.index self.old.shelf ≢ Some Away)) }
        ensures err { OnErr result (self.new ≡ self.old) }
    {
        let Return { index, object, .. } = back;
        self.shelf.give_back(index, object)
    }

    /// Takes an object out, once it is withdrawn: its place.
    pub fn remove(&mut self, index: u64) -> Option<Place<O>>
        ensures place { result ≡ shelves.place_of index self.old.shelf }
        ensures removed { self.new ≡ dispatching.with_shelf
            (shelves.without_place index self.old.shelf) self.old }
    {
        self.shelf.remove(index)
    }

    /// Lends the object of an index, which is away from then on: `None` where it is away already,
    /// or there is none. It takes no memory.
    pub fn lend(&mut self, index: u64) -> Option<O>
        ensures object { result ≡ shelves.object_in (shelves.place_of index self.old.shelf) }
        ensures away { MatchOption result (self.new ≡ self.old)
            (λ _. self.new ≡ dispatching.with_shelf
            (shelves.with_place index Away self.old.shelf) self.old) }
    {
        self.shelf.take(index)
    }

    /// Puts a lent object back where it is away: else it comes back to the caller. It takes no
    /// memory.
    pub fn give_back_lent(&mut self, index: u64, object: O) -> Result<(), O>
        ensures here { OnOk result (self.new ≡ dispatching.with_shelf
            (shelves.with_place index (Here object) self.old.shelf) self.old) }
        ensures back { MatchResult result
            (λ _. shelves.place_of index self.old.shelf ≡ Some Away)
            (λ back. (back ≡ object) × (shelves.place_of index self.old.shelf ≢ Some Away)) }
        ensures err { OnErr result (self.new ≡ self.old) }
    {
        self.shelf.give_back(index, object)
    }

    /// Whether it keeps no job: none is to be handed on, none waits for its object, and none is to
    /// be ended.
    pub fn is_at_rest(&self) -> bool
        ensures rest { result ≡ true → dispatching.IsAtRest self.now }
        ensures busy { result ≡ false → dispatching.IsAtRest self.now → ⊥ }
    {
        !self.is_due && self.ending.is_none() && self.waiting.is_empty()
    }

    /// One turn: the next job whose object is here is handed on with it. A job whose object isn't
    /// there ends with 'no such method'. It doesn't wait for a job. After K2, or another error of
    /// the keeper, the next turn goes on where this one stood: nothing is lost.
    pub fn turn<R: Wait, C: JobCalls>(
        &mut self,
        rt: &R,
        keeper: &C,
    ) -> Result<Handing<O>, KeeperError>
        ensures tied { (handed : List JobOf) → dispatching.IsTied handed self.old
            → dispatching.IsTied (dispatching.with_handed result handed) self.new }
        ensures object { dispatching.HandsOver result self.old.shelf self.new.shelf }
        ensures goes_on { dispatching.GoesOn true result self.old self.new }
    {
        self.step(rt, keeper, true)
    }

    /// One turn without a claim: it goes on with the jobs that it keeps. `Idle` where none of them
    /// can be handed on now.
    pub fn go_on<R: Wait, C: JobCalls>(
        &mut self,
        rt: &R,
        keeper: &C,
    ) -> Result<Handing<O>, KeeperError>
        ensures tied { (handed : List JobOf) → dispatching.IsTied handed self.old
            → dispatching.IsTied (dispatching.with_handed result handed) self.new }
        ensures object { dispatching.HandsOver result self.old.shelf self.new.shelf }
        ensures goes_on { dispatching.GoesOn false result self.old self.new }
        ensures claims { claimed self.new.receipts ≡ claimed self.old.receipts }
    {
        self.step(rt, keeper, false)
    }

    // One turn, with a claim where nothing else is to be done, or without.
    fn step<R: Wait, C: JobCalls>(
        &mut self,
        rt: &R,
        keeper: &C,
        claims: bool,
    ) -> Result<Handing<O>, KeeperError>
        ensures tied { (handed : List JobOf) → dispatching.IsTied handed self.old
            → dispatching.IsTied (dispatching.with_handed result handed) self.new }
        ensures object { dispatching.HandsOver result self.old.shelf self.new.shelf }
        ensures goes_on { dispatching.GoesOn claims result self.old self.new }
        ensures claims { claims ≡ false
            → claimed self.new.receipts ≡ claimed self.old.receipts }
    {
        // First of all, for a Finish would hide the receipt of its Claim.
        if self.is_due {
            return self.hand_on();
        }
        if self.ending.is_some() {
            return self.finish(rt, keeper);
        }
        match self.serve_waiting() {
            Some(handing) => Ok(handing),
            None if claims => self.claim(rt, keeper),
            None => Ok(Handing::Idle),
        }
    }

    // Hands the first job on that waits for no object any more: `None` where each does.
    fn serve_waiting(&mut self) -> Option<Handing<O>>
        requires due { self.old.is_due ≡ false }
        requires ending { self.old.ending ≡ None }
        ensures tied { MatchOption result (self.new ≡ self.old)
            (λ handing. (handed : List JobOf) → dispatching.IsTied handed self.old
            → dispatching.IsTied (dispatching.with_handed (Ok handing) handed) self.new) }
        ensures object { IfSome result (λ handing.
            dispatching.HandsOver (Ok handing) self.old.shelf self.new.shelf) }
        ensures goes_on { IfSome result (λ handing. (claims : Bool)
            → dispatching.GoesOn claims (Ok handing) self.old self.new) }
        ensures receipts { self.new.receipts ≡ self.old.receipts }
    {
        let Some(job) = take_waiting(&self.shelf, &mut self.waiting) else {
            return None;
        };
        let Some(errand) = serve(&mut self.shelf, &mut self.ending, job) else {
            return Some(Handing::Did);
        };
        Some(Handing::Errand(errand))
    }

    // The Finish of a job whose object isn't there.
    fn finish<R: Wait, C: JobCalls>(
        &mut self,
        rt: &R,
        keeper: &C,
    ) -> Result<Handing<O>, KeeperError>
        requires { self.old.is_due ≡ false }
        ensures tied { (handed : List JobOf) → dispatching.IsTied handed self.old
            → dispatching.IsTied (dispatching.with_handed result handed) self.new }
        ensures object { dispatching.HandsOver result self.old.shelf self.new.shelf }
        ensures goes_on { (claims : Bool) → dispatching.GoesOn claims result self.old self.new }
        ensures claims { claimed self.new.receipts ≡ claimed self.old.receipts }
    {
        let Some(job) = self.ending else {
            return Ok(Handing::Idle);
        };
        let finish = Finish::new(job, Ending::NoMethod);
        match finish.ask(rt, keeper, &mut self.seat)? {
            AfterFinish::Ended => {
                self.ending = None;
                Ok(Handing::Did)
            }
            _ => Ok(Handing::Later),
        }
    }

    // Claims a job, if there is one.
    fn claim<R: Wait, C: JobCalls>(&mut self, rt: &R, keeper: &C) -> Result<Handing<O>, KeeperError>
        requires due { self.old.is_due ≡ false }
        requires ending { self.old.ending ≡ None }
        ensures tied { (handed : List JobOf) → dispatching.IsTied handed self.old
            → dispatching.IsTied (dispatching.with_handed result handed) self.new }
        ensures object { dispatching.HandsOver result self.old.shelf self.new.shelf }
        ensures goes_on { dispatching.GoesOn true result self.old self.new }
    {
        if !keeper.has_job(rt) {
            return Ok(Handing::Idle);
        }
        keeper.call(rt, &mut self.seat, &Event::Claim)?;
        self.is_due = has_job(&self.seat);
        if !self.is_due {
            return Ok(Handing::Idle);
        }
        Ok(Handing::Did)
    }

    // Hands the claimed job on, or keeps it where its object is away, or another job is to be ended
    // first.
    fn hand_on(&mut self) -> Result<Handing<O>, KeeperError>
        requires { self.old.is_due ≡ true }
        ensures tied { (handed : List JobOf) → dispatching.IsTied handed self.old
            → dispatching.IsTied (dispatching.with_handed result handed) self.new }
        ensures object { dispatching.HandsOver result self.old.shelf self.new.shelf }
        ensures goes_on { (claims : Bool) → dispatching.GoesOn claims result self.old self.new }
        ensures claims { claimed self.new.receipts ≡ claimed self.old.receipts }
    {
        let Some(job) = newest_job(&self.seat)? else {
            self.is_due = false;
            return Ok(Handing::Did);
        };
        if must_wait(&self.shelf, &self.ending, job.target) {
            let Ok(()) = self.waiting.push(job) else {
                return Err(KeeperError::OutOfMemory);
            };
            self.is_due = false;
            return Ok(Handing::Did);
        }
        self.is_due = false;
        match serve(&mut self.shelf, &mut self.ending, job) {
            Some(errand) => Ok(Handing::Errand(errand)),
            None => Ok(Handing::Did),
        }
    }

    /// All that it has.
    pub fn end(self) -> Remaining<O>
        ensures { dispatching.IsLeft result self }
    {
        let Dispatcher {
            seat,
            shelf,
            is_due,
            waiting,
            ending,
        } = self;
        Remaining {
            seat,
            shelf,
            is_due,
            waiting,
            ending,
        }
    }
}

// Whether the object of an index is away.
fn is_away<O: Object>(shelf: &Shelf<O>, index: u64) -> bool
    ensures { result ≡ shelves.is_away (shelves.place_of index shelf.now) }
{
    match shelf.place(index) {
        Some(Place::Away) => true,
        _ => false,
    }
}

// Whether a job has to wait: its object is away, or another job is to be ended.
fn must_wait<O: Object>(shelf: &Shelf<O>, ending: &Option<JobNo>, index: u64) -> bool
    ensures here { result ≡ false
        → shelves.is_away (shelves.place_of index shelf.now) ≡ false }
    ensures free { result ≡ false → ending.now ≡ None }
    ensures wait { result ≡ dispatching.must_wait index shelf.now ending.now }
{
    if ending.is_some() {
        return true;
    }
    is_away(shelf, index)
}

// The place of the first job whose object isn't away.
fn first_served<O: Object>(shelf: &Shelf<O>, waiting: &[Job]) -> Option<usize>
    ensures place { IfSome result (λ place. place < length waiting.now) }
    ensures served { IfSome result (λ place. (job : JobOf) → shelves.is_away
        (shelves.place_of (slice_index_or waiting.now place job).target shelf.now) ≡ false) }
{
    for place in 0..waiting.len() {
        if !is_away(shelf, waiting[place].target) {
            return Some(place);
        }
    }
    None
}

// Takes out the job at a place.
fn take_at(waiting: &mut Vec<Job>, place: usize) -> Job
    requires { place < length waiting.old.items }
    ensures job { result ≡ slice_index_or waiting.old.items place result }
    ensures once { (weight : JobOf → ℕ) → weigh weight waiting.old.items
        ≡ weigh weight (result ∷ waiting.new.items) }
    ensures without { dispatching.IsWithout result waiting.old.items waiting.new.items }
{
    waiting.remove(place)
}

// Takes out the first job whose object isn't away.
fn take_waiting<O: Object>(shelf: &Shelf<O>, waiting: &mut Vec<Job>) -> Option<Job>
    ensures once { MatchOption result
        (waiting.new.items ≡ waiting.old.items)
        (λ job. (weight : JobOf → ℕ) → weigh weight waiting.old.items
        ≡ weigh weight (job ∷ waiting.new.items)) }
    ensures without { IfSome result (λ job.
        dispatching.IsWithout job waiting.old.items waiting.new.items) }
    ensures served { IfSome result (λ job.
        shelves.is_away (shelves.place_of job.target shelf.now) ≡ false) }
{
    let Some(place) = first_served(shelf, waiting.as_slice()) else {
        return None;
    };
    let job = take_at(waiting, place);
    Some(job)
}

// Gives a job its object, or keeps that it is to be ended where its object isn't there.
fn serve<O: Object>(shelf: &mut Shelf<O>, ending: &mut Option<JobNo>, job: Job) -> Option<Errand<O>>
    requires { shelves.is_away (shelves.place_of job.target shelf.old) ≡ false }
    ensures absent { MatchOption result (shelves.place_of job.target shelf.old ≡ None)
        (λ _. ⊤) }
    ensures served { MatchOption result (shelf.new ≡ shelf.old)
        (λ errand. dispatching.IsHanded errand job shelf.old shelf.new) }
    ensures ending { MatchOption result (ending.new ≡ Some job.job)
        (λ _. ending.new ≡ ending.old) }
{
    let Some(object) = shelf.take(job.target) else {
        *ending = Some(job.job);
        return None;
    };
    Some(Errand { job, object })
}

// Whether the newest receipt gives a job.
fn has_job(seat: &Seat) -> bool
    ensures none { result ≡ false → dispatching.newest_job seat.now ≡ None }
    ensures gives { result ≡ is_some (dispatching.newest_job seat.now) }
{
    match seat.newest() {
        Some(receipt) => match &receipt.result {
            Ok(Answer::Job(_)) => true,
            _ => false,
        },
        None => false,
    }
}

// A copy of the job that the newest receipt gives. Only memory fails it.
fn newest_job(seat: &Seat) -> Result<Option<Job>, KeeperError>
    ensures { IfOk result (λ job. job ≡ dispatching.newest_job seat.now) }
{
    let Some(receipt) = seat.newest() else {
        return Ok(None);
    };
    let Ok(Answer::Job(job)) = &receipt.result else {
        return Ok(None);
    };
    match job.copy() {
        Ok(job) => Ok(Some(job)),
        Err(_) => Err(KeeperError::OutOfMemory),
    }
}
