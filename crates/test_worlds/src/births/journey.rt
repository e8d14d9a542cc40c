//! The way of a reference: space 1 hands it to space 2, which keeps it, passes it on to space 3 and
//! drops it.

ghost use Rattle.std.specs.Prelude.{◌≡◌, None, replicate};

use nob_exchange::{agent_of, exchange};
use nob_ids::{CallNo, JobNo, WireRep};
use nob_model_types::Outcome;
use nob_pickle::Value;
use nob_space::{Space, SpaceError};
use std::alloc::AllocError;

/// The number of moves on the way.
pub const MOVES: u32 = 18;

// The maximum number of times that a space gives the object back, or takes a job.
const TIMES: u32 = 4;

/// What is known on the way.
#[derive(Clone, Copy)]
pub struct Journey {
    /// The object, once it is exported.
    pub object: Option<WireRep>,
    /// The call by which it was handed out.
    call: Option<CallNo>,
    /// The job that runs.
    job: Option<JobNo>,
    /// How many indexes each space gave.
    pub indexes: [u64; 3],
    /// How many calls each made.
    pub calls: [u64; 3],
}

impl Journey {
    /// The way before its first move.
    pub fn new() -> Journey
        ensures object { result.object ≡ None }
        ensures indexes { result.indexes ≡ replicate 3 0 }
        ensures calls { result.calls ≡ replicate 3 0 }
    {
        Journey {
            object: None,
            call: None,
            job: None,
            indexes: [0; 3],
            calls: [0; 3],
        }
    }

    // Space 1 exports the object.
    fn export(&mut self, one: &mut Space) -> Result<(), SpaceError> {
        self.object = Some(one.export()?);
        self.indexes = [1, 0, 0];
        Ok(())
    }

    // A space hands the object out in a call of another's agent.
    fn hand(&mut self, from: &mut Space, to: &Space) -> Result<(), SpaceError> {
        if let Some(object) = self.object {
            self.call = Some(from.call(&agent_of(to), 1, &Value::Ref(object))?);
        }
        Ok(())
    }

    // Space 1 hands it to space 2.
    fn hand_out(&mut self, one: &mut Space, two: &Space) -> Result<(), SpaceError> {
        self.hand(one, two)?;
        self.calls = [1, 0, 0];
        Ok(())
    }

    // Space 2 passes it on to space 3.
    fn pass_on(&mut self, two: &mut Space, three: &Space) -> Result<(), SpaceError> {
        self.hand(two, three)?;
        self.calls = [1, 1, 0];
        Ok(())
    }

    // A space holds the object once more.
    fn keep(&self, space: &mut Space) -> Result<(), SpaceError> {
        if let Some(object) = self.object {
            space.dup(&object)?;
        }
        Ok(())
    }

    // A space gives the object back.
    fn drop_it(&self, space: &mut Space) -> Result<(), SpaceError> {
        if let Some(object) = self.object {
            space.release(&object)?;
        }
        Ok(())
    }

    // A space takes a job.
    fn claim(&mut self, space: &mut Space) -> Result<(), SpaceError> {
        self.job = Some(space.claim()?.job);
        Ok(())
    }

    // It ends it.
    fn finish(&mut self, space: &mut Space) -> Result<(), SpaceError> {
        if let Some(job) = self.job {
            space.finish(job, &Outcome::Answer(Value::Unit))?;
        }
        Ok(())
    }

    // A space takes the reply to its call.
    fn take(&mut self, space: &mut Space) -> Result<(), SpaceError> {
        if let Some(call) = self.call {
            space.take_reply(call)?;
        }
        Ok(())
    }

    /// Ends at a space what was begun on the way: its job and its call, and what it holds of the
    /// object.
    pub fn end(&self, space: &mut Space) -> Result<(), AllocError> {
        if let Some(job) = self.job {
            end_job(space, job)?;
        }
        if let Some(call) = self.call {
            drop(space.take_reply(call));
        }
        if let Some(object) = self.object {
            for _ in 0..TIMES {
                drop(space.release(&object));
            }
        }
        Ok(())
    }

    /// Makes a move of the way: an error where it is refused, or for want of memory.
    pub fn make(
        &mut self,
        place: u32,
        one: &mut Space,
        two: &mut Space,
        three: &mut Space,
    ) -> Result<(), SpaceError> {
        if place < 9 {
            return self.make_first(place, one, two);
        }
        match place {
            9 => self.pass_on(two, three),
            10 => self.drop_it(two),
            11 => Ok(exchange(two, three)?),
            12 => Ok(exchange(one, three)?),
            13 => Ok(exchange(two, three)?),
            14 => Ok(exchange(one, two)?),
            15 => self.claim(three),
            16 => self.finish(three),
            _ => Ok(exchange(one, three)?),
        }
    }

    // The first moves: between the spaces 1 and 2.
    fn make_first(
        &mut self,
        place: u32,
        one: &mut Space,
        two: &mut Space,
    ) -> Result<(), SpaceError> {
        match place {
            0 => self.export(one),
            1 => self.hand_out(one, two),
            2 => self.drop_it(one),
            3 => Ok(exchange(one, two)?),
            4 => self.keep(two),
            5 => self.claim(two),
            6 => self.finish(two),
            7 => Ok(exchange(one, two)?),
            _ => self.take(one),
        }
    }
}

// A space ends a job, if it runs. Only memory fails it.
fn end_job(space: &mut Space, job: JobNo) -> Result<(), AllocError> {
    match space.finish(job, &Outcome::Answer(Value::Unit)) {
        Ok(_) => Ok(()),
        Err(SpaceError::Refused(_)) => Ok(()),
        Err(SpaceError::OutOfMemory) => Err(AllocError),
    }
}

/// A space takes the jobs that it can, and ends them. Only memory fails it.
pub fn end_jobs(space: &mut Space) -> Result<(), AllocError> {
    for _ in 0..TIMES {
        match space.claim() {
            Ok(job) => end_job(space, job.job)?,
            Err(SpaceError::Refused(_)) => return Ok(()),
            Err(SpaceError::OutOfMemory) => return Err(AllocError),
        }
    }
    Ok(())
}
