//! What a space is asked to do.

ghost use Rattle.std.specs.Prelude.{◌≡◌, IfOk};

use nob_ids::{CallNo, JobNo, SpaceId, WireRep};
use nob_item::Value;
use nob_model_session::Frame;
use std::alloc::AllocError;

/// What a job's method made of its call.
#[derive(Debug)]
pub enum Outcome {
    /// It answered this value.
    Answer(Value),
    /// It failed, with this value.
    Fault(Value),
    /// There is no such method.
    NoMethod,
}

impl Drop for Outcome {
    fn drop(self) {
        match self {
            Outcome::Answer(value) | Outcome::Fault(value) => drop(value),
            Outcome::NoMethod => {}
        }
    }
}

impl Outcome {
    /// An equal outcome. Only memory fails it. It recurses once for each level of the value.
    pub fn copy(&self) -> Result<Outcome, AllocError>
        ensures { IfOk result (λ outcome. outcome ≡ self.now) }
    {
        match self {
            Outcome::Answer(value) => Ok(Outcome::Answer(value.copy()?)),
            Outcome::Fault(value) => Ok(Outcome::Fault(value.copy()?)),
            Outcome::NoMethod => Ok(Outcome::NoMethod),
        }
    }
}

/// What a space is asked to do. Nothing more than this ever changes it.
#[derive(Debug)]
pub enum Event {
    /// Makes a new object known under the next index and holds it once.
    Export,
    /// Holds a reference once more.
    Dup(WireRep),
    /// Gives back one hold on a reference.
    Release(WireRep),
    /// Calls a method of the object that a reference names.
    Call {
        /// The object.
        target: WireRep,
        /// The number of the method.
        method: u16,
        /// The argument.
        value: Value,
    },
    /// Takes the reply to a call.
    TakeReply(CallNo),
    /// Takes a job: a call that has come and whose object isn't running.
    Claim,
    /// Ends a job.
    Finish(JobNo, Outcome),
    /// Acts on the next item that was accepted from a peer.
    Act(SpaceId),
    /// Settles the first message whose references are all resolved.
    Settle,
    /// Gives up the first surrogate that nothing uses.
    Clean,
    /// Withdraws the object of this index.
    Withdraw(u64),
    /// Gives the frames that are to be sent to a peer now.
    Transmit(SpaceId),
    /// Takes a frame that has come.
    Arrive(Frame),
    /// Counts a tick of the session with a peer.
    Tick(SpaceId),
    /// Closes the session with a peer.
    Close(SpaceId),
    /// Opens a session with a peer anew.
    Open(SpaceId),
}

impl Drop for Event {
    fn drop(self) {
        match self {
            Event::Call {
                target: _,
                method: _,
                value,
            } => drop(value),
            Event::Finish(_, outcome) => drop(outcome),
            Event::Arrive(frame) => drop(frame),
            Event::Export
            | Event::Dup(_)
            | Event::Release(_)
            | Event::TakeReply(_)
            | Event::Claim
            | Event::Act(_)
            | Event::Settle
            | Event::Clean
            | Event::Withdraw(_)
            | Event::Transmit(_)
            | Event::Tick(_)
            | Event::Close(_)
            | Event::Open(_) => {}
        }
    }
}

impl Event {
    /// An equal event. Only memory fails it. It recurses once for each level of a value.
    pub fn copy(&self) -> Result<Event, AllocError>
        ensures { IfOk result (λ event. event ≡ self.now) }
    {
        match self {
            Event::Export => Ok(Event::Export),
            Event::Dup(rep) => Ok(Event::Dup(*rep)),
            Event::Release(rep) => Ok(Event::Release(*rep)),
            Event::Call {
                target,
                method,
                value,
            } => Ok(Event::Call {
                target: *target,
                method: *method,
                value: value.copy()?,
            }),
            Event::TakeReply(call) => Ok(Event::TakeReply(*call)),
            Event::Claim => Ok(Event::Claim),
            Event::Finish(job, outcome) => Ok(Event::Finish(*job, outcome.copy()?)),
            Event::Act(peer) => Ok(Event::Act(*peer)),
            Event::Settle => Ok(Event::Settle),
            Event::Clean => Ok(Event::Clean),
            Event::Withdraw(index) => Ok(Event::Withdraw(*index)),
            Event::Transmit(peer) => Ok(Event::Transmit(*peer)),
            Event::Arrive(frame) => Ok(Event::Arrive(frame.copy()?)),
            Event::Tick(peer) => Ok(Event::Tick(*peer)),
            Event::Close(peer) => Ok(Event::Close(*peer)),
            Event::Open(peer) => Ok(Event::Open(*peer)),
        }
    }
}
