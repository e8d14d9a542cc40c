//! What is told of an answer, as numbers.

ghost use Rattle.std.specs.Prelude.{◌≡◌};
ghost use Rattle.nob_space_state.specs.Closing.{arrive_answer};
ghost use Rattle.nob_host_space.specs.Numbers as spec;

use nob_ids::WireRep;
use nob_model::{Answer, Arrived, Job};

/// What is told of an answer, as numbers: those that a kind of answer doesn't have are 0.
#[repr(C)]
#[derive(Clone, Copy, Debug, PartialEq, Eq)]
pub struct Told {
    /// Which kind of answer it is, from 1 on, and 0 where there is none.
    pub kind: u32,
    /// A space: the owner of a reference, a peer, a client.
    pub space: u16,
    /// The method of a job.
    pub method: u16,
    /// The number of a call, a job or an item, of a reason, or how many there are.
    pub number: u64,
    /// The index of a reference, or that of the object which a job calls.
    pub index: u64,
    /// The number of a job's call at its client.
    pub call: u64,
}

impl Told {
    /// Nothing is told.
    pub fn nothing() -> Told
        ensures { result ≡ spec.nothing }
    {
        Told {
            kind: 0,
            space: 0,
            method: 0,
            number: 0,
            index: 0,
            call: 0,
        }
    }

    // A kind alone.
    fn only(kind: u32) -> Told
        ensures { result ≡ spec.only kind }
    {
        Told {
            kind,
            space: 0,
            method: 0,
            number: 0,
            index: 0,
            call: 0,
        }
    }

    /// A kind and a number.
    pub fn numbered(kind: u32, number: u64) -> Told
        ensures { result ≡ spec.numbered kind number }
    {
        Told {
            kind,
            space: 0,
            method: 0,
            number,
            index: 0,
            call: 0,
        }
    }

    // A kind and a reference.
    fn of_reference(kind: u32, rep: &WireRep) -> Told
        ensures { result ≡ spec.with_reference kind rep.now }
    {
        Told {
            kind,
            space: rep.owner.get(),
            method: 0,
            number: 0,
            index: rep.index,
            call: 0,
        }
    }

    // A job, but for its value.
    fn of_job(job: &Job) -> Told
        ensures { result ≡ spec.job_told job.now }
    {
        Told {
            kind: 6,
            space: job.client.get(),
            method: job.method,
            number: job.job.get(),
            index: job.target,
            call: job.call.get(),
        }
    }

    /// What is told of what a frame brought.
    pub fn of_arrived(arrived: Arrived) -> Told
        ensures { result ≡ spec.answer_told (arrive_answer arrived) }
    {
        match arrived {
            Arrived::Took(count) => Told::numbered(15, count),
            Arrived::Closed(ending) => Told::numbered(10, ending.reason.number() as u64),
        }
    }

    /// What is told of an answer.
    pub fn of(answer: &Answer) -> Told
        ensures { result ≡ spec.answer_told answer.now }
    {
        match answer {
            Answer::Exported(rep) => Told::of_reference(1, rep),
            Answer::Done => Told::only(2),
            Answer::Called(call) => Told::numbered(3, call.get()),
            Answer::Replied(status, _) => Told::numbered(4, *status as u64),
            Answer::Ended => Told::only(5),
            Answer::Job(job) => Told::of_job(job),
            Answer::Finished => Told::only(7),
            Answer::Dropped => Told::only(8),
            Answer::Acted(item) => Told::numbered(9, item.get()),
            Answer::Closed(reason) => Told::numbered(10, reason.number() as u64),
            Answer::Settled(peer, item) => Told {
                kind: 11,
                space: peer.get(),
                method: 0,
                number: item.get(),
                index: 0,
                call: 0,
            },
            Answer::Cleaned(rep) => Told::of_reference(12, rep),
            Answer::Withdrawn => Told::only(13),
            Answer::Frames(frames) => Told::numbered(14, frames.as_slice().len() as u64),
            Answer::Took(count) => Told::numbered(15, *count),
            Answer::Opened(number) => Told::numbered(17, *number as u64),
        }
    }
}
