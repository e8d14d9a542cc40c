//! What happened among strangers, so that it shows where too little did.

ghost use Rattle.std.specs.Prelude.{◌≡◌, [], length, OnErr};

use nob_frame::FrameFault;
use nob_ids::Reason;
use nob_model::Answer;
use std::alloc::{AllocError, Global};

/// Which numbers were seen, each once.
#[derive(Drop)]
pub struct SeenNumbers {
    /// The numbers, in the order in which they were seen first.
    pub numbers: Vec<u8>,
}

impl SeenNumbers {
    /// None.
    pub fn new(alloc: Global) -> SeenNumbers
        ensures { result.numbers.items ≡ [] }
    {
        SeenNumbers {
            numbers: Vec::new(alloc),
        }
    }

    /// This one is seen. Only memory fails it.
    pub fn note(&mut self, number: u8) -> Result<(), AllocError>
        ensures err { OnErr result (self.new.numbers.items ≡ self.old.numbers.items) }
    {
        if self.numbers.iter().any(|seen| *seen == number) {
            return Ok(());
        }
        self.numbers.push(number)?;
        Ok(())
    }

    /// How many were seen.
    pub fn count(&self) -> usize
        ensures { result ≡ length self.now.numbers.items }
    {
        self.numbers.len()
    }
}

/// What happened.
pub struct Happenings {
    /// For which faults frames were refused, by their numbers.
    pub faults: SeenNumbers,
    /// For which reasons sessions were closed, by their numbers.
    pub reasons: SeenNumbers,
    /// Which kinds of answer were given, in the order in which the type has them.
    pub answers: SeenNumbers,
}

impl Drop for Happenings {
    fn drop(self) {
        let Happenings {
            faults: _,
            reasons: _,
            answers: _,
        } = self;
    }
}

impl Happenings {
    /// Nothing.
    pub fn new(alloc: Global) -> Happenings {
        Happenings {
            faults: SeenNumbers::new(alloc),
            reasons: SeenNumbers::new(alloc),
            answers: SeenNumbers::new(alloc),
        }
    }

    /// A frame was refused. Only memory fails it.
    pub fn note_fault(&mut self, fault: FrameFault) -> Result<(), AllocError> {
        self.faults.note(number_of_fault(fault))
    }

    /// A space answered. Only memory fails it.
    pub fn note_answer(&mut self, answer: &Answer) -> Result<(), AllocError> {
        if let Answer::Closed(reason) = answer {
            self.note_reason(*reason)?;
        }
        self.answers.note(number_of_answer(answer))
    }

    // A session was closed.
    fn note_reason(&mut self, reason: Reason) -> Result<(), AllocError> {
        self.reasons.note(reason.number())
    }
}

// The number of a fault.
fn number_of_fault(fault: FrameFault) -> u8 {
    match fault {
        FrameFault::Short => 1,
        FrameFault::Magic => 2,
        FrameFault::Version => 3,
        FrameFault::Kind => 4,
        FrameFault::Flags => 5,
        FrameFault::Spaces => 6,
        FrameFault::Seq => 7,
        FrameFault::Ack => 8,
        FrameFault::Length => 9,
        FrameFault::Reason => 10,
        FrameFault::Trailing => 11,
        FrameFault::Session => 12,
    }
}

// The place of an answer's kind among all kinds.
fn number_of_answer(answer: &Answer) -> u8 {
    match answer {
        Answer::Exported(_) => 1,
        Answer::Done => 2,
        Answer::Called(_) => 3,
        Answer::Replied(_, _) => 4,
        Answer::Ended => 5,
        Answer::Job(_) => 6,
        Answer::Finished => 7,
        Answer::Dropped => 8,
        Answer::Acted(_) => 9,
        Answer::Closed(_) => 10,
        Answer::Settled(_, _) => 11,
        Answer::Cleaned(_) => 12,
        Answer::Withdrawn => 13,
        Answer::Frames(_) => 14,
        Answer::Took(_) => 15,
        Answer::Opened(_) => 16,
    }
}
