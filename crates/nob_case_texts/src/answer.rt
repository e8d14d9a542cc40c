//! What cases answer.

ghost use Rattle.std.specs.Prelude.{◌≡◌};
ghost use Rattle.nob_case_texts.specs.Answers.{Writes};
ghost use Rattle.nob_case_texts.specs.Words as spec;

use nob_frame::{Frame, FrameError, FrameFault};
use nob_ids::{ItemNo, Reason, SpaceId, WireRep};
use nob_item::{Item, ItemError};
use nob_pickle::{PickleError, Value};
use nob_pins::PinFault;
use nob_session::SessionError;
use nob_table::{Standing, TableError};

/// A refusal of one of the crates.
#[derive(Clone, Copy)]
pub enum Refusal {
    /// P1 to P8.
    Pickle(PickleError),
    /// I1 to I6.
    Item(ItemError),
    /// F1 to F11.
    Frame(FrameError),
    /// N1 to N4.
    End(SessionError),
    /// B1 to B4.
    Table(TableError),
    /// G1.
    Pins(PinFault),
}

/// What a push to a Feed answers.
#[derive(Drop)]
pub enum Push {
    /// These frames are whole now.
    Frames(Vec<Frame>),
    /// The Feed has met this fault.
    Refused(FrameFault),
}

/// What a call on a pin table answers.
#[derive(Clone, Copy)]
pub enum PinAnswer {
    /// It is done.
    Done,
    /// It is done, and took the place of a bundle that was there.
    Replaced,
    /// The call is none that the table may be asked.
    NoCall,
    /// The table's refusal.
    Refused(PinFault),
    /// How often a reference is in transit.
    Count(u64),
}

/// What a case answers.
#[derive(Drop)]
pub enum Answer {
    /// This word: `ok`, `none`, `yes`, `no` or another.
    Word(&'static str),
    /// This refusal.
    Refused(Refusal),
    /// A number.
    Number(u64),
    /// A value.
    Value(Value),
    /// An item.
    Item(Item),
    /// Frames.
    Frames(Vec<Frame>),
    /// Bytes.
    Bytes(Vec<u8>),
    /// References, in order.
    References(Vec<WireRep>),
    /// Spaces, in order.
    Spaces(Vec<SpaceId>),
    /// What each push to a Feed answers.
    Pushes(Vec<Push>),
    /// What each call on a pin table answers.
    Pins(Vec<PinAnswer>),
    /// The number of an item that is to be sent.
    Sent(ItemNo),
    /// An item that waits, with its number.
    Waits(ItemNo, Vec<u8>),
    /// How many items an arrival accepted.
    Took(u64),
    /// The end has closed for this reason.
    Closed(Reason),
    /// A reference.
    Reference(WireRep),
    /// How a reference stands.
    Stands(Standing),
    /// The place of a surrogate in the order of last Dirties, and the surrogate.
    Idle(u128, WireRep),
    /// How many live objects and how many surrogates there are.
    Counts(usize, usize),
}

impl Answer {
    /// `yes` or `no`.
    pub fn of_test(holds: bool) -> Answer
        ensures { Writes result (spec.test_word holds) }
    {
        Answer::Word(if holds { "yes" } else { "no" })
    }
}
