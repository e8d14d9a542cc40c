//! What is measured.

use crate::reading::{number_of, size_of};

/// What strangers send.
#[derive(Clone, Copy, Debug, PartialEq, Eq)]
pub(crate) enum Sort {
    /// Frames that carry nothing.
    Acks,
    /// Calls of the space's agent, each in its place.
    Calls,
    /// By turns that the stranger wants to be listed for one object, and that it has given it up.
    Notes,
    /// The first Call again and again.
    Repeats,
    /// Calls far ahead of their place.
    Early,
    /// Calls for another space.
    Strays,
    /// Acknowledgements of what was never transmitted.
    BadAcks,
    /// Items that can't be read.
    Unread,
    /// Calls with a reference to an object that there never was.
    Unknown,
    /// Settles of items that were never sent.
    Misplaced,
    /// Calls in which a byte of the frame is changed.
    Changed,
}

/// How far each frame gets.
#[derive(Clone, Copy, Debug, PartialEq, Eq)]
pub(crate) enum Reach {
    /// It is written as bytes.
    Written,
    /// The bytes are read.
    Read,
    /// The frame comes to the space.
    Come,
    /// The space acts on what it brought.
    Acted,
}

/// How the space keeps its objects.
#[derive(Clone, Copy, Debug, PartialEq, Eq)]
pub(crate) enum ObjectsKept {
    /// It holds each once.
    Own,
    /// It holds each once, and a stranger is listed for it.
    Listed,
}

/// What is measured: a space has so many objects, and each stranger sends it so many frames of so
/// many bytes; all that so many times.
#[derive(Clone, Copy, Debug)]
pub(crate) struct StrangerTask {
    pub(crate) sort: Sort,
    pub(crate) reach: Reach,
    pub(crate) kept: ObjectsKept,
    pub(crate) held: u64,
    pub(crate) size: usize,
    pub(crate) frames: u64,
    pub(crate) rounds: u64,
}

/// The task of a line: `None` where it has other words.
pub(crate) fn task_of(line: &str) -> Option<StrangerTask> {
    let mut words = line.split_whitespace();
    let sort = sort_of(words.next()?)?;
    let reach = reach_of(words.next()?)?;
    let kept = kept_of(words.next()?)?;
    Some(StrangerTask {
        sort,
        reach,
        kept,
        held: number_of(words.next())?,
        size: size_of(words.next())?,
        frames: number_of(words.next())?,
        rounds: number_of(words.next())?,
    })
}

// What a word says that strangers send.
fn sort_of(word: &str) -> Option<Sort> {
    Some(match word {
        "acks" => Sort::Acks,
        "calls" => Sort::Calls,
        "notes" => Sort::Notes,
        "repeats" => Sort::Repeats,
        "early" => Sort::Early,
        "strays" => Sort::Strays,
        "bad-acks" => Sort::BadAcks,
        "unread" => Sort::Unread,
        "unknown" => Sort::Unknown,
        "misplaced" => Sort::Misplaced,
        "changed" => Sort::Changed,
        _ => return None,
    })
}

// How far a word says that each frame gets.
fn reach_of(word: &str) -> Option<Reach> {
    Some(match word {
        "written" => Reach::Written,
        "read" => Reach::Read,
        "come" => Reach::Come,
        "acted" => Reach::Acted,
        _ => return None,
    })
}

// How a word says that the space keeps its objects.
fn kept_of(word: &str) -> Option<ObjectsKept> {
    Some(match word {
        "own" => ObjectsKept::Own,
        "listed" => ObjectsKept::Listed,
        _ => return None,
    })
}
