//! What comes of files that are followed.

use nob_chain::ChainFault;
use nob_recall::WatchFault;
use std::io;

/// A line of a file: the file's place among the names, and the line's number, from 1 on.
#[derive(Clone, Copy, Debug, PartialEq, Eq)]
pub struct Spot {
    /// The file's place.
    pub file: usize,
    /// The line's number.
    pub line: u64,
}

/// What comes of files that are followed.
#[derive(Drop)]
pub enum Followed {
    /// They are whole, and all of so many entries were passed.
    Accepted(u64),
    /// So many entries were passed: all up to the lowest last stamp.
    Cut(u64),
    /// This line isn't as it should be.
    Refused(Spot, ChainFault),
    /// The entry that stands there, or the seal, is wrong: the first in the order of stamps.
    Wrong(Spot, WatchFault),
    /// The files aren't one of each space, each of as many spaces as there are.
    NotOneEach,
    /// The file at this place can't be read.
    Unread(usize, io::Error),
    /// Memory ran out.
    OutOfMemory,
}

/// The file at this place can't be read, unless memory ran out.
pub fn unread(file: usize, error: io::Error) -> Followed {
    match error.kind() {
        io::ErrorKind::OutOfMemory => Followed::OutOfMemory,
        _ => Followed::Unread(file, error),
    }
}
