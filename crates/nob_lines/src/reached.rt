//! How far lines have come, and which one is due there.

ghost use Rattle.std.specs.Prelude.{◌≡◌};
ghost use Rattle.nob_lines.specs.Steps as words;

use crate::first::FirstLine;

/// How far the lines behind a first line have come.
#[derive(Clone, Copy, Debug, PartialEq, Eq)]
pub enum Reached {
    /// Behind so many segments of a chain, with this last stamp, or 0.
    Between(u64, u64),
    /// In the segment of this number, behind an entry of this stamp, or 0, with so many entries
    /// missing. A trace is the segment 1.
    Within(u64, u64, u64),
}

/// Which line is due.
#[derive(Clone, Copy, Debug, PartialEq, Eq)]
pub enum LineDue {
    /// The first line of the next segment.
    Segment,
    /// An entry.
    Entry,
    /// The seal of the segment.
    Seal,
    /// None: all are there.
    Nothing,
}

/// Which line is due behind a first line, where the lines have come so far.
pub fn due_of(first: &FirstLine, reached: Reached) -> LineDue
    ensures { result ≡ words.due_of first.now reached }
{
    match first {
        FirstLine::OfChain(head) => match reached {
            Reached::Between(behind, _) => {
                if behind < head.count {
                    LineDue::Segment
                } else {
                    LineDue::Nothing
                }
            }
            Reached::Within(_, _, missing) => {
                if missing > 0 {
                    LineDue::Entry
                } else {
                    LineDue::Seal
                }
            }
        },
        FirstLine::OfTrace(_) => match reached {
            Reached::Between(_, _) => LineDue::Nothing,
            Reached::Within(_, _, missing) => {
                if missing > 0 {
                    LineDue::Entry
                } else {
                    LineDue::Nothing
                }
            }
        },
    }
}

/// How far the lines have come behind a first line alone.
pub fn start_of(first: &FirstLine) -> Reached
    ensures { result ≡ words.start_of first.now }
{
    match first {
        FirstLine::OfChain(_) => Reached::Between(0, 0),
        FirstLine::OfTrace(head) => Reached::Within(1, 0, head.count),
    }
}
