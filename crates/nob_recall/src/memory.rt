//! Which transmitted frames are remembered.

ghost use Rattle.std.specs.Prelude.{◌≡◌, ◌↔◌, ◌++◌, true, filter, not, IfOk, OnOk};
ghost use Rattle.std.specs.List.{Contains};
ghost use Rattle.nob_model_types.specs.Deeds.{deed_in};
ghost use Rattle.nob_model_journal.specs.Journals.{frames_of as frames_in};
ghost use Rattle.nob_recall.specs.Remembering as words;

use crate::heard::{is_past, make_heard};
use nob_frame::Frame;
use nob_model::{Entry, Frames, same_frame};
use nob_plain_traces::origins::frames_of;
use std::alloc::{AllocError, Global};

/// The frames that are remembered.
#[derive(Debug, Drop)]
pub struct Memory {
    /// Those that were noted before the last turn.
    pub older: Frames,
    /// Those that were noted since, behind those that were kept at it.
    pub newer: Frames,
    /// How many were kept at it.
    pub kept: usize,
}

// Puts equal frames behind others.
fn put_copies(all: &mut Vec<Frame>, frames: &[Frame]) -> Result<(), AllocError>
    ensures { OnOk result (all.new.items ≡ all.old.items ++ frames.now) }
{
    for frame in frames {
        all.push(frame.copy()?)?;
    }
    Ok(())
}

// Frames, and others behind them.
fn both(alloc: Global, frames: &[Frame], more: &[Frame]) -> Result<Frames, AllocError>
    ensures { IfOk result (λ both. both ≡ frames.now ++ more.now) }
{
    let mut all = Vec::new(alloc);
    put_copies(&mut all, frames)?;
    put_copies(&mut all, more)?;
    Ok(Frames::from_vec(all))
}

// Whether a frame can bring nothing more to the space that it goes to.
fn is_past_in(journal: &[Entry], frame: &Frame) -> bool
    ensures { result ≡ words.is_past_in journal.now frame.now }
{
    is_past(frame, make_heard(frame.from, frame.to, journal))
}

// Equal frames to those of these that aren't past.
fn due_of(alloc: Global, journal: &[Entry], frames: &[Frame]) -> Result<Vec<Frame>, AllocError>
    ensures { IfOk result (λ due. due.items
        ≡ filter (λ frame. not (words.is_past_in journal.now frame)) frames.now) }
{
    match frames {
        [] => Ok(Vec::new(alloc)),
        [frame, others @ ..] => {
            let mut due = due_of(alloc, journal, others)?;
            if is_past_in(journal, frame) {
                return Ok(due);
            }
            due.insert(0, frame.copy()?)?;
            Ok(due)
        }
    }
}

// After a turn.
fn turned(alloc: Global, journal: &[Entry], memory: Memory) -> Result<Memory, AllocError>
    ensures { IfOk result (λ after. after
        ≡ words.turned (words.is_past_in journal.now) memory) }
{
    let Memory {
        older,
        newer,
        kept: _,
    } = memory;
    let due = due_of(alloc, journal, older.as_slice())?;
    let kept = due.len();
    Ok(Memory {
        older: newer,
        newer: Frames::from_vec(due),
        kept,
    })
}

/// The frames that are remembered of a journal, the newest entry first, where a turn comes each
/// time that so many were noted. Only memory fails it. It reads all entries again for each frame.
pub fn make_memory(alloc: Global, span: usize, journal: &[Entry]) -> Result<Memory, AllocError>
    ensures { IfOk result (λ memory. memory ≡ words.memory span journal.now) }
{
    match journal {
        [] => Ok(Memory {
            older: Frames::from_vec(Vec::new(alloc)),
            newer: Frames::from_vec(Vec::new(alloc)),
            kept: 0,
        }),
        [entry, before @ ..] => {
            let earlier = make_memory(alloc, span, before)?;
            with_entry(alloc, span, journal, entry, earlier)
        }
    }
}

// These with the frames of an entry more, the newest of a journal, after a turn if it is due.
fn with_entry(
    alloc: Global,
    span: usize,
    journal: &[Entry],
    entry: &Entry,
    earlier: Memory,
) -> Result<Memory, AllocError>
    ensures { IfOk result (λ memory. memory ≡ words.turned_if_due span
        (words.is_past_in journal.now) (words.noted (frames_in (deed_in entry.now)) earlier)) }
{
    let Memory { older, newer, kept } = earlier;
    let noted = Memory {
        older,
        newer: both(alloc, newer.as_slice(), frames_of(entry))?,
        kept,
    };
    if span <= noted.newer.as_slice().len().saturating_sub(noted.kept) {
        return turned(alloc, journal, noted);
    }
    Ok(noted)
}

// Whether a frame is one of these.
fn is_among(frame: &Frame, frames: &[Frame]) -> bool
    ensures { (result ≡ true) ↔ Contains frames.now frame.now }
{
    match frames {
        [] => false,
        [other, others @ ..] => {
            if same_frame(other, frame) {
                return true;
            }
            is_among(frame, others)
        }
    }
}

/// Whether a frame is one of those that are remembered. Linear in them.
pub fn is_in(frame: &Frame, memory: &Memory) -> bool
    ensures { (result ≡ true) ↔ words.IsIn frame.now memory.now }
{
    is_among(frame, memory.older.as_slice()) || is_among(frame, memory.newer.as_slice())
}
