//! What one line makes of what was read.

ghost use Rattle.std.specs.Prelude.{◌≡◌, ◌<◌, OnErr};
ghost use Rattle.nob_chain.specs.Reading as reading;
ghost use Rattle.nob_lines.specs.declared.reached.LineDue.TheVariants as dues;
ghost use Rattle.nob_lines.specs.Steps as words;

use crate::first::FirstLine;
use crate::line_reading::{count_at_line, entry_at_line};
use crate::reached::Reached;
use crate::seal_line::seal_of_line;
use nob_chain::{ChainError, ChainFault, Seal};
use nob_ids::SpaceId;
use nob_model_types::Entry;
use nob_recall::{Dated, SegmentSeal};
use nob_trace::Stamped;
use std::alloc::Global;

/// What was read of a chain or trace: its first line, and how far its lines have come. One entry is
/// held back, since the seal of a segment stands behind the last one of it.
#[derive(Debug, Drop)]
pub struct LinesRead {
    /// The first line.
    pub first: FirstLine,
    /// How far the lines behind it have come.
    pub reached: Reached,
    /// The entry that is held back.
    pub held: Option<Dated>,
}

// An entry of a space, with no seal behind it.
fn dated_of(space: SpaceId, entry: Stamped) -> Dated
    ensures { result ≡ words.dated_of space entry }
{
    let Stamped {
        stamp,
        event,
        result,
    } = entry;
    Dated {
        stamp,
        entry: Entry {
            space,
            event,
            result,
        },
        seal: None,
    }
}

// An entry with the seal of this segment behind it, where there is one.
fn sealed_by(number: u64, seal: Seal, held: Option<Dated>) -> Option<Dated>
    ensures { result ≡ words.sealed_by number seal held }
{
    let Some(dated) = held else {
        return None;
    };
    let Dated {
        stamp,
        entry,
        seal: _,
    } = dated;
    Some(Dated {
        stamp,
        entry,
        seal: Some(SegmentSeal { number, seal }),
    })
}

/// The first line of the next segment, which is due.
pub(crate) fn take_opening(read: &mut LinesRead, line: &[u8]) -> Result<Option<Dated>, ChainError>
    requires kept { words.IsKept read.old }
    requires due { words.due_of read.old.first read.old.reached ≡ dues.Segment }
    ensures answer { reading.Answers (λ told. words.HasRead read.old read.new line.now told)
        (λ fault. words.IsLineFault read.old line.now fault) result }
    ensures kept { words.IsKept read.new }
    ensures err { OnErr result (read.new ≡ read.old) }
{
    let Reached::Between(behind, last) = read.reached else {
        return Err(ChainError::Fault(ChainFault::Trailing));
    };
    match count_at_line(behind, line) {
        Ok(count) => {
            read.reached = Reached::Within(behind + 1, last, count);
            Ok(None)
        }
        Err(fault) => Err(ChainError::Fault(fault)),
    }
}

/// An entry, which is due: the one before it is whole.
pub(crate) fn take_entry(
    alloc: Global,
    read: &mut LinesRead,
    line: &[u8],
) -> Result<Option<Dated>, ChainError>
    requires kept { words.IsKept read.old }
    requires due { words.due_of read.old.first read.old.reached ≡ dues.Entry }
    ensures answer { reading.Answers (λ told. words.HasRead read.old read.new line.now told)
        (λ fault. words.IsLineFault read.old line.now fault) result }
    ensures kept { words.IsKept read.new }
    ensures err { OnErr result (read.new ≡ read.old) }
{
    let Reached::Within(number, last, missing) = read.reached else {
        return Err(ChainError::Fault(ChainFault::Trailing));
    };
    let entry = match entry_at_line(alloc, read.first.version(), last, line) {
        Ok(entry) => entry,
        Err(error) => return Err(error),
    };
    read.reached = Reached::Within(number, entry.stamp, missing - 1);
    let before = read.held.take();
    read.held = Some(dated_of(read.first.space(), entry));
    Ok(before)
}

/// The seal of a segment, which is due: the entry before it is whole with it.
pub(crate) fn take_seal(
    alloc: Global,
    read: &mut LinesRead,
    line: &[u8],
) -> Result<Option<Dated>, ChainError>
    requires kept { words.IsKept read.old }
    requires due { words.due_of read.old.first read.old.reached ≡ dues.Seal }
    ensures answer { reading.Answers (λ told. words.HasRead read.old read.new line.now told)
        (λ fault. words.IsLineFault read.old line.now fault) result }
    ensures kept { words.IsKept read.new }
    ensures err { OnErr result (read.new ≡ read.old) }
{
    let Reached::Within(number, last, _) = read.reached else {
        return Err(ChainError::Fault(ChainFault::Trailing));
    };
    let seal = match seal_of_line(alloc, read.first.space(), read.first.n(), line) {
        Ok(seal) => seal,
        Err(error) => return Err(error),
    };
    read.reached = Reached::Between(number, last);
    Ok(sealed_by(number, seal, read.held.take()))
}
