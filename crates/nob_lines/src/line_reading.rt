//! Lines of segments and of entries to what they say.

ghost use Rattle.std.specs.Prelude.{◌≡◌, ◌++◌, ◌∷◌, ◌<◌, ◌^◌, ◌+◌, ℕ, List, IfSome, IfOk, IfErr, IsSomeAnd};
ghost use Rattle.nob_trace.specs.Entries as entries;
ghost use Rattle.nob_chain.specs.Chains as chains;
ghost use Rattle.nob_chain.specs.Openings.{OpeningFault};
ghost use Rattle.nob_chain.specs.Reading as reading;
ghost use Rattle.nob_lines.specs.Steps as words;

use nob_chain::{ChainError, ChainFault};
use nob_frame::Version;
use nob_model_text::Unread;
use nob_trace::{Stamped, entry_of, number_behind, number_of};
use std::alloc::Global;

/// How many entries the first line of the segment behind so many says, or R2 or R6. It takes no
/// memory.
pub fn count_at_line(behind: u64, line: &[u8]) -> Result<u64, ChainFault>
    requires { behind + 1 < 2 ^ 64 }
    ensures found { IfOk result (λ count. (0 < count) × (count < 2 ^ 64)
        × (line.now ≡ chains.opening_text (behind + 1) count)) }
    ensures fault { IfErr result (λ fault. OpeningFault behind line.now fault) }
{
    let Some((number, count)) = opening_at_line(line) else {
        return Err(ChainFault::Entry);
    };
    if number != behind + 1 || count == 0 {
        return Err(ChainFault::Segment);
    }
    Ok(count)
}

// What the first line of a segment says: its number, and how many entries it has.
fn opening_at_line(line: &[u8]) -> Option<(u64, u64)>
    ensures found { IfSome result (λ parts. line.now ≡ chains.opening_text parts.0 parts.1) }
    ensures only { (number count : ℕ) → number < 2 ^ 64 → count < 2 ^ 64
        → line.now ≡ chains.opening_text number count
        → IsSomeAnd result (λ parts. (parts.0 ≡ number) × (parts.1 ≡ count)) }
{
    let Some((number, behind)) = number_behind(line, b"segment ".as_slice()) else {
        return None;
    };
    let Some(digits) = behind.strip_prefix(b"entries ".as_slice()) else {
        return None;
    };
    match number_of(digits) {
        Some(count) => Some((number, count)),
        None => None,
    }
}

/// The entry behind this stamp that a line spells in this version, or R2 or R3.
pub fn entry_at_line(
    alloc: Global,
    version: Version,
    last: u64,
    line: &[u8],
) -> Result<Stamped, ChainError>
    ensures { reading.Answers (λ entry. entries.IsTraced version entry
        × (line.now ≡ entries.entry_text version entry) × (last < entry.stamp))
        (λ fault. words.IsEntryFault version last line.now fault) result }
{
    match entry_of(alloc, version, line) {
        Ok(entry) => {
            if entry.stamp <= last {
                return Err(ChainError::Fault(ChainFault::Stamp));
            }
            Ok(entry)
        }
        Err(Unread::NoText) => Err(ChainError::Fault(ChainFault::Entry)),
        Err(Unread::OutOfMemory) => Err(ChainError::OutOfMemory),
    }
}
