//! Texts to chains.

ghost use Rattle.std.specs.Prelude.{◌≡◌, ◌++◌, ◌∷◌, ◌<◌, ◌+◌, ◌^◌, [], ℕ, List, length, IfOk, IfErr};
ghost use Rattle.std.specs.List.{AllByRecursion};
ghost use Rattle.nob_frame.specs.declared.version.Version.TheVariants.{Two};
ghost use Rattle.nob_trace.specs.Stamps.{Rise};
ghost use Rattle.nob_trace.specs.Entries as entries;
ghost use Rattle.nob_trace.specs.Reading.{IsNoEntry};
ghost use Rattle.nob_chain.specs.declared.head.ChainHead.{ChainHead as HeadOf};
ghost use Rattle.nob_chain.specs.declared.chain.ChainParts.{ChainParts as PartsOf};
ghost use Rattle.nob_chain.specs.declared.fault.ChainFault.TheVariants as faults;
ghost use Rattle.nob_chain.specs.Seals.{IsSeal, seal_text};
ghost use Rattle.nob_chain.specs.Chains as chains;
ghost use Rattle.nob_chain.specs.Reading as spec;

use crate::chain::{Chain, ChainParts};
use crate::fault::{ChainError, ChainFault};
use crate::head::ChainHead;
use crate::head_reading::{count_of, head_of};
use crate::seal::Seal;
use crate::seal_reading::spelt_seal;
use crate::segment::{Segment, Segments};
use nob_frame::Version;
use nob_model_text::Unread;
use nob_trace::{Entries, Stamped, entry_of, whole_line};
use std::alloc::Global;

/// The one chain that a text is, or what the first line that isn't as it should be is refused for:
/// R1 to R4, R6. It costs time and memory in proportion to the text, whatever numbers stand in it,
/// and recurses once for each level of a value. Memory runs out only at a whole line where an entry
/// or a seal should stand.
pub fn decode(alloc: Global, text: &[u8]) -> Result<Chain, ChainError>
    ensures found { spec.Answers (λ chain. chains.IsChain chain
        × (text.now ≡ chains.chain_text chain))
        (λ fault. spec.ChainProblem text.now fault) result }
    ensures only { (chain : PartsOf) → chains.IsChain chain → text.now ≡ chains.chain_text chain
        → spec.Finds (λ c. c ≡ chain) result }
    ensures memory { spec.RunsOut (spec.AtSegment text.now) result }
{
    whole_chain(alloc, text)
}

/// The chain with which a text begins and what is left, or what the first line that isn't as it
/// should be is refused for: R1, R2, R3 or R6. It costs time and memory in proportion to the chain.
/// Memory runs out only at a whole line where an entry or a seal should stand.
pub fn chain_at(alloc: Global, text: &[u8]) -> Result<(Chain, &[u8]), ChainError>
    ensures found { spec.Answers (λ parts. chains.IsChain parts.0
        × (text.now ≡ chains.chain_text parts.0 ++ parts.1.now))
        (λ fault. spec.FrontFault text.now fault) result }
    ensures only { (chain : PartsOf) (rest : List ℕ) → chains.IsChain chain
        → text.now ≡ chains.chain_text chain ++ rest
        → spec.Finds (λ parts. (parts.0 ≡ chain) × (parts.1.now ≡ rest)) result }
    ensures memory { spec.RunsOut (spec.AtSegment text.now) result }
{
    front_chain(alloc, text)
}

// The one chain that a text is, or what it is refused for.
fn whole_chain(alloc: Global, text: &[u8]) -> Result<Chain, ChainError>
    ensures found { spec.Answers (λ chain. chains.IsChain chain
        × (text.now ≡ chains.chain_text chain))
        (λ fault. spec.ChainProblem text.now fault) result }
    ensures memory { spec.RunsOut (spec.AtSegment text.now) result }
{
    let (chain, rest) = front_chain(alloc, text)?;
    if !rest.is_empty() {
        return Err(ChainError::Fault(ChainFault::Trailing));
    }
    Ok(chain)
}

// The chain with which a text begins and what is left, or what it is refused for.
fn front_chain(alloc: Global, text: &[u8]) -> Result<(Chain, &[u8]), ChainError>
    ensures found { spec.Answers (λ parts. chains.IsChain parts.0
        × (text.now ≡ chains.chain_text parts.0 ++ parts.1.now))
        (λ fault. spec.FrontFault text.now fault) result }
    ensures memory { spec.RunsOut (spec.AtSegment text.now) result }
{
    let Some((line, lines)) = whole_line(text) else {
        return Err(ChainError::Fault(ChainFault::Short));
    };
    let Some(head) = head_of(line) else {
        return Err(ChainError::Fault(ChainFault::Entry));
    };
    let (segments, rest) = segments_at(alloc, &head, lines)?;
    let ChainHead {
        space,
        n,
        limits,
        ..
    } = head;
    Ok((
        Chain::from_parts(ChainParts {
            space,
            n,
            limits,
            segments,
        }),
        rest,
    ))
}

// The segments of a chain behind its first line, and what is left; or R1, R2, R3 or R6.
fn segments_at<'a>(
    alloc: Global,
    head: &ChainHead,
    text: &'a [u8],
) -> Result<(Segments, &'a [u8]), ChainError>
    requires { head.now.count < 2 ^ 64 }
    ensures found { spec.Answers (λ parts. (length parts.0 ≡ head.now.count)
        × Rise 0 (chains.entries_of parts.0)
        × AllByRecursion (chains.IsSegment head.now.space head.now.n) parts.0
        × (text.now ≡ chains.lines_text (chains.segments_lines 1 parts.0) ++ parts.1.now))
        (λ fault. spec.GoesWrong head.now spec.start text.now fault) result }
    ensures memory { spec.RunsOut (spec.AtLine head.now spec.start text.now) result }
{
    let mut all = Vec::new(alloc);
    let mut left = text;
    let mut last = 0;
    while (all.len() as u64) < head.count {
        let (segment, rest) = segment_at(alloc, head, all.len() as u64, last, left)?;
        last = segment.entries.last_stamp();
        all.push(segment)?;
        left = rest;
    }
    Ok((Segments::from_vec(all), left))
}

// The segment behind so many and behind this last stamp, and what is left; or R1, R2, R3 or R6.
fn segment_at<'a>(
    alloc: Global,
    head: &ChainHead,
    behind: u64,
    last: u64,
    text: &'a [u8],
) -> Result<(Segment, &'a [u8]), ChainError>
    requires less { behind < head.now.count }
    requires few { head.now.count < 2 ^ 64 }
    ensures found { spec.Answers (λ parts. chains.IsSegment head.now.space head.now.n parts.0
        × Rise last parts.0.entries
        × (text.now ≡ chains.lines_text (chains.segment_lines (behind + 1) parts.0) ++ parts.1.now))
        (λ fault. spec.GoesWrong head.now (spec.between behind last) text.now fault) result }
    ensures memory { spec.RunsOut (spec.AtLine head.now (spec.between behind last) text.now)
        result }
{
    let (count, lines) = opening_at(behind, text)?;
    let (entries, left) = entries_at(alloc, last, lines, count)?;
    let (seal, rest) = seal_at(alloc, head, left)?;
    Ok((
        Segment {
            entries,
            seal: Some(seal),
        },
        rest,
    ))
}

// How many entries the segment behind so many has, and what stands behind its first line; or R1,
// R2 or R6. It takes no memory.
fn opening_at(behind: u64, text: &[u8]) -> Result<(u64, &[u8]), ChainFault>
    requires { behind + 1 < 2 ^ 64 }
    ensures found { IfOk result (λ parts. (0 < parts.0) × (parts.0 < 2 ^ 64)
        × (text.now ≡ chains.opening_text (behind + 1) parts.0 ++ 10 ∷ parts.1.now)) }
    ensures fault { IfErr result (λ fault. (head : HeadOf) (last : ℕ)
        → spec.LineFault head (spec.between behind last) text.now fault) }
{
    let Some((line, rest)) = whole_line(text) else {
        return Err(ChainFault::Short);
    };
    match count_of(behind, line) {
        Ok(count) => Ok((count, rest)),
        Err(fault) => Err(fault),
    }
}

// The seal at the front of a text, and what is left; or R1 or R2.
fn seal_at<'a>(
    alloc: Global,
    head: &ChainHead,
    text: &'a [u8],
) -> Result<(Seal, &'a [u8]), ChainError>
    ensures found { spec.Answers (λ parts. IsSeal head.now.space head.now.n parts.0
        × (text.now ≡ seal_text parts.0 ++ 10 ∷ parts.1.now))
        (λ fault. (number last : ℕ)
        → spec.LineFault head.now (spec.within number last 0) text.now fault) result }
    ensures memory { spec.RunsOut (spec.HasLine text.now) result }
{
    let Some((line, rest)) = whole_line(text) else {
        return Err(ChainError::Fault(ChainFault::Short));
    };
    let seal = spelt_seal(alloc, head.space, head.n, line)?;
    Ok((seal, rest))
}

// The entries at the front of a text, `count` of them, whose stamps rise from this one, and what is
// left; or R1, R2 or R3.
fn entries_at(
    alloc: Global,
    last: u64,
    text: &[u8],
    count: u64,
) -> Result<(Entries, &[u8]), ChainError>
    ensures found { spec.Answers (λ parts. (length parts.0 ≡ count) × Rise last parts.0
        × AllByRecursion (entries.IsTraced Two) parts.0
        × (text.now ≡ chains.lines_text (chains.entry_lines parts.0) ++ parts.1.now))
        (λ fault. (head : HeadOf) (number : ℕ)
        → spec.GoesWrong head (spec.within number last count) text.now fault) result }
    ensures memory { spec.RunsOut ((head : HeadOf) (number : ℕ)
        → spec.AtLine head (spec.within number last count) text.now) result }
{
    let mut all = Entries::new(alloc);
    let mut left = text;
    let mut low = last;
    while (all.len() as u64) < count {
        let (entry, rest) = stamped_at(alloc, low, left)?;
        low = entry.stamp;
        all.push(entry)?;
        left = rest;
    }
    Ok((all, left))
}

// The entry behind this stamp at the front of a text, and what is left; or R1, R2 or R3.
fn stamped_at(alloc: Global, low: u64, text: &[u8]) -> Result<(Stamped, &[u8]), ChainError>
    ensures found { spec.Answers (λ parts. entries.IsTraced Two parts.0 × (low < parts.0.stamp)
        × (text.now ≡ entries.entry_text Two parts.0 ++ 10 ∷ parts.1.now))
        (λ fault. (head : HeadOf) (number missing : ℕ)
        → spec.LineFault head (spec.within number low (missing + 1)) text.now fault) result }
    ensures memory { spec.RunsOut (spec.HasLine text.now) result }
{
    let Some((line, rest)) = whole_line(text) else {
        return Err(ChainError::Fault(ChainFault::Short));
    };
    let entry = spelt_entry(alloc, line)?;
    if entry.stamp <= low {
        return Err(ChainError::Fault(ChainFault::Stamp));
    }
    Ok((entry, rest))
}

// The entry that a line spells, or R2.
fn spelt_entry(alloc: Global, line: &[u8]) -> Result<Stamped, ChainError>
    ensures { spec.Answers (λ entry. entries.IsTraced Two entry
        × (line.now ≡ entries.entry_text Two entry))
        (λ fault. (fault ≡ faults.Entry) × IsNoEntry Two line.now) result }
{
    match entry_of(alloc, Version::Two, line) {
        Ok(entry) => Ok(entry),
        Err(Unread::NoText) => Err(ChainError::Fault(ChainFault::Entry)),
        Err(Unread::OutOfMemory) => Err(ChainError::OutOfMemory),
    }
}
