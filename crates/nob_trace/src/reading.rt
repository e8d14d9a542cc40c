//! Texts to traces.

ghost use Rattle.std.specs.Prelude.{◌≡◌, ◌≢◌, ◌++◌, ◌∷◌, ◌<◌, ◌≤◌, [], ℕ, List, length};
ghost use Rattle.std.specs.List.{AllByRecursion, flat_map};
ghost use Rattle.nob_trace.specs.declared.stamped.Stamped.{Stamped as StampedOf};
ghost use Rattle.nob_trace.specs.declared.trace.Trace.{Trace as TraceOf};
ghost use Rattle.nob_trace.specs.declared.fault.TraceFault.TheVariants as faults;
ghost use Rattle.nob_trace.specs.Stamps.{Rise};
ghost use Rattle.nob_trace.specs.Entries as entries;
ghost use Rattle.nob_trace.specs.Traces as traces;
ghost use Rattle.nob_trace.specs.Reading as spec;

use crate::entry_reading::entry_of;
use crate::fault::{TraceError, TraceFault};
use crate::head_reading::head_of;
use crate::lines::whole_line;
use crate::stamped::Stamped;
use crate::trace::{Entries, Trace};
use nob_frame::Version;
use nob_model_text::Unread;
use std::alloc::Global;

/// The traces that a text is, one after the other, or what the first line that isn't as it should
/// be is refused for: R1, R2 or R3. An empty text is no traces. It costs time and memory in
/// proportion to the text. Memory runs out only at a whole line where an entry should stand, or
/// behind a whole trace.
pub fn decode_all(alloc: Global, text: &[u8]) -> Result<Vec<Trace>, TraceError>
    ensures found { spec.Answers (λ all. AllByRecursion traces.IsTrace all.items
        × (text.now ≡ flat_map traces.trace_text all.items))
        (λ fault. (all : List TraceOf) × (left : List ℕ)
        × spec.TracesProblem text.now fault all left) result }
    ensures only { (all : List TraceOf) → AllByRecursion traces.IsTrace all
        → text.now ≡ flat_map traces.trace_text all → spec.Finds (λ r. r.items ≡ all) result }
    ensures memory { spec.RunsOut (spec.AtTrace text.now) result }
{
    let mut all = Vec::new(alloc);
    let mut left = text;
    while !left.is_empty() {
        let (trace, rest) = trace_at(alloc, left)?;
        all.push(trace)?;
        left = rest;
    }
    Ok(all)
}

/// The one trace that a text is, or what the first line that isn't as it should be is refused for:
/// R1 to R4. It costs time and memory in proportion to the text, and recurses once for each level
/// of a value. Memory runs out only at a whole line where an entry should stand.
pub fn decode(alloc: Global, text: &[u8]) -> Result<Trace, TraceError>
    ensures found { spec.Answers (λ trace. traces.IsTrace trace
        × (text.now ≡ traces.trace_text trace)) (λ fault. spec.TraceProblem text.now fault) result }
    ensures only { (trace : TraceOf) → traces.IsTrace trace → text.now ≡ traces.trace_text trace
        → spec.Finds (λ t. t ≡ trace) result }
    ensures memory { spec.RunsOut (spec.AtEntry text.now) result }
{
    let (trace, rest) = trace_at(alloc, text)?;
    if !rest.is_empty() {
        return Err(TraceError::Fault(TraceFault::Trailing));
    }
    Ok(trace)
}

/// The trace with which a text begins and what is left, or what the first line that isn't as it
/// should be is refused for: R1, R2 or R3. It costs time and memory in proportion to the trace.
/// Memory runs out only at a whole line where an entry should stand.
pub fn trace_at(alloc: Global, text: &[u8]) -> Result<(Trace, &[u8]), TraceError>
    ensures found { spec.Answers (λ parts. traces.IsTrace parts.0
        × (text.now ≡ traces.trace_text parts.0 ++ parts.1.now))
        (λ fault. spec.TextFault text.now fault) result }
    ensures only { (trace : TraceOf) (rest : List ℕ) → traces.IsTrace trace
        → text.now ≡ traces.trace_text trace ++ rest
        → spec.Finds (λ parts. (parts.0 ≡ trace) × (parts.1.now ≡ rest)) result }
    ensures memory { spec.RunsOut (spec.AtEntry text.now) result }
{
    let Some((line, lines)) = whole_line(text) else {
        return Err(TraceError::Fault(TraceFault::Short));
    };
    let Some(head) = head_of(line) else {
        return Err(TraceError::Fault(TraceFault::Entry));
    };
    let (entries, rest) = entries_at(alloc, head.version, lines, head.count)?;
    Ok((
        Trace {
            version: head.version,
            space: head.space,
            n: head.n,
            limits: head.limits,
            entries,
        },
        rest,
    ))
}

// The entry that a line spells, or R2.
fn spelt_entry(alloc: Global, version: Version, line: &[u8]) -> Result<Stamped, TraceError>
    ensures found { spec.Answers (λ entry. entries.IsTraced version entry
        × (line.now ≡ entries.entry_text version entry))
        (λ fault. (fault ≡ faults.Entry) × spec.IsNoEntry version line.now) result }
    ensures only { (entry : StampedOf) → entries.IsTraced version entry
        → line.now ≡ entries.entry_text version entry → spec.Finds (λ e. e ≡ entry) result }
{
    match entry_of(alloc, version, line) {
        Ok(entry) => Ok(entry),
        Err(Unread::NoText) => Err(TraceError::Fault(TraceFault::Entry)),
        Err(Unread::OutOfMemory) => Err(TraceError::OutOfMemory),
    }
}

// The entries at the front of lines, whose stamps rise, and what is left; or R1, R2 or R3.
fn entries_at(
    alloc: Global,
    version: Version,
    text: &[u8],
    count: u64,
) -> Result<(Entries, &[u8]), TraceError>
    ensures found { spec.Answers (λ parts. (length parts.0 ≡ count) × Rise 0 parts.0
        × AllByRecursion (entries.IsTraced version) parts.0
        × (text.now ≡ traces.entries_text version parts.0 ++ parts.1.now))
        (λ fault. spec.EntriesFault version text.now count fault) result }
    ensures only { (all : List StampedOf) (rest : List ℕ) → length all ≡ count → Rise 0 all
        → AllByRecursion (entries.IsTraced version) all
        → text.now ≡ traces.entries_text version all ++ rest
        → spec.Finds (λ parts. (parts.0 ≡ all) × (parts.1.now ≡ rest)) result }
    ensures memory { spec.RunsOut (spec.AtLine version text.now count) result }
{
    let mut all = Entries::new(alloc);
    let mut left = text;
    while (all.len() as u64) < count {
        let Some((line, rest)) = whole_line(left) else {
            return Err(TraceError::Fault(TraceFault::Short));
        };
        let entry = spelt_entry(alloc, version, line)?;
        if entry.stamp <= all.last_stamp() {
            return Err(TraceError::Fault(TraceFault::Stamp));
        }
        all.push(entry)?;
        left = rest;
    }
    Ok((all, left))
}
