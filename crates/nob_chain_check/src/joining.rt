//! Chains as the traces that they are.

ghost use Rattle.std.specs.Prelude.{◌≡◌, ◌++◌, IfOk, map};
ghost use Rattle.nob_chain.specs.Chains as words;

use nob_chain::{Chain, ChainParts, Segment};
use nob_frame::Version;
use nob_trace::{Entries, Stamped, Trace};
use std::alloc::{AllocError, Global};

// Entries behind others: as they are where there are no others. Only memory fails it.
fn both_of(all: Vec<Stamped>, mut more: Vec<Stamped>) -> Result<Vec<Stamped>, AllocError>
    ensures { IfOk result (λ both. both.items ≡ all.items ++ more.items) }
{
    if all.is_empty() {
        return Ok(more);
    }
    let mut both = all;
    both.append(&mut more)?;
    Ok(both)
}

// The entries of segments, one segment after the other.
fn entries_of(alloc: Global, segments: Vec<Segment>) -> Result<Vec<Stamped>, AllocError>
    ensures { IfOk result (λ all. all.items ≡ words.entries_of segments.items) }
{
    let mut all = Vec::new(alloc);
    for segment in segments {
        let Segment { entries, seal: _ } = segment;
        all = both_of(all, entries.into_vec())?;
    }
    Ok(all)
}

// A chain as the trace that it is. Only memory fails it. No entry is copied.
fn joined(alloc: Global, chain: Chain) -> Result<Trace, AllocError>
    ensures { IfOk result (λ trace. trace ≡ words.joined chain) }
{
    let ChainParts {
        space,
        n,
        limits,
        segments,
    } = chain.into_parts();
    let entries = entries_of(alloc, segments.into_vec())?;
    Ok(Trace {
        version: Version::Two,
        space,
        n,
        limits,
        entries: Entries::from_vec(entries),
    })
}

/// Chains as the traces that they are. Only memory fails it. No entry is copied.
pub fn all_joined(alloc: Global, chains: Vec<Chain>) -> Result<Vec<Trace>, AllocError>
    ensures { IfOk result (λ traces. traces.items ≡ map words.joined chains.items) }
{
    let mut traces = Vec::new(alloc);
    for chain in chains {
        traces.push(joined(alloc, chain)?)?;
    }
    Ok(traces)
}
