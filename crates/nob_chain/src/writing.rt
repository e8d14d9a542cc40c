//! Chains to texts.

ghost use Rattle.std.specs.Prelude.{◌≡◌, ◌++◌, ◌∷◌, [], IfOk, OnOk, codes};
ghost use Rattle.std.specs.Fmt.{decimal};
ghost use Rattle.std.specs.List.{AllByRecursion};
ghost use Rattle.std.specs.String.{string_bytes};
ghost use Rattle.nob_frame.specs.declared.version.Version.TheVariants.{Two};
ghost use Rattle.nob_trace.specs.Entries as entries;
ghost use Rattle.nob_chain.specs.Seals as seals;
ghost use Rattle.nob_chain.specs.Chains as spec;
ghost use Rattle.nob_chain.specs.Writing.{HasSeal, IsSpeakable, IsWritable, Writes};

use crate::chain::Chain;
use crate::fault::{ChainError, ChainFault};
use crate::head::ChainHead;
use crate::seal::{PeerSeal, Seal};
use crate::segment::Segment;
use nob_frame::Version;
use nob_ids::Reason;
use nob_trace::{Stamped, TraceError};
use std::alloc::{AllocError, Global};

/// The text of a chain, or R2 where a frame in it has no spelling of version 2 or a segment has no
/// seal, as in a chain made of a trace that isn't empty. Want of memory comes where there is room
/// for no more, whatever stands behind. It costs time and memory in proportion to the text, and
/// recurses once for each level of a value.
pub fn encode(alloc: Global, chain: &Chain) -> Result<String, ChainError>
    ensures { Writes (λ text. string_bytes text ≡ spec.chain_text chain.now)
        (IsWritable chain.now) result }
{
    let parts = chain.parts();
    let head = ChainHead {
        space: parts.space,
        n: parts.n,
        limits: parts.limits,
        count: parts.segments.as_slice().len() as u64,
    };
    let mut text = head_text(alloc, &head)?;
    text.push_str("\n")?;
    put_segments(alloc, &mut text, parts.segments.as_slice())?;
    Ok(text)
}

/// The first line of a chain, with its newline.
pub fn head_line(alloc: Global, head: &ChainHead) -> Result<String, AllocError>
    ensures { IfOk result (λ text. string_bytes text ≡ spec.head_text head.now ++ 10 ∷ []) }
{
    let mut text = head_text(alloc, head)?;
    text.push_str("\n")?;
    Ok(text)
}

/// The lines of one segment, with the number that it has in its chain: a chain's text is its first
/// line, and these of each of its segments. R2 as `encode`, unless memory runs out.
pub fn segment_text(alloc: Global, number: u64, segment: &Segment) -> Result<String, ChainError>
    ensures { Writes (λ text. string_bytes text
        ≡ spec.lines_text (spec.segment_lines number segment.now))
        (IsSpeakable segment.now) result }
{
    let mut text = String::new(alloc);
    put_segment(alloc, &mut text, number as u128, segment)?;
    Ok(text)
}

// The first line of a chain.
fn head_text(alloc: Global, head: &ChainHead) -> Result<String, AllocError>
    ensures { IfOk result (λ text. string_bytes text ≡ spec.head_text head.now) }
{
    let space = head.space;
    let n = head.n;
    let window = head.limits.window;
    let retry = head.limits.retry;
    let count = head.count;
    format!(in alloc; "chain {space} of {n} window {window} retry {retry} segments {count}")
}

// Puts the lines of segments, numbered from 1 on, behind a text.
fn put_segments(alloc: Global, text: &mut String, all: &[Segment]) -> Result<(), ChainError>
    ensures { Writes (λ _. string_bytes text.new
        ≡ string_bytes text.old ++ spec.lines_text (spec.segments_lines 1 all.now))
        (AllByRecursion IsSpeakable all.now) result }
{
    let mut number = 1u128;
    for segment in all {
        put_segment(alloc, text, number, segment)?;
        number += 1;
    }
    Ok(())
}

// Puts the lines of a segment of this number behind a text.
fn put_segment(
    alloc: Global,
    text: &mut String,
    number: u128,
    segment: &Segment,
) -> Result<(), ChainError>
    ensures { Writes (λ _. string_bytes text.new
        ≡ string_bytes text.old ++ spec.lines_text (spec.segment_lines number segment.now))
        (IsSpeakable segment.now) result }
{
    let opening = opening_text(alloc, number, segment.entries.len())?;
    text.push_str(opening.as_str())?;
    put_entries(alloc, text, segment.entries.as_slice())?;
    put_seal(alloc, text, &segment.seal)
}

// The first line of a segment, with its newline.
fn opening_text(alloc: Global, number: u128, count: usize) -> Result<String, AllocError>
    ensures { IfOk result (λ text. string_bytes text ≡ codes "segment " ++ (decimal number ++ (codes
        " entries " ++ (decimal count ++ 10 ∷ [])))) }
{
    format!(in alloc; "segment {number} entries {count}\n")
}

// Puts the lines of entries behind a text.
fn put_entries(alloc: Global, text: &mut String, all: &[Stamped]) -> Result<(), ChainError>
    ensures { Writes (λ _. string_bytes text.new
        ≡ string_bytes text.old ++ spec.lines_text (spec.entry_lines all.now))
        (AllByRecursion (entries.HasSpelling Two) all.now) result }
{
    for entry in all {
        let line = entry_text(alloc, entry)?;
        text.push_str(line.as_str())?;
        text.push_str("\n")?;
    }
    Ok(())
}

// The text of an entry.
fn entry_text(alloc: Global, entry: &Stamped) -> Result<String, ChainError>
    ensures { Writes (λ text. string_bytes text ≡ entries.entry_text Two entry.now)
        (entries.HasSpelling Two entry.now) result }
{
    match nob_trace::entry_text(alloc, Version::Two, entry) {
        Ok(text) => Ok(text),
        Err(TraceError::Fault(_)) => Err(ChainError::Fault(ChainFault::Entry)),
        Err(TraceError::OutOfMemory) => Err(ChainError::OutOfMemory),
    }
}

// Puts the line of a seal behind a text, or R2 where there is no seal.
fn put_seal(alloc: Global, text: &mut String, seal: &Option<Seal>) -> Result<(), ChainError>
    ensures { Writes (λ _. string_bytes text.new
        ≡ string_bytes text.old ++ spec.lines_text (spec.seal_lines seal.now))
        (HasSeal seal.now) result }
{
    let Some(seal) = seal else {
        return Err(ChainError::Fault(ChainFault::Entry));
    };
    let line = seal_text(alloc, seal)?;
    text.push_str(line.as_str())?;
    text.push_str("\n")?;
    Ok(())
}

// The text of a seal.
fn seal_text(alloc: Global, seal: &Seal) -> Result<String, AllocError>
    ensures { IfOk result (λ text. string_bytes text ≡ seals.seal_text seal.now) }
{
    let stamp = seal.stamp;
    let live = seal.live;
    let mut text = format!(in alloc; "seal {stamp} live {live}")?;
    put_peers(alloc, &mut text, seal.peers.as_slice())?;
    Ok(text)
}

// Puts peers, one after the other, behind a text.
fn put_peers(alloc: Global, text: &mut String, all: &[PeerSeal]) -> Result<(), AllocError>
    ensures { OnOk result (string_bytes text.new
        ≡ string_bytes text.old ++ seals.peers_text all.now) }
{
    for peer in all {
        let spelling = peer_text(alloc, peer)?;
        text.push_str(spelling.as_str())?;
    }
    Ok(())
}

// The text of a peer.
fn peer_text(alloc: Global, seal: &PeerSeal) -> Result<String, AllocError>
    ensures { IfOk result (λ text. string_bytes text ≡ seals.peer_text seal.now []) }
{
    let ending = ending_text(alloc, seal.closed)?;
    let peer = seal.peer;
    let session = seal.session;
    let sent = seal.sent;
    let acted = seal.acted;
    format!(in alloc; " peer {peer} session {session} sent {sent} acted {acted}{ending}")
}

// Whether this end is open, or why it was closed.
fn ending_text(alloc: Global, closed: Option<Reason>) -> Result<String, AllocError>
    ensures { IfOk result (λ text. string_bytes text ≡ seals.ending_text closed []) }
{
    match closed {
        Some(reason) => closed_text(alloc, reason.number()),
        None => String::from_str(alloc, " open"),
    }
}

// The words of a close with this number of its reason.
fn closed_text(alloc: Global, number: u8) -> Result<String, AllocError>
    ensures { IfOk result (λ text. string_bytes text ≡ codes " closed " ++ decimal number) }
{
    format!(in alloc; " closed {number}")
}
