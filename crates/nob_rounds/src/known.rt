//! What a choice looks at.

ghost use Rattle.std.specs.Prelude.{◌≡◌, IfOk};
ghost use Rattle.nob_rounds.specs.Sessions as sessions;
ghost use Rattle.nob_rounds.specs.Shown as spec;

use crate::sessions::{SessionEnd, closed_ends};
use nob_ids::WireRep;
use nob_model_types::{Answer, Entry};
use std::alloc::{AllocError, Global};

/// What a choice looks at.
#[derive(Drop)]
pub struct Known {
    /// How many spaces there are.
    pub n: u16,
    /// The objects that were exported, the first first.
    pub objects: Vec<WireRep>,
    /// The greatest number of a call.
    pub calls: u64,
    /// The greatest number of a job.
    pub jobs: u64,
    /// The ends of sessions that have closed.
    pub closed: Vec<SessionEnd>,
}

// The object that an entry made.
fn object_by(entry: &Entry) -> Option<WireRep>
    ensures { result ≡ spec.object_by entry.now.result }
{
    match &entry.result {
        Ok(Answer::Exported(rep)) => Some(*rep),
        _ => None,
    }
}

// The number of the call that an entry made, or 0.
fn call_by(entry: &Entry) -> u64
    ensures { result ≡ spec.call_by entry.now.result }
{
    match &entry.result {
        Ok(Answer::Called(call)) => call.get(),
        _ => 0,
    }
}

// The number of the job that an entry claimed, or 0.
fn job_by(entry: &Entry) -> u64
    ensures { result ≡ spec.job_by entry.now.result }
{
    match &entry.result {
        Ok(Answer::Job(job)) => job.job.get(),
        _ => 0,
    }
}

/// The objects that entries exported, the first first. Only memory fails it. Linear in the entries.
pub fn objects_of(alloc: Global, entries: &[Entry]) -> Result<Vec<WireRep>, AllocError>
    ensures { IfOk result (λ objects. objects.items ≡ spec.objects_of entries.now) }
{
    entries
        .iter()
        .filter_map(|entry| object_by(entry))
        .collect(alloc)
}

// The greatest number of a call.
fn greatest_call(entries: &[Entry]) -> u64
    ensures { result ≡ spec.greatest_call entries.now }
{
    entries
        .iter()
        .fold(0, |most: u64, entry| most.max(call_by(entry)))
}

// The greatest number of a job.
fn greatest_job(entries: &[Entry]) -> u64
    ensures { result ≡ spec.greatest_job entries.now }
{
    entries
        .iter()
        .fold(0, |most: u64, entry| most.max(job_by(entry)))
}

/// What a choice looks at in a world of so many spaces after these entries. Only memory fails it.
/// Linear in the entries, for each two spaces.
pub fn known_of(alloc: Global, n: u16, entries: &[Entry]) -> Result<Known, AllocError>
    ensures n { IfOk result (λ known. known.n ≡ n) }
    ensures objects { IfOk result (λ known. known.objects.items ≡ spec.objects_of entries.now) }
    ensures calls { IfOk result (λ known. known.calls ≡ spec.greatest_call entries.now) }
    ensures jobs { IfOk result (λ known. known.jobs ≡ spec.greatest_job entries.now) }
    ensures closed { IfOk result (λ known. known.closed.items
        ≡ sessions.closed_ends n entries.now) }
{
    Ok(Known {
        n,
        objects: objects_of(alloc, entries)?,
        calls: greatest_call(entries),
        jobs: greatest_job(entries),
        closed: closed_ends(alloc, n, entries)?,
    })
}
