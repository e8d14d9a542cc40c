//! A chain run again on a space.

ghost use Rattle.std.specs.Prelude.{◌≡◌, ◌≤◌, ◌+◌, ◌++◌, ℕ, List, length, drop, IfOk, IfSome, MatchOption};
ghost use Rattle.nob_trace.specs.declared.stamped.Stamped.{Stamped as StampedOf};
ghost use Rattle.nob_trace.specs.declared.trace.Trace.{Trace as TraceOf};
ghost use Rattle.nob_chain.specs.Chains.{joined};
ghost use Rattle.nob_model_traces.specs.Traces.{IsFirstWrong};
ghost use Rattle.nob_check.specs.Running.{IsNewOf};
ghost use Rattle.nob_model_chains.specs.Parts.{IsWrongPart};
ghost use Rattle.nob_chain_check.specs.Running as words;

use crate::sealing::wrong_after;
use nob_chain::Chain;
use nob_check::{Space, answers};
use nob_model_chains::WrongPart;
use nob_trace::Stamped;
use std::alloc::{AllocError, Global};

// The place from 1 of the first of these entries that a space doesn't answer so. Where they are the
// next ones of a trace whose entries before them it answered, they are judged as the trace's.
fn first_wrong_entry(space: &mut Space, entries: &[Stamped]) -> Result<Option<usize>, AllocError>
    ensures answered { IfOk result (λ found. (trace : TraceOf) (passed : ℕ) (rest : List StampedOf)
        → words.HasAnswered trace passed space.old
        → drop passed trace.entries ≡ entries.now ++ rest
        → MatchOption found
        (words.HasAnswered trace (passed + length entries.now) space.new)
        (λ place. IsFirstWrong trace (passed + place))) }
    ensures bound { IfOk result (λ found. IfSome found (λ place. place ≤ length entries.now)) }
{
    for (place, stamped) in entries.iter().enumerate() {
        if !answers(space, stamped)? {
            return Ok(Some(place + 1));
        }
    }
    Ok(None)
}

// What is wrong in a chain, run again on a new space of it: its first wrong entry, or else its
// first wrong seal.
fn wrong_part(space: &mut Space, chain: &Chain) -> Result<Option<WrongPart>, AllocError>
    requires { IsNewOf (joined chain.now) space.old }
    ensures { IfOk result (λ found. MatchOption found (words.IsRightAndSealed chain.now)
        (λ part. IsWrongPart chain.now part)) }
{
    chain.kept();
    let mut passed = 0usize;
    let mut wrong = None;
    for (place, segment) in chain.parts().segments.as_slice().iter().enumerate() {
        let stamp = segment.entries.last_stamp();
        if let Some(at) = first_wrong_entry(space, segment.entries.as_slice())? {
            return Ok(Some(WrongPart::Entry(passed + at)));
        }
        passed += segment.entries.len();
        wrong = wrong_after(space, wrong, place + 1, stamp, &segment.seal);
    }
    match wrong {
        Some(number) => Ok(Some(WrongPart::Seal(number))),
        None => Ok(None),
    }
}

/// What is wrong in a chain: its first wrong entry; or, where no entry is wrong anywhere in it, its
/// first wrong seal. Only memory fails it. It asks a new space each event, and compares each seal
/// with what the space then says of itself: an entry costs what its event does, a seal what there
/// are peers.
pub fn run_again(alloc: Global, chain: &Chain) -> Result<Option<WrongPart>, AllocError>
    ensures { IfOk result (λ found. MatchOption found (words.IsRightAndSealed chain.now)
        (λ part. IsWrongPart chain.now part)) }
{
    let parts = chain.parts();
    let mut space = Space::new(alloc, parts.space, parts.n.get(), parts.limits)?;
    let found = wrong_part(&mut space, chain);
    space.shut();
    found
}
