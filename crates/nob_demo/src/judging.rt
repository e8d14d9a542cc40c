//! Which entry of a set of chains is wrong.

ghost use Rattle.std.specs.Prelude.{◌≡◌, true, Some, IfOk, MatchOption, map};
ghost use Rattle.std.specs.List.{AllByRecursion};
ghost use Rattle.nob_chain.specs.Chains.{joined};
ghost use Rattle.nob_model_traces.specs.Traces.{are_one_each};
ghost use Rattle.nob_model_chains.specs.Lowest.{fault_of};
ghost use Rattle.nob_chain_check.specs.Running.{IsRightAndSealed};
ghost use Rattle.nob_demo.specs.Judging as spec;

use crate::set::entries_of;
use nob_chain::Chain;
use nob_chain_check::{first_fault, first_wrong_chain};
use nob_ids::SpaceId;
use nob_model_chains::{WrongChain, WrongPart};
use nob_model_traces::{CheckFault, WrongEntry};
use nob_model_types::Entry;
use std::alloc::{AllocError, Global};

// How many entries the first so many segments of a chain have.
fn count_within(number: usize, chain: &Chain) -> usize
    ensures { result ≡ spec.count_within number chain.now }
{
    chain.kept();
    let mut passed = 0usize;
    for (place, segment) in chain.parts().segments.as_slice().iter().enumerate() {
        if place >= number {
            return passed;
        }
        // It is no less than the entries so far.
        let _ = segment.entries.last_stamp();
        passed += segment.entries.len();
    }
    passed
}

// The place of the last entry of a segment of a space, among the entries of the space.
fn last_place(space: SpaceId, number: usize, chains: &[Chain]) -> usize
    ensures { result ≡ spec.last_place space number chains.now }
{
    match chains {
        [] => 0,
        [chain, others @ ..] => {
            if chain.parts().space == space {
                return count_within(number, chain);
            }
            last_place(space, number, others)
        }
    }
}

// The entry that what is wrong in a chain is of: a wrong seal is of the last entry of its segment.
fn entry_in(chains: &[Chain], wrong: WrongChain) -> WrongEntry
    ensures { spec.wrong_entry chains.now (fault_of wrong) ≡ Some result }
{
    let space = wrong.space;
    match wrong.part {
        WrongPart::Entry(place) => WrongEntry { space, place },
        WrongPart::Seal(number) => WrongEntry {
            space,
            place: last_place(space, number, chains),
        },
    }
}

// The entry that a fault of traces is of.
fn entry_of(fault: CheckFault) -> Option<WrongEntry>
    ensures { result ≡ spec.entry_of fault }
{
    match fault {
        CheckFault::Set => None,
        CheckFault::NotARun(space, place) => Some(WrongEntry { space, place }),
        CheckFault::NoOrigin(space, place) => Some(WrongEntry { space, place }),
        CheckFault::Stamp(space, place) => Some(WrongEntry { space, place }),
    }
}

// The entry of the lowest space in whose chain something is wrong.
fn wrong_in_chains(alloc: Global, chains: &[Chain]) -> Result<Option<WrongEntry>, AllocError>
    requires { are_one_each (map joined chains.now) ≡ true }
    ensures { IfOk result (λ found. MatchOption found (AllByRecursion IsRightAndSealed chains.now)
        (λ entry. spec.IsWrongEntry chains.now entry)) }
{
    match first_wrong_chain(alloc, chains)? {
        Some(wrong) => Ok(Some(entry_in(chains, wrong))),
        None => Ok(None),
    }
}

/// The entries of chains that belong together, in order of stamp, and which of them is wrong.
pub(crate) fn judged(
    alloc: Global,
    chains: Vec<Chain>,
) -> Result<(Vec<Entry>, Option<WrongEntry>), AllocError>
    requires { are_one_each (map joined chains.items) ≡ true }
    ensures { IfOk result (λ found. spec.IsJudged chains.items found.0.items found.1) }
{
    let wrong = wrong_in_chains(alloc, chains.as_slice())?;
    let merged = entries_of(alloc, chains)?;
    if let Some(entry) = wrong {
        return Ok((merged, Some(entry)));
    }
    match first_fault(alloc, merged.as_slice())? {
        Some(fault) => Ok((merged, entry_of(fault))),
        None => Ok((merged, None)),
    }
}
