//! What the spaces of a world are asked at the end, as lists.

ghost use Rattle.std.specs.Prelude.{◌≡◌, ◌≤◌, IfOk};
ghost use Rattle.nob_rounds.specs.Endings as spec;
ghost use Rattle.nob_rounds.specs.Sessions as sessions;

use crate::Asking;
use crate::rounds::spaces_among;
use crate::sessions::SessionEnd;
use nob_ids::{CallNo, JobNo, SpaceId, WireRep};
use nob_model_types::{Event, Outcome};
use std::alloc::{AllocError, Global};

// The spaces up to this number, the first first. It recurses once for each.
#[tactic(auto, using(crate::proofs::Numbers::one_more))]
pub(crate) fn spaces_up_to(alloc: Global, last: u16) -> Result<Vec<SpaceId>, AllocError>
    requires { last ≤ 32 }
    ensures { IfOk result (λ spaces. spaces.items ≡ sessions.numbers_up_to last) }
{
    if last == 0 {
        return Ok(Vec::new(alloc));
    }
    let Some(space) = SpaceId::new(last) else {
        unreachable!();
    };
    let mut spaces = spaces_up_to(alloc, last - 1)?;
    spaces.push(space)?;
    Ok(spaces)
}

// The spaces of a world of n, the first first.
pub(crate) fn all_spaces(alloc: Global, n: u16) -> Result<Vec<SpaceId>, AllocError>
    ensures { IfOk result (λ spaces. spaces.items ≡ sessions.spaces_of n) }
{
    spaces_up_to(alloc, spaces_among(n))
}

// The closes of these ends.
pub(crate) fn closes(alloc: Global, ends: &[SessionEnd]) -> Result<Vec<Asking>, AllocError>
    ensures { IfOk result (λ askings. askings.items ≡ spec.closes ends.now) }
{
    ends.iter()
        .map(|end| Asking {
            space: end.space,
            event: Event::Close(end.peer),
        })
        .collect(alloc)
}

// A claim of each space.
pub(crate) fn claims(alloc: Global, spaces: &[SpaceId]) -> Result<Vec<Asking>, AllocError>
    ensures { IfOk result (λ askings. askings.items ≡ spec.claims spaces.now) }
{
    spaces
        .iter()
        .map(|space| Asking {
            space: *space,
            event: Event::Claim,
        })
        .collect(alloc)
}

// The numbers up to this one, 1 first. It recurses once for each.
#[tactic(auto, using(crate::proofs::Numbers::one_more))]
fn numbers_up_to(alloc: Global, last: u64) -> Result<Vec<u64>, AllocError>
    ensures { IfOk result (λ numbers. numbers.items ≡ sessions.numbers_up_to last) }
{
    if last == 0 {
        return Ok(Vec::new(alloc));
    }
    let mut numbers = numbers_up_to(alloc, last - 1)?;
    numbers.push(last)?;
    Ok(numbers)
}

// The ends of a space's jobs of these numbers.
fn finishes(alloc: Global, space: SpaceId, jobs: &[u64]) -> Result<Vec<Asking>, AllocError>
    ensures { IfOk result (λ askings. askings.items ≡ spec.finishes space jobs.now) }
{
    jobs.iter()
        .map(|job| Asking {
            space,
            event: Event::Finish(JobNo::new(*job), Outcome::NoMethod),
        })
        .collect(alloc)
}

// The takings of the replies to a space's calls of these numbers.
fn takings(alloc: Global, space: SpaceId, calls: &[u64]) -> Result<Vec<Asking>, AllocError>
    ensures { IfOk result (λ askings. askings.items ≡ spec.takings space calls.now) }
{
    calls
        .iter()
        .map(|call| Asking {
            space,
            event: Event::TakeReply(CallNo::new(*call)),
        })
        .collect(alloc)
}

// What ends the calls at each space: its jobs of these numbers, then the replies to its calls of
// those. It recurses once for each space.
fn ends_of_each(
    alloc: Global,
    spaces: &[SpaceId],
    jobs: &[u64],
    calls: &[u64],
) -> Result<Vec<Asking>, AllocError>
    ensures { IfOk result (λ askings. askings.items
        ≡ spec.ends_of_each spaces.now jobs.now calls.now) }
{
    match spaces {
        [] => Ok(Vec::new(alloc)),
        [space, rest @ ..] => {
            let mut askings = finishes(alloc, *space, jobs)?;
            askings.append(&mut takings(alloc, *space, calls)?)?;
            askings.append(&mut ends_of_each(alloc, rest, jobs, calls)?)?;
            Ok(askings)
        }
    }
}

// What ends the calls at each space, jobs and calls up to these numbers.
pub(crate) fn ends_of_calls(
    alloc: Global,
    spaces: &[SpaceId],
    last_job: u64,
    last_call: u64,
) -> Result<Vec<Asking>, AllocError>
    ensures { IfOk result (λ askings. askings.items
        ≡ spec.ends_of_calls spaces.now last_job last_call) }
{
    let jobs = numbers_up_to(alloc, last_job)?;
    let calls = numbers_up_to(alloc, last_call)?;
    ends_of_each(alloc, spaces, jobs.as_slice(), calls.as_slice())
}

// The releases of these objects at a space.
fn releases_at(
    alloc: Global,
    space: SpaceId,
    objects: &[WireRep],
) -> Result<Vec<Asking>, AllocError>
    ensures { IfOk result (λ askings. askings.items ≡ spec.releases_at space objects.now) }
{
    objects
        .iter()
        .map(|rep| Asking {
            space,
            event: Event::Release(*rep),
        })
        .collect(alloc)
}

// The releases of these objects at each space. It recurses once for each space.
pub(crate) fn releases(
    alloc: Global,
    spaces: &[SpaceId],
    objects: &[WireRep],
) -> Result<Vec<Asking>, AllocError>
    ensures { IfOk result (λ askings. askings.items ≡ spec.releases spaces.now objects.now) }
{
    match spaces {
        [] => Ok(Vec::new(alloc)),
        [space, rest @ ..] => {
            let mut askings = releases_at(alloc, *space, objects)?;
            askings.append(&mut releases(alloc, rest, objects)?)?;
            Ok(askings)
        }
    }
}

// The withdrawal of each object.
pub(crate) fn withdrawals(alloc: Global, objects: &[WireRep]) -> Result<Vec<Asking>, AllocError>
    ensures { IfOk result (λ askings. askings.items ≡ spec.withdrawals objects.now) }
{
    objects
        .iter()
        .map(|rep| Asking {
            space: rep.owner,
            event: Event::Withdraw(rep.index),
        })
        .collect(alloc)
}
