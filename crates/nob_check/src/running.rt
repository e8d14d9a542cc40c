//! A trace run again on a space.

ghost use Rattle.std.specs.Prelude.{◌≡◌, ◌↔◌, ◌∷◌, [], List, true, Ok, Err, IfOk, MatchOption};
ghost use Rattle.nob_model_types.specs.declared.entry.Entry.{Entry as EntryOf};
ghost use Rattle.nob_model.specs.Right.{IsRight};
ghost use Rattle.nob_model_invariant.specs.Typed.{IsOfTypes};
ghost use Rattle.nob_space.specs.Spaces.{StandsFor, SameSpace};
ghost use Rattle.nob_model_traces.specs.Apart.{entry_at};
ghost use Rattle.nob_model_traces.specs.Traces.{IsFirstWrong};
ghost use Rattle.nob_check.specs.Running as words;

use nob_model::same_answer;
use nob_model_types::{Answer, Refusal};
use nob_space::{Space, SpaceError};
use nob_trace::{Stamped, Trace};
use std::alloc::{AllocError, Global};

// Whether a result is this answer.
fn is_answer(told: &Result<Answer, Refusal>, answer: &Answer) -> bool
    ensures { (result ≡ true) ↔ (told.now ≡ Ok answer.now) }
{
    match told {
        Ok(twin) => same_answer(twin, answer),
        Err(_) => false,
    }
}

// Whether a result is this refusal.
fn is_refusal(told: &Result<Answer, Refusal>, refusal: Refusal) -> bool
    ensures { (result ≡ true) ↔ (told.now ≡ Err refusal) }
{
    match told {
        Ok(_) => false,
        Err(twin) => *twin == refusal,
    }
}

/// Whether a space answers an event as a trace has it. Only memory fails it.
pub fn answers(space: &mut Space, stamped: &Stamped) -> Result<bool, AllocError>
    ensures right { IfOk result (λ same. (L : List EntryOf) → StandsFor space.old L
        → (same ≡ true) ↔ IsRight space.old.id space.old.n space.old.limits
        (entry_at space.old.id stamped.now) L) }
    ensures stands { IfOk result (λ same. same ≡ true → (L : List EntryOf)
        → StandsFor space.old L
        → StandsFor space.new (entry_at space.old.id stamped.now ∷ L)) }
    ensures typed { IfOk result (λ same. same ≡ true
        → IsOfTypes (entry_at space.old.id stamped.now)) }
    ensures same { SameSpace space.old space.new }
{
    match space.step(&stamped.event) {
        Ok(answer) => Ok(is_answer(&stamped.result, &answer)),
        Err(SpaceError::Refused(refusal)) => Ok(is_refusal(&stamped.result, refusal)),
        Err(SpaceError::OutOfMemory) => Err(AllocError),
    }
}

// The place from 1 of the first entry of a trace that a new space of it doesn't answer so.
fn first_wrong(space: &mut Space, trace: &Trace) -> Result<Option<usize>, AllocError>
    requires { words.IsNewOf trace.now space.old }
    ensures { IfOk result (λ found. MatchOption found (words.IsRightAndTyped trace.now)
        (λ place. IsFirstWrong trace.now place)) }
{
    for (place, stamped) in trace.entries.as_slice().iter().enumerate() {
        if !answers(space, stamped)? {
            return Ok(Some(place + 1));
        }
    }
    Ok(None)
}

/// The place from 1 of the first entry of a trace whose result isn't the right one after those
/// before it. Only memory fails it. It asks a new space each event: an entry costs what its event
/// does.
pub fn run_again(alloc: Global, trace: &Trace) -> Result<Option<usize>, AllocError>
    ensures { IfOk result (λ found. MatchOption found (words.IsRightAndTyped trace.now)
        (λ place. IsFirstWrong trace.now place)) }
{
    let mut space = Space::new(alloc, trace.space, trace.n.get(), trace.limits)?;
    let found = first_wrong(&mut space, trace);
    space.shut();
    found
}
