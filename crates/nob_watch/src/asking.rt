//! A space that is asked an event, beside the result that is recorded.

ghost use Rattle.std.specs.Prelude.{◌≡◌, ◌↔◌, ◌∷◌, List, true, Ok, Err, IfOk, OnErr};
ghost use Rattle.nob_model_types.specs.declared.entry.Entry.{Entry as EntryOf};
ghost use Rattle.nob_model.specs.Right.{IsRight};
ghost use Rattle.nob_model_invariant.specs.Typed.{IsOfTypes};
ghost use Rattle.nob_space.specs.Spaces.{StandsFor, SameSpace, entry_of};

use nob_model::same_answer;
use nob_model_types::{Answer, Event, Refusal};
use nob_space::{Space, SpaceError};
use std::alloc::AllocError;

// Whether a result is this answer.
fn is_answer(told: &Result<Answer, Refusal>, answer: &Answer) -> bool
    ensures { (result ≡ true) ↔ (told.now ≡ Ok answer.now) }
{
    match told {
        Ok(twin) => same_answer(twin, answer),
        Err(_) => false,
    }
}

// Whether a result is this refusal.
fn is_refusal(told: &Result<Answer, Refusal>, refusal: Refusal) -> bool
    ensures { (result ≡ true) ↔ (told.now ≡ Err refusal) }
{
    match told {
        Ok(_) => false,
        Err(twin) => *twin == refusal,
    }
}

/// Whether a space answers an event so. Where it does, it stands for its entries and this one; where
/// it doesn't, it has answered otherwise. Only memory fails it, and then the space is as it was. It
/// costs what the event does.
pub fn answers(
    space: &mut Space,
    event: &Event,
    told: &Result<Answer, Refusal>,
) -> Result<bool, AllocError>
    ensures right { IfOk result (λ same. (L : List EntryOf) → StandsFor space.old L
        → (same ≡ true) ↔ IsRight space.old.id space.old.n space.old.limits
        (entry_of space.old.id event.now told.now) L) }
    ensures stands { IfOk result (λ same. same ≡ true → (L : List EntryOf)
        → StandsFor space.old L
        → StandsFor space.new (entry_of space.old.id event.now told.now ∷ L)) }
    ensures typed { IfOk result (λ same. same ≡ true
        → IsOfTypes (entry_of space.old.id event.now told.now)) }
    ensures err { OnErr result ((L : List EntryOf) → StandsFor space.old L
        → StandsFor space.new L) }
    ensures same { SameSpace space.old space.new }
{
    match space.step(event) {
        Ok(answer) => Ok(is_answer(told, &answer)),
        Err(SpaceError::Refused(refusal)) => Ok(is_refusal(told, refusal)),
        Err(SpaceError::OutOfMemory) => Err(AllocError),
    }
}
