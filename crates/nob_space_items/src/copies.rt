//! The references of a message as they come.

ghost use Rattle.std.specs.Prelude.{◌≡◌, IfOk};
ghost use Rattle.nob_table_rows.specs.Standings as standings;
ghost use Rattle.nob_item.specs.Kinds.{counted_in};
ghost use Rattle.nob_space_state.specs.Parts.{state_of};
ghost use Rattle.nob_space_items.specs.Messages as specs;

use crate::is_lost;
use nob_ids::WireRep;
use nob_item::{Item, counted_refs};
use nob_model::{Loan, RefCopy};
use nob_model_types::List;
use nob_space_state::Parts;
use nob_table::State;
use std::alloc::{AllocError, Global};

// Whether a standing is that of a surrogate that its owner has granted.
fn is_granted(state: State) -> bool
    ensures { result ≡ standings.is_granted state }
{
    match state {
        State::Granted => true,
        State::Unknown
        | State::Live
        | State::Withdrawn
        | State::Pending
        | State::Refused
        | State::Lost => false,
    }
}

// Whether a reference is own or usable.
fn is_at_hand(parts: &Parts, rep: &WireRep) -> bool
    ensures { result ≡ specs.is_at_hand parts.now.here.space (state_of parts.now) rep.now }
{
    let standing = parts.table.state(*rep);
    rep.owner == parts.here.space || is_granted(standing.state)
}

// The loan of a reference as it comes in a message.
fn new_loan(parts: &Parts, rep: &WireRep) -> Loan
    ensures { result ≡ specs.new_loan parts.now.here.space parts.now.here.n (state_of parts.now) rep.now }
{
    if is_lost(parts, rep) {
        return Loan::Never;
    }
    if is_at_hand(parts, rep) {
        return Loan::Lent;
    }
    Loan::Due
}

// The copies of an item's references as they come in it. Only memory fails it.
pub(crate) fn new_copies(
    parts: &Parts,
    alloc: Global,
    item: &Item,
) -> Result<List<RefCopy>, AllocError>
    ensures { IfOk result (λ copies. copies
        ≡ specs.new_copies parts.now.here.space parts.now.here.n (state_of parts.now) (counted_in item.now)) }
{
    let reps = counted_refs(alloc, item)?;
    let mut copies = Vec::with_capacity(alloc, reps.len())?;
    for rep in reps.as_slice() {
        copies.push(RefCopy {
            rep: *rep,
            loan: new_loan(parts, rep),
        })?;
    }
    Ok(List::from_vec(copies))
}
