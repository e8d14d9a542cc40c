//! What a deed makes usable: only there a loan outstanding can be made that couldn't be made before.

ghost use Rattle.std.specs.Prelude.{◌≡◌, IfOk, Some, not, filter};
ghost use Rattle.std.specs.List.{list_any};
ghost use Rattle.nob_model_types.specs.Sessions.{item_at};
ghost use Rattle.nob_check_ledgers.specs.Making as words;

use crate::lending::is_lendable;
use nob_check_index::DeedIndex;
use nob_ids::{ItemNo, SpaceId, WireRep};
use nob_item::Item;
use nob_model_types::Deed;
use std::alloc::{AllocError, Global};

// The references that acting on an item from a peer may make usable.
fn named_in(alloc: Global, from: SpaceId, item: &Item) -> Result<Vec<WireRep>, AllocError>
    ensures { IfOk result (λ reps. reps.items ≡ words.named_in from (Some item.now)) }
{
    match item {
        Item::Call { .. } | Item::Reply { .. } => nob_item::counted_refs(alloc, item),
        Item::DirtyOk(index) => {
            let mut reps = Vec::new(alloc);
            reps.push(WireRep {
                owner: from,
                index: *index,
            })?;
            Ok(reps)
        }
        Item::Settle(_) | Item::Dirty(_) | Item::DirtyNo(_) | Item::Clean(_) => {
            Ok(Vec::new(alloc))
        }
    }
}

// The references that acting on the item of this number from a peer may make usable.
fn named_at(
    alloc: Global,
    from: SpaceId,
    number: ItemNo,
    past: &DeedIndex,
) -> Result<Vec<WireRep>, AllocError>
    ensures { IfOk result (λ reps. reps.items
        ≡ words.named_in from (item_at from number past.now.deeds)) }
{
    match past.item_at(from, number) {
        Some(item) => named_in(alloc, from, item),
        None => Ok(Vec::new(alloc)),
    }
}

// The references that a deed may make usable.
fn named_by(alloc: Global, deed: &Deed, past: &DeedIndex) -> Result<Vec<WireRep>, AllocError>
    ensures { IfOk result (λ reps. reps.items ≡ words.named_by deed.now past.now.deeds) }
{
    match deed {
        Deed::Act(from, number) => named_at(alloc, *from, *number, past),
        _ => Ok(Vec::new(alloc)),
    }
}

/// Those of them of which no loan can be made before.
pub fn awaited_by(alloc: Global, deed: &Deed, past: &DeedIndex) -> Result<Vec<WireRep>, AllocError>
    ensures { IfOk result (λ reps. reps.items
        ≡ words.awaited_by past.now.here.space past.now.here.n deed.now past.now.deeds) }
{
    let reps = named_by(alloc, deed, past)?;
    Ok(without_lendable(past, reps))
}

// Those of some references of which no loan can be made.
fn without_lendable(past: &DeedIndex, mut reps: Vec<WireRep>) -> Vec<WireRep>
    ensures { result.items ≡ filter (λ rep.
        not (words.can_lend past.now.here.space past.now.here.n past.now.deeds rep)) reps.items }
{
    reps.retain(|rep| !is_lendable(past, rep));
    reps
}

/// Whether a loan of one of these references can be made.
pub fn is_any_lendable(past: &DeedIndex, reps: &[WireRep]) -> bool
    ensures { result ≡ list_any (words.can_lend past.now.here.space past.now.here.n
        past.now.deeds) reps.now }
{
    reps.iter().any(|rep| is_lendable(past, rep))
}
