//! What a space loses.

ghost use Rattle.std.specs.Prelude.{◌≡◌, IfOk, Some};
ghost use Rattle.nob_model_journal.specs.Losses as words;
ghost use Rattle.nob_model_types.specs.Sessions.{item_at as item_word};

use nob_check_index::DeedIndex;
use nob_ids::{ItemNo, SpaceId, WireRep};
use nob_item::Item;
use nob_plain_words::turns;
use std::alloc::{AllocError, Global};

/// Whether the item of this number from a space carries a reference. It looks up the item.
pub fn is_carried(
    alloc: Global,
    from: SpaceId,
    number: ItemNo,
    rep: &WireRep,
    past: &DeedIndex,
) -> Result<bool, AllocError>
    ensures { IfOk result (λ answer. answer
        ≡ words.is_carried rep.now (item_word from number past.now.deeds)) }
{
    match past.item_at(from, number) {
        Some(item) => turns::carries(alloc, *rep, item),
        None => Ok(false),
    }
}

// Whether a reference is lost where a space acts on this item after what was done.
fn is_loss_of(
    alloc: Global,
    from: SpaceId,
    rep: &WireRep,
    item: &Item,
    past: &DeedIndex,
) -> Result<bool, AllocError>
    ensures { IfOk result (λ answer. answer
        ≡ words.is_loss past.now.here.space past.now.here.n from rep.now
        (Some item.now) past.now.deeds) }
{
    match item {
        Item::Call { .. } | Item::Reply { .. } => {
            if !turns::carries(alloc, *rep, item)? {
                return Ok(false);
            }
            Ok(past.turns(rep).is_refused())
        }
        Item::DirtyNo(index) => Ok(rep.owner == from && rep.index == *index),
        _ => Ok(false),
    }
}

/// Whether a reference is lost where a space acts on the item of this number after what was done.
/// It looks up the item and the reference.
pub fn is_loss(
    alloc: Global,
    from: SpaceId,
    number: ItemNo,
    rep: &WireRep,
    past: &DeedIndex,
) -> Result<bool, AllocError>
    ensures { IfOk result (λ answer. answer
        ≡ words.is_loss past.now.here.space past.now.here.n from rep.now
        (item_word from number past.now.deeds) past.now.deeds) }
{
    match past.item_at(from, number) {
        Some(item) => is_loss_of(alloc, from, rep, item, past),
        None => Ok(false),
    }
}
