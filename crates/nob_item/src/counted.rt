//! The references that the collector counts in an item.

ghost use Rattle.std.specs.Prelude.{◌≡◌, false, IfOk, OnErr, filter, slice_get};
ghost use Rattle.nob_ids.specs.Names.{is_counted};
ghost use Rattle.nob_pickle.specs.Spelling.{refs_in};
ghost use Rattle.nob_item.specs.Kinds.{is_note, counted_in};

use crate::item::Item;
use nob_ids::WireRep;
use nob_pickle::{Value, refs_of};
use std::alloc::{AllocError, Global};

/// The counted references of an item: those in its value whose index isn't 0, in reading order,
/// repeats included. The target of a Call isn't one, and notes have none. It takes time linear in
/// the value, however deep or long, and doesn't recurse. Only memory fails it, and a note takes
/// none.
pub fn counted_refs(alloc: Global, item: &Item) -> Result<Vec<WireRep>, AllocError>
    ensures counted { IfOk result (λ refs. refs.items ≡ counted_in item.now) }
    ensures memory { OnErr result (is_note item.now ≡ false) }
{
    match item {
        Item::Call { value, .. } | Item::Reply { value, .. } => counted_of(alloc, value),
        Item::Settle(_) | Item::Dirty(_) | Item::DirtyOk(_) | Item::DirtyNo(_) | Item::Clean(_) =>
            Ok(Vec::new(alloc)),
    }
}

/// The counted reference of the item before which so many others stand, in reading order, repeats
/// included: None where there aren't more. It takes no memory and time linear in the value, and
/// recurses once for each of its levels: at most 16 where the item has a spelling.
pub fn counted_ref(item: &Item, number: usize) -> Option<WireRep>
    ensures { result ≡ slice_get (counted_in item.now) number }
{
    match item {
        Item::Call { value, .. } | Item::Reply { value, .. } => nob_pickle::counted_ref(
            value, number,
        ),
        Item::Settle(_) | Item::Dirty(_) | Item::DirtyOk(_) | Item::DirtyNo(_) | Item::Clean(_) =>
            None,
    }
}

/// Those of a value.
fn counted_of(alloc: Global, value: &Value) -> Result<Vec<WireRep>, AllocError>
    ensures { IfOk result (λ refs. refs.items ≡ filter is_counted (refs_in value.now)) }
{
    let mut refs = refs_of(alloc, value)?;
    refs.retain(|rep| rep.is_counted());
    Ok(refs)
}
