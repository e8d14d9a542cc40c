//! From bytes to items.

ghost use Rattle.std.specs.Prelude.{◌≡◌, ◌∷◌, IsTrue, IfOk, IfErr, Ok};
ghost use Rattle.nob_pickle.specs.Limits.{Spelt as PickleSpelt};
ghost use Rattle.nob_pickle.specs.Reading.{value_read};
ghost use Rattle.nob_pickle.specs.declared.value.Value.{Value as ValueOf};
ghost use Rattle.nob_item.specs.declared.item.Item.{Item as ItemOf};
ghost use Rattle.nob_item.specs.declared.fault.ItemError.TheVariants.{OutOfMemory};
ghost use Rattle.nob_item.specs.Spelling.{Spelt};
ghost use Rattle.nob_item.specs.Judging.{Gives, Sees, of_value};
ghost use Rattle.nob_item.specs.Reading.{call_number_at, item_number_at, status_at, call_front, call_at, reply_front, reply_at, settle_at, index_at, note_by, item_by, value_wants_memory, call_wants_memory, reply_wants_memory, item_wants_memory, wants_memory, item_read};

use crate::fault::{ItemError, ItemFault};
use crate::item::Item;
use crate::limits::{is_call_number, is_item_number, is_status};
use nob_bytes::{take_u16, take_u64};
use nob_ids::{CallNo, ItemNo};
use nob_pickle::Value;
use std::alloc::Global;

/// A Call whose value isn't read yet.
#[derive(Clone, Copy, Drop)]
struct CallFront<'a> {
    call: u64,
    target: u64,
    method: u16,
    pickle: &'a [u8],
}

/// A Reply whose value isn't read yet.
#[derive(Clone, Copy, Drop)]
struct ReplyFront<'a> {
    call: u64,
    status: u8,
    pickle: &'a [u8],
}

/// The item that all of the bytes spell: Ok exactly where they do. Else the first fault, from the
/// front: I1 for a missing byte before the value or in a note, I2 for a first byte that no item
/// has, I4 for a number and I5 for a status out of range, as soon as it is read; then I3 for what
/// the value is refused for, or I6 for a byte after a note. Only a Call and a Reply take memory,
/// for a value that is bytes or a list with something in it: I1, I2, I4, I5 and I6 are answered
/// before want of it. It takes time linear in the bytes.
pub fn decode(alloc: Global, bytes: &[u8]) -> Result<Item, ItemError>
    // What is read is spelled so.
    ensures found { IfOk result (λ item. Spelt bytes.now item) }
    // What is spelled so is read, unless memory runs out.
    ensures only { (item : ItemOf) → Spelt bytes.now item → Gives (λ x. x) result (Ok item) }
    // Which fault it is. A fault that isn't the value's comes before want of memory.
    ensures exact { Gives (λ x. x) result (item_read bytes.now) }
    // Memory can run out for a Call or a Reply alone whose numbers are sound and whose value wants
    // it.
    ensures memory { IfErr result (λ e. e ≡ OutOfMemory → IsTrue (wants_memory bytes.now)) }
{
    let [first, bytes @ ..] = bytes else {
        return Err(ItemError::Fault(ItemFault::Short));
    };
    item_of(alloc, *first, bytes)
}

/// An item, behind this first byte.
#[tactic(auto, unfolding(crate::specs::Reading::item_by))]
fn item_of(alloc: Global, first: u8, bytes: &[u8]) -> Result<Item, ItemError>
    ensures found { IfOk result (λ item. Spelt (first ∷ bytes.now) item) }
    ensures only { (item : ItemOf) → Spelt (first ∷ bytes.now) item
        → Gives (λ x. x) result (Ok item) }
    ensures exact { Gives (λ x. x) result (item_by first bytes.now) }
    ensures memory { IfErr result (λ e. e ≡ OutOfMemory
        → IsTrue (item_wants_memory first bytes.now)) }
{
    match first {
        1 => call_of(alloc, bytes),
        2 => reply_of(alloc, bytes),
        _ => Ok(note_of(first, bytes)?),
    }
}

/// A Call, behind its first byte.
#[tactic(auto, unfolding(crate::specs::Reading::call_at))]
fn call_of(alloc: Global, bytes: &[u8]) -> Result<Item, ItemError>
    ensures found { IfOk result (λ item. Spelt (1 ∷ bytes.now) item) }
    ensures only { (item : ItemOf) → Spelt (1 ∷ bytes.now) item → Gives (λ x. x) result (Ok item) }
    ensures exact { Gives (λ x. x) result (call_at bytes.now) }
    ensures memory { IfErr result (λ e. e ≡ OutOfMemory → IsTrue (call_wants_memory bytes.now)) }
{
    let front = call_front_of(bytes)?;
    let value = value_of(alloc, front.pickle)?;
    Ok(Item::Call {
        call: CallNo::new(front.call),
        target: front.target,
        method: front.method,
        value,
    })
}

/// A Reply, behind its first byte.
#[tactic(auto, unfolding(crate::specs::Reading::reply_at))]
fn reply_of(alloc: Global, bytes: &[u8]) -> Result<Item, ItemError>
    ensures found { IfOk result (λ item. Spelt (2 ∷ bytes.now) item) }
    ensures only { (item : ItemOf) → Spelt (2 ∷ bytes.now) item → Gives (λ x. x) result (Ok item) }
    ensures exact { Gives (λ x. x) result (reply_at bytes.now) }
    ensures memory { IfErr result (λ e. e ≡ OutOfMemory → IsTrue (reply_wants_memory bytes.now)) }
{
    let front = reply_front_of(bytes)?;
    let value = value_of(alloc, front.pickle)?;
    Ok(Item::Reply {
        call: CallNo::new(front.call),
        status: front.status,
        value,
    })
}

/// The value that all of the bytes spell.
fn value_of(alloc: Global, bytes: &[u8]) -> Result<Value, ItemError>
    ensures found { IfOk result (λ value. PickleSpelt bytes.now value) }
    ensures only { (value : ValueOf) → PickleSpelt bytes.now value
        → Gives (λ x. x) result (Ok value) }
    ensures exact { Gives (λ x. x) result (of_value (value_read bytes.now)) }
    ensures memory { IfErr result (λ e. e ≡ OutOfMemory → IsTrue (value_wants_memory bytes.now)) }
{
    Ok(nob_pickle::decode(alloc, bytes)?)
}

/// A Call up to its value, behind its first byte.
#[tactic(auto, unfolding(crate::specs::Reading::call_front))]
fn call_front_of<'a>(bytes: &'a [u8]) -> Result<CallFront<'a>, ItemFault>
    ensures { Sees (λ x. (x.call, x.target, x.method, x.pickle.now)) result (call_front bytes.now) }
{
    let (call, bytes) = call_number_of(bytes)?;
    let (target, bytes) = take_u64(bytes, ItemFault::Short)?;
    let (method, pickle) = take_u16(bytes, ItemFault::Short)?;
    Ok(CallFront {
        call,
        target,
        method,
        pickle,
    })
}

/// A Reply up to its value, behind its first byte.
#[tactic(auto, unfolding(crate::specs::Reading::reply_front))]
fn reply_front_of<'a>(bytes: &'a [u8]) -> Result<ReplyFront<'a>, ItemFault>
    ensures { Sees (λ x. (x.call, x.status, x.pickle.now)) result (reply_front bytes.now) }
{
    let (call, bytes) = call_number_of(bytes)?;
    let (status, pickle) = status_of(bytes)?;
    Ok(ReplyFront {
        call,
        status,
        pickle,
    })
}

/// A note, behind this first byte.
#[tactic(auto, unfolding(crate::specs::Reading::note_by))]
fn note_of(first: u8, bytes: &[u8]) -> Result<Item, ItemFault>
    ensures { Sees (λ x. x) result (note_by first bytes.now) }
{
    match first {
        3 => Ok(Item::Settle(settled_of(bytes)?)),
        4 => Ok(Item::Dirty(index_of(bytes)?)),
        5 => Ok(Item::DirtyOk(index_of(bytes)?)),
        6 => Ok(Item::DirtyNo(index_of(bytes)?)),
        7 => Ok(Item::Clean(index_of(bytes)?)),
        _ => Err(ItemFault::Tag),
    }
}

/// The number of the item that a Settle names, behind its first byte.
#[tactic(auto, unfolding(crate::specs::Reading::settle_at, crate::specs::Reading::item_number_at))]
fn settled_of(bytes: &[u8]) -> Result<ItemNo, ItemFault>
    ensures { result ≡ settle_at bytes.now }
{
    let (number, after) = take_u64(bytes, ItemFault::Short)?;
    let item = ItemNo::new(number);
    if !is_item_number(item) {
        return Err(ItemFault::Number);
    }
    if !after.is_empty() {
        return Err(ItemFault::Trailing);
    }
    Ok(item)
}

/// The index that one of the other notes names, behind its first byte.
#[tactic(auto, unfolding(crate::specs::Reading::index_at))]
fn index_of(bytes: &[u8]) -> Result<u64, ItemFault>
    ensures { result ≡ index_at bytes.now }
{
    let (index, bytes) = take_u64(bytes, ItemFault::Short)?;
    if !bytes.is_empty() {
        return Err(ItemFault::Trailing);
    }
    Ok(index)
}

/// The number of a call, and the bytes after it.
#[tactic(auto, unfolding(crate::specs::Reading::call_number_at))]
fn call_number_of(bytes: &[u8]) -> Result<(u64, &[u8]), ItemFault>
    ensures { Sees (λ x. (x.0, x.1.now)) result (call_number_at bytes.now) }
{
    let (number, bytes) = take_u64(bytes, ItemFault::Short)?;
    if !is_call_number(CallNo::new(number)) {
        return Err(ItemFault::Number);
    }
    Ok((number, bytes))
}

/// A status, and the bytes after it.
#[tactic(auto, unfolding(crate::specs::Reading::status_at))]
fn status_of(bytes: &[u8]) -> Result<(u8, &[u8]), ItemFault>
    ensures { Sees (λ x. (x.0, x.1.now)) result (status_at bytes.now) }
{
    let [status, bytes @ ..] = bytes else {
        return Err(ItemFault::Short);
    };
    if !is_status(*status) {
        return Err(ItemFault::Status);
    }
    Ok((*status, bytes))
}
