//! From items to bytes.

ghost use Rattle.std.specs.Prelude.{◌≡◌, ◌++◌, ◌+◌, ◌≤◌, IfOk, IfErr, Ok, length};
ghost use Rattle.nob_pickle.specs.Limits.{Fits as PickleFits};
ghost use Rattle.nob_pickle.specs.Spelling.{spelling as pickle};
ghost use Rattle.nob_item.specs.Spelling.{Fits, Spelt, spelling, call_head, reply_head, note};
ghost use Rattle.nob_item.specs.Judging.{Gives};
ghost use Rattle.nob_item.specs.Writing.{behind, bytes_of};
ghost use Rattle.nob_item.specs.declared.fault.ItemError.TheVariants.{OutOfMemory};
ghost use Rattle.nob_item.specs.declared.item.Item.TheVariants as items;

use crate::fault::{ItemError, ItemFault};
use crate::item::Item;
use crate::limits::{is_call_number, is_item_number, is_status};
use byteorder::{BigEndian, ByteOrder};
use nob_ids::{CallNo, ItemNo};
use nob_pickle::Value;
use std::alloc::{AllocError, Global};

/// The one spelling of the item, or the first of I4, I5 and I3 that it is refused for: at most
/// 16,384 bytes, as a Data frame carries. Want of memory comes last. It takes time linear in the
/// value, which may be as deep and long as memory allows.
pub fn encode(alloc: Global, item: &Item) -> Result<Vec<u8>, ItemError>
    // What is written is the item's spelling.
    ensures found { IfOk result (λ bytes. Spelt bytes.items item.now) }
    // It fits a Data frame.
    ensures short { IfOk result (λ bytes. length bytes.items ≤ 16384) }
    // What has a spelling is written, unless memory runs out.
    ensures only { Fits item.now → Gives (λ bytes. bytes.items) result (Ok (spelling item.now)) }
    // Which fault it is.
    ensures exact { Gives (λ bytes. bytes.items) result (bytes_of item.now) }
    // Memory can run out for an item that has a spelling alone.
    ensures memory { IfErr result (λ e. e ≡ OutOfMemory → Fits item.now) }
{
    match item {
        Item::Call {
            call,
            target,
            method,
            value,
        } => encode_call(alloc, *call, *target, *method, value),
        Item::Reply {
            call,
            status,
            value,
        } => encode_reply(alloc, *call, *status, value),
        Item::Settle(item) => {
            if !is_item_number(*item) {
                return Err(ItemError::Fault(ItemFault::Number));
            }
            Ok(note_bytes(alloc, 3, item.get())?)
        }
        Item::Dirty(index) => Ok(note_bytes(alloc, 4, *index)?),
        Item::DirtyOk(index) => Ok(note_bytes(alloc, 5, *index)?),
        Item::DirtyNo(index) => Ok(note_bytes(alloc, 6, *index)?),
        Item::Clean(index) => Ok(note_bytes(alloc, 7, *index)?),
    }
}

/// The one spelling of the Call with these fields, as `encode` gives it: a value needs no copy to
/// be sent.
pub fn encode_call(
    alloc: Global,
    call: CallNo,
    target: u64,
    method: u16,
    value: &Value,
) -> Result<Vec<u8>, ItemError>
    ensures found { IfOk result (λ bytes.
        Spelt bytes.items (items.Call call target method value.now)) }
    ensures short { IfOk result (λ bytes. length bytes.items ≤ 16384) }
    ensures only { Fits (items.Call call target method value.now)
        → Gives (λ bytes. bytes.items) result
        (Ok (spelling (items.Call call target method value.now))) }
    ensures exact { Gives (λ bytes. bytes.items) result
        (bytes_of (items.Call call target method value.now)) }
    ensures memory { IfErr result (λ e. e ≡ OutOfMemory
        → Fits (items.Call call target method value.now)) }
{
    if !is_call_number(call) {
        return Err(ItemError::Fault(ItemFault::Number));
    }
    with_value(alloc, &head_of_call(call, target, method), value)
}

/// The one spelling of the Reply with these fields, as `encode` gives it: a value needs no copy to
/// be sent.
pub fn encode_reply(
    alloc: Global,
    call: CallNo,
    status: u8,
    value: &Value,
) -> Result<Vec<u8>, ItemError>
    ensures found { IfOk result (λ bytes. Spelt bytes.items (items.Reply call status value.now)) }
    ensures short { IfOk result (λ bytes. length bytes.items ≤ 16384) }
    ensures only { Fits (items.Reply call status value.now)
        → Gives (λ bytes. bytes.items) result (Ok (spelling (items.Reply call status value.now))) }
    ensures exact { Gives (λ bytes. bytes.items) result
        (bytes_of (items.Reply call status value.now)) }
    ensures memory { IfErr result (λ e. e ≡ OutOfMemory
        → Fits (items.Reply call status value.now)) }
{
    if !is_call_number(call) {
        return Err(ItemError::Fault(ItemFault::Number));
    }
    if !is_status(status) {
        return Err(ItemError::Fault(ItemFault::Status));
    }
    with_value(alloc, &head_of_reply(call, status), value)
}

/// The value's pickle behind a head.
fn with_value(alloc: Global, head: &[u8], value: &Value) -> Result<Vec<u8>, ItemError>
    requires { length head.now ≤ 19 }
    ensures found { IfOk result (λ bytes. PickleFits value.now
        × (bytes.items ≡ head.now ++ pickle value.now)) }
    ensures short { IfOk result (λ bytes. length bytes.items ≤ length head.now + 16000) }
    ensures only { PickleFits value.now → Gives (λ bytes. bytes.items) result
        (Ok (head.now ++ pickle value.now)) }
    ensures exact { Gives (λ bytes. bytes.items) result (behind head.now value.now) }
    ensures memory { IfErr result (λ e. e ≡ OutOfMemory → PickleFits value.now) }
{
    let pickle = nob_pickle::encode(alloc, value)?;
    let mut bytes = Vec::with_capacity(alloc, head.len() + pickle.len())?;
    bytes.extend_from_slice(head)?;
    bytes.extend_from_slice(pickle.as_slice())?;
    Ok(bytes)
}

/// What stands in front of a Call's value.
fn head_of_call(call: CallNo, target: u64, method: u16) -> [u8; 19]
    ensures { result ≡ call_head call target method }
{
    let mut head = [1; 19];
    BigEndian::write_u64(&mut head[1..], call.get());
    BigEndian::write_u64(&mut head[9..], target);
    BigEndian::write_u16(&mut head[17..], method);
    head
}

/// What stands in front of a Reply's value.
fn head_of_reply(call: CallNo, status: u8) -> [u8; 10]
    ensures { result ≡ reply_head call status }
{
    let mut head = [2; 10];
    BigEndian::write_u64(&mut head[1..], call.get());
    head[9] = status;
    head
}

/// A note: its first byte and a number. Only memory fails it.
fn note_bytes(alloc: Global, first: u8, number: u64) -> Result<Vec<u8>, AllocError>
    ensures { IfOk result (λ bytes. bytes.items ≡ note first number) }
{
    let mut bytes = [first; 9];
    BigEndian::write_u64(&mut bytes[1..], number);
    Ok(Vec::from_slice(alloc, &bytes)?)
}
