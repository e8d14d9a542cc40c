//! Values that name things.

use nob_bytes::Bytes;
use nob_ids::WireRep;
use nob_pickle::{Value, Values};
use std::alloc::Global;

// These bytes. Only memory fails it.
pub(crate) fn bytes_of(alloc: Global, bytes: &[u8]) -> Option<Value> {
    Some(Value::Bytes(Bytes::from_slice(alloc, bytes).ok()?))
}

// A value of as many bytes. Only memory fails it.
pub(crate) fn long_bytes(alloc: Global, length: usize) -> Option<Value> {
    let bytes = vec![in alloc; 0; length].ok()?;
    Some(Value::Bytes(Bytes::from_vec(bytes)))
}

// What an agent is given to have a name stand for a reference. Only memory fails it.
pub(crate) fn named(alloc: Global, name: &[u8], rep: WireRep) -> Option<Value> {
    let mut values = Vec::with_capacity(alloc, 2).ok()?;
    values.push(bytes_of(alloc, name)?).ok()?;
    values.push(Value::Ref(rep)).ok()?;
    Some(Value::List(Values::from_vec(values)))
}

// The reference that a value is.
pub(crate) fn reference_in(value: &Value) -> Option<WireRep> {
    match value {
        Value::Ref(rep) => Some(*rep),
        _ => None,
    }
}
