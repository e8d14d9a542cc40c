//! Bytes to values.

ghost use Rattle.std.specs.Prelude.{◌≡◌, ◌≢◌, ℕ, ◌<◌, ◌≤◌, length, IsTrue, IfOk, IfErr, Ok};
ghost use Rattle.nob_pickle.specs.Shape.{tree, forest};
ghost use Rattle.nob_pickle.specs.Limits.{Spelt};
ghost use Rattle.nob_pickle.specs.Writing.{Gives};
ghost use Rattle.nob_pickle.specs.Reading.{int_at, bytes_at, ref_at, list_at, trees_at, tree_by, tree_at, has_bytes, has_elements, wants_memory, value_read};
ghost use Rattle.nob_pickle.specs.declared.fault.PickleError.TheVariants.{OutOfMemory};
ghost use Rattle.nob_pickle.specs.declared.value.Value.{Value as ValueOf};

use crate::fault::{PickleError, PickleFault};
use crate::limits::{MOST_BYTES, MOST_ELEMENTS, MOST_IN_ALL, MOST_LEVELS, MOST_REFERENCES};
use crate::value::{Value, Values};
use nob_bytes::{Bytes, take_u16, take_u32, take_u64};
use nob_ids::{SpaceId, WireRep};
use std::alloc::Global;

/// What is left of a pickle: its bytes, and how many references may still come.
#[derive(Clone, Copy, Drop)]
struct Rest<'a> {
    bytes: &'a [u8],
    references: u32,
}

/// The value that all of the bytes spell: Ok exactly where they do. Else the first fault: P8 for
/// more than 16,000 bytes; then, from the front, P5 for a value at depth 17, P1 for a missing byte,
/// P2 for a first byte that no value has, P3 and P4 for a length or a count above its limit, P7 for
/// an owner that is no space, P8 for the 33rd reference; then P6 for a byte after the value. Only
/// bytes and lists with something in them take memory, and want of it may be answered in place of a
/// fault that stands in or behind them. It takes time linear in the bytes.
pub fn decode(alloc: Global, bytes: &[u8]) -> Result<Value, PickleError>
    ensures found { IfOk result (λ value. Spelt bytes.now value) }
    ensures only { (value : ValueOf) → Spelt bytes.now value → Gives (λ v. v) result (Ok value) }
    ensures exact { Gives (λ v. v) result (value_read bytes.now) }
    // Memory can run out for bytes and lists alone that are in their limits and not empty, and
    // never for more than 16,000 bytes.
    ensures memory { IfErr result (λ e. e ≡ OutOfMemory → (length bytes.now ≤ 16000)
        × IsTrue (wants_memory bytes.now)) }
{
    whole(alloc, bytes)
}

#[tactic(auto, unfolding(crate::specs::Reading::value_read))]
fn whole(alloc: Global, bytes: &[u8]) -> Result<Value, PickleError>
    ensures exact { Gives (λ v. v) result (value_read bytes.now) }
    ensures memory { IfErr result (λ e. e ≡ OutOfMemory → (length bytes.now ≤ 16000)
        × IsTrue (wants_memory bytes.now)) }
{
    if bytes.len() > MOST_IN_ALL {
        return Err(PickleError::Fault(PickleFault::TooBig));
    }
    let rest = Rest {
        bytes,
        references: MOST_REFERENCES,
    };
    let (value, rest) = value_of(alloc, MOST_LEVELS, rest)?;
    if !rest.bytes.is_empty() {
        return Err(PickleError::Fault(PickleFault::Trailing));
    }
    Ok(value)
}

/// The value that stands in front, which may have so many levels.
#[cycle(reading)]
#[tactic(auto, using(crate::proofs::Loop::tree_at_none, crate::proofs::Loop::tree_at_some))]
fn value_of<'a>(
    alloc: Global,
    levels: u32,
    rest: Rest<'a>,
) -> Result<(Value, Rest<'a>), PickleError>
    ensures exact { Gives (λ x. (tree x.0, x.1.references, x.1.bytes.now)) result
        (tree_at levels rest.entry.references rest.entry.bytes.now) }
    ensures memory { IfErr result (λ e. e ≡ OutOfMemory
        → IsTrue (wants_memory rest.entry.bytes.now)) }
{
    if levels == 0 {
        return Err(PickleError::Fault(PickleFault::Depth));
    }
    value_by(alloc, levels - 1, rest)
}

/// The same by its first byte. Its elements may have so many levels.
#[cycle(reading)]
#[tactic(auto, unfolding(crate::specs::Reading::tree_by))]
fn value_by<'a>(
    alloc: Global,
    levels: u32,
    rest: Rest<'a>,
) -> Result<(Value, Rest<'a>), PickleError>
    ensures exact { Gives (λ x. (tree x.0, x.1.references, x.1.bytes.now)) result
        (tree_by (tree_at levels) rest.entry.references rest.entry.bytes.now) }
    ensures memory { IfErr result (λ e. e ≡ OutOfMemory
        → IsTrue (wants_memory rest.entry.bytes.now)) }
{
    let [first, bytes @ ..] = rest.bytes else {
        return Err(PickleError::Fault(PickleFault::Short));
    };
    let rest = Rest {
        bytes,
        references: rest.references,
    };
    match *first {
        0 => Ok((Value::Unit, rest)),
        1 => int_of(rest),
        2 => bytes_of(alloc, rest),
        3 => list_of(alloc, levels, rest),
        4 => reference_of(rest),
        _ => Err(PickleError::Fault(PickleFault::Tag)),
    }
}

/// A list, behind its first byte.
#[cycle(reading)]
#[tactic(auto, unfolding(crate::specs::Reading::list_at))]
fn list_of<'a>(alloc: Global, levels: u32, rest: Rest<'a>) -> Result<(Value, Rest<'a>), PickleError>
    ensures exact { Gives (λ x. (tree x.0, x.1.references, x.1.bytes.now)) result
        (list_at (tree_at levels) rest.entry.references rest.entry.bytes.now) }
    ensures memory { IfErr result (λ e. e ≡ OutOfMemory
        → IsTrue (has_elements rest.entry.bytes.now)) }
{
    let (count, bytes) = take_u16(rest.bytes, PickleFault::Short)?;
    if count as usize > MOST_ELEMENTS {
        return Err(PickleError::Fault(PickleFault::Count));
    }
    let rest = Rest {
        bytes,
        references: rest.references,
    };
    let (values, rest) = values_of(alloc, levels, count, rest)?;
    Ok((Value::List(values), rest))
}

/// `count` values, one after another.
#[cycle(reading)]
#[tactic(auto, using(crate::proofs::Loop::ends, crate::proofs::Loop::goes_on, crate::proofs::Loop::is_done))]
fn values_of<'a>(
    alloc: Global,
    levels: u32,
    count: u16,
    rest: Rest<'a>,
) -> Result<(Values, Rest<'a>), PickleError>
    ensures exact { Gives (λ x. (x.0, x.1.references, x.1.bytes.now)) result
        (trees_at (tree_at levels) count rest.entry.references rest.entry.bytes.now) }
    ensures memory { IfErr result (λ e. e ≡ OutOfMemory → 0 < count) }
{
    let mut rest = rest;
    let mut items = Vec::new(alloc);
    for _ in 0..count {
        let (value, after) = value_of(alloc, levels, rest)?;
        items.push(value)?;
        rest = after;
    }
    Ok((Values::from_vec(items), rest))
}

/// A whole number, behind its first byte.
#[tactic(auto, unfolding(crate::specs::Reading::int_at))]
fn int_of<'a>(rest: Rest<'a>) -> Result<(Value, Rest<'a>), PickleError>
    ensures exact { Gives (λ x. (tree x.0, x.1.references, x.1.bytes.now)) result
        (int_at rest.entry.references rest.entry.bytes.now) }
    ensures memory { IfErr result (λ e. e ≢ OutOfMemory) }
{
    let (number, bytes) = take_u64(rest.bytes, PickleFault::Short)?;
    let rest = Rest {
        bytes,
        references: rest.references,
    };
    Ok((Value::Int(number.cast_signed()), rest))
}

/// Bytes, behind their first byte.
#[tactic(auto, unfolding(crate::specs::Reading::bytes_at))]
fn bytes_of<'a>(alloc: Global, rest: Rest<'a>) -> Result<(Value, Rest<'a>), PickleError>
    ensures exact { Gives (λ x. (tree x.0, x.1.references, x.1.bytes.now)) result
        (bytes_at rest.entry.references rest.entry.bytes.now) }
    ensures memory { IfErr result (λ e. e ≡ OutOfMemory → IsTrue (has_bytes rest.entry.bytes.now)) }
{
    let (len, bytes) = take_u32(rest.bytes, PickleFault::Short)?;
    let len = len as usize;
    if len > MOST_BYTES {
        return Err(PickleError::Fault(PickleFault::Bytes));
    }
    if bytes.len() < len {
        return Err(PickleError::Fault(PickleFault::Short));
    }
    let (items, bytes) = bytes.split_at(len);
    let items = Bytes::from_slice(alloc, items)?;
    let rest = Rest {
        bytes,
        references: rest.references,
    };
    Ok((Value::Bytes(items), rest))
}

/// A reference, behind its first byte.
#[tactic(auto, unfolding(crate::specs::Reading::ref_at))]
fn reference_of<'a>(rest: Rest<'a>) -> Result<(Value, Rest<'a>), PickleError>
    ensures exact { Gives (λ x. (tree x.0, x.1.references, x.1.bytes.now)) result
        (ref_at rest.entry.references rest.entry.bytes.now) }
    ensures memory { IfErr result (λ e. e ≢ OutOfMemory) }
{
    let (owner, bytes) = take_u16(rest.bytes, PickleFault::Short)?;
    let (index, bytes) = take_u64(bytes, PickleFault::Short)?;
    let Some(owner) = SpaceId::new(owner) else {
        return Err(PickleError::Fault(PickleFault::Space));
    };
    if rest.references == 0 {
        return Err(PickleError::Fault(PickleFault::TooBig));
    }
    let rest = Rest {
        bytes,
        references: rest.references - 1,
    };
    Ok((Value::Ref(WireRep { owner, index }), rest))
}
