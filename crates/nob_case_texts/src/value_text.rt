//! The texts of bytes and values.

ghost use Rattle.std.specs.Prelude.{◌≡◌, ◌++◌, ◌↔◌, IsTrue, OnOk};
ghost use Rattle.std.specs.String.{string_bytes};
ghost use Rattle.nob_case_texts.specs.Values.{Adds, IsSameLeaf};
ghost use Rattle.nob_case_texts.specs.Words as spec;

use nob_ids::WireRep;
use nob_pickle::Value;
use std::alloc::{AllocError, Global};
use std::slice;

/// At least this many equal bytes in a row are written once, with their number.
const LONG_RUN: usize = 16;

/// At least this many equal elements in a row are written once, with their number.
const MANY_ELEMENTS: usize = 4;

/// A pickle has no more values, lists counted twice.
const MOST_STEPS: u32 = 40_000;

/// What stands at the end of a text of bytes.
#[derive(Clone, Copy)]
enum End {
    Nothing,
    Digits,
    Run,
}

/// Writes bytes as words say them.
pub fn push_bytes(alloc: Global, text: &mut String, bytes: &[u8]) -> Result<(), AllocError> {
    if bytes.is_empty() {
        return text.push('-');
    }
    let mut rest = bytes;
    let mut end = End::Nothing;
    for _ in 0..bytes.len() {
        let len = run_len(rest);
        let run = rest.get(..len).unwrap_or(&[]);
        end = push_run(alloc, text, run, end)?;
        rest = rest.get(len..).unwrap_or(&[]);
    }
    Ok(())
}

// How many bytes at the front are one.
fn run_len(bytes: &[u8]) -> usize {
    let Some(first) = bytes.first() else {
        return 0;
    };
    bytes.iter().take_while(|byte| **byte == *first).count()
}

// Writes equal bytes behind what ends so.
fn push_run(alloc: Global, text: &mut String, run: &[u8], end: End) -> Result<End, AllocError> {
    let Some(first) = run.first() else {
        return Ok(end);
    };
    let is_long = run.len() >= LONG_RUN;
    if matches!(end, End::Run) || is_long && matches!(end, End::Digits) {
        text.push('.')?;
    }
    if !is_long {
        text.push_str(hex::encode(alloc, run)?.as_str())?;
        return Ok(End::Digits);
    }
    let count = run.len();
    let written = format!(in alloc; "{first:02x}*{count}")?;
    text.push_str(written.as_str())?;
    Ok(End::Run)
}

/// Writes a reference.
pub fn push_reference(alloc: Global, text: &mut String, rep: WireRep) -> Result<(), AllocError>
    ensures { OnOk result (string_bytes text.new
        ≡ string_bytes text.old ++ spec.reference_word rep) }
{
    let owner = rep.owner.get();
    let index = rep.index;
    let word = format!(in alloc; "{owner}.{index}")?;
    text.push_str(word.as_str())
}

/// Values that stand one after the other and are still to be written.
#[derive(Clone, Copy)]
struct Ahead<'a> {
    values: &'a [Value],
    is_first: bool,
}

/// Writes a value as words say it. It doesn't recurse, and writes no more than a pickle can have.
pub fn push_value(alloc: Global, text: &mut String, value: &Value) -> Result<(), AllocError> {
    let mut ahead = Vec::new(alloc);
    ahead.push(Ahead {
        values: slice::from_ref(value),
        is_first: true,
    })?;
    for _ in 0..MOST_STEPS {
        let Some(next) = ahead.pop() else {
            return Ok(());
        };
        push_next(alloc, text, &mut ahead, next)?;
    }
    Ok(())
}

// Writes the first element of what is ahead, or the end of the list.
fn push_next<'a>(
    alloc: Global,
    text: &mut String,
    ahead: &mut Vec<Ahead<'a>>,
    next: Ahead<'a>,
) -> Result<(), AllocError> {
    let Some(first) = next.values.first() else {
        if ahead.is_empty() {
            return Ok(());
        }
        return text.push(']');
    };
    let count = equal_elements(first, next.values);
    ahead.push(Ahead {
        values: next.values.get(count..).unwrap_or(&[]),
        is_first: false,
    })?;
    if !next.is_first {
        text.push(',')?;
    }
    if let Value::List(inner) = first {
        ahead.push(Ahead {
            values: inner.as_slice(),
            is_first: true,
        })?;
        return text.push('[');
    }
    push_leaf(alloc, text, first)?;
    if count > 1 {
        text.push_str(format!(in alloc; "*{count}")?.as_str())?;
    }
    Ok(())
}

// How many elements at the front are written at once.
fn equal_elements(first: &Value, values: &[Value]) -> usize {
    let count = values
        .iter()
        .take_while(|value| is_same_leaf(first, value))
        .count();
    if count < MANY_ELEMENTS { 1 } else { count }
}

// Whether two elements are written at once: both are nothing, or the same number or reference.
fn is_same_leaf(one: &Value, other: &Value) -> bool
    ensures { IsTrue result ↔ IsSameLeaf one.now other.now }
{
    match (one, other) {
        (Value::Unit, Value::Unit) => true,
        (Value::Int(one), Value::Int(other)) => *one == *other,
        (Value::Ref(one), Value::Ref(other)) => *one == *other,
        _ => false,
    }
}

// Writes a value that is no list.
fn push_leaf(alloc: Global, text: &mut String, value: &Value) -> Result<(), AllocError>
    ensures { OnOk result (Adds value.now (string_bytes text.old) (string_bytes text.new)) }
{
    match value {
        Value::Unit => text.push('u'),
        Value::Int(number) => text.push_str(format!(in alloc; "i{number}")?.as_str()),
        Value::Bytes(bytes) => {
            text.push('b')?;
            push_bytes(alloc, text, bytes.as_slice())
        }
        Value::Ref(rep) => {
            text.push('r')?;
            push_reference(alloc, text, *rep)
        }
        Value::List(_) => Ok(()),
    }
}
