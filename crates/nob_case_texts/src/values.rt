//! Values as words.

ghost use Rattle.std.specs.Prelude.{◌≡◌, IfOk};
ghost use Rattle.nob_pickle.specs.Shape.{tree};
ghost use Rattle.nob_case_texts.specs.Values as spec;

use crate::tokens;
use crate::unanswered::Unanswered;
use nob_pickle::{Bytes, Value, Values};
use std::alloc::Global;

/// A value: `u`, `i-5`, `b6869`, `r2.5`, `[u,[i5]]`. Bytes are written as everywhere; any other
/// element of a list may stand several times, as `u*257`.
pub fn value(alloc: Global, word: &str) -> Result<Value, Unanswered> {
    // the lists that are open, the outermost first; the first one is there to hold the value itself
    let mut open = Vec::new(alloc);
    open.push(Vec::new(alloc))?;
    for chunk in word.split(',') {
        read_chunk(alloc, &mut open, chunk)?;
    }
    match open.pop() {
        Some(values) if open.is_empty() => lone_value(values),
        _ => Err(Unanswered::NoCase),
    }
}

/// A value inside of so many lists.
pub fn deep_value(alloc: Global, lists: u64, innermost: Value) -> Result<Value, Unanswered>
    ensures { IfOk result (λ value. tree value ≡ spec.within_lists lists (tree innermost)) }
{
    let mut value = innermost;
    for _ in 0..lists {
        let mut values = Vec::new(alloc);
        values.push(value)?;
        value = Value::List(Values::from_vec(values));
    }
    Ok(value)
}

// The only value of these.
fn lone_value(values: Vec<Value>) -> Result<Value, Unanswered> {
    let mut values = values;
    match values.pop() {
        Some(value) if values.is_empty() => Ok(value),
        _ => Err(Unanswered::NoCase),
    }
}

// Reads what stands between two commas: the lists that begin there, an element, and the lists that
// end there.
fn read_chunk(alloc: Global, open: &mut Vec<Vec<Value>>, chunk: &str) -> Result<(), Unanswered> {
    let inner = chunk.trim_start_matches('[');
    for _ in inner.len()..chunk.len() {
        open.push(Vec::new(alloc))?;
    }
    let (element, ends) = match inner.split_once(']') {
        Some((element, ends)) => (element, Some(ends)),
        None => (inner, None),
    };
    if !element.is_empty() {
        put_element(alloc, open, element)?;
    }
    let Some(ends) = ends else {
        return Ok(());
    };
    for end in ends.split(']') {
        end_list(alloc, open, end)?;
    }
    Ok(())
}

// Puts an element that is no list into the innermost open list.
fn put_element(alloc: Global, open: &mut Vec<Vec<Value>>, element: &str) -> Result<(), Unanswered> {
    if let Some(digits) = element.strip_prefix('b') {
        let bytes = tokens::bytes(alloc, digits)?;
        return put(open, Value::Bytes(Bytes::from_vec(bytes)), 1);
    }
    let (element, count) = tokens::repeated(alloc, element)?;
    put(open, leaf(alloc, element)?, count)
}

// Nothing, a number or a reference.
fn leaf(alloc: Global, element: &str) -> Result<Value, Unanswered> {
    if element == "u" {
        return Ok(Value::Unit);
    }
    if let Some(rep) = element.strip_prefix('r') {
        return Ok(Value::Ref(tokens::reference(alloc, rep)?));
    }
    let Some(digits) = element.strip_prefix('i') else {
        return Err(Unanswered::NoCase);
    };
    match digits.parse::<i64>() {
        Ok(number) => Ok(Value::Int(number)),
        Err(_) => Err(Unanswered::NoCase),
    }
}

// Ends the innermost open list, which stands as often as is written behind its end: once where
// nothing is.
fn end_list(alloc: Global, open: &mut Vec<Vec<Value>>, end: &str) -> Result<(), Unanswered> {
    let ("", count) = tokens::repeated(alloc, end)? else {
        return Err(Unanswered::NoCase);
    };
    let Some(values) = open.pop() else {
        return Err(Unanswered::NoCase);
    };
    put(open, Value::List(Values::from_vec(values)), count)
}

// Puts a value into the innermost open list so often.
fn put(open: &mut Vec<Vec<Value>>, value: Value, count: u64) -> Result<(), Unanswered> {
    let Some(values) = open.last_mut() else {
        return Err(Unanswered::NoCase);
    };
    for _ in 1..count {
        values.push(value.copy()?)?;
    }
    values.push(value)?;
    Ok(())
}
