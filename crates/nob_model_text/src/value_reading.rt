//! Texts to values.

ghost use Rattle.std.specs.Prelude.{◌≡◌, ◌++◌, ◌∷◌, ◌<◌, ◌≤◌, ◌^◌, ℕ, ℤ, List, Some, IfOk, IfSome, MatchOption};
ghost use Rattle.std.specs.Int.{w64};
ghost use Rattle.std.specs.Int.RustNames.{FitsSigned};
ghost use Rattle.std.specs.Fmt.{signed_decimal};
ghost use Rattle.hex.specs.Hex.{encode_lower, IsBytes};
ghost use Rattle.nob_ids.specs.Names.{IsSpace};
ghost use Rattle.nob_ids.specs.declared.wire_rep.WireRep.{WireRep as RepOf};
ghost use Rattle.nob_pickle.specs.Trees.{Tree, Trees, int, bytes, ref, more};
ghost use Rattle.nob_pickle.specs.Trees as trees;
ghost use Rattle.nob_pickle.specs.Shape.{tree};
ghost use Rattle.nob_pickle.specs.declared.value.Value.{Value as ValueOf};
ghost use Rattle.nob_model_text.specs.Fronts.{Stops};
ghost use Rattle.nob_model_text.specs.Reading.{Reads};
ghost use Rattle.nob_model_text.specs.Values as spec;

use crate::fronts::{bytes_at, int_at, rep_numbers_at, rep_of};
use crate::unread::Unread;
use nob_bytes::Bytes;
use nob_pickle::{Value, Values};
use std::alloc::{AllocError, Global};

// The maximum depth of lists in lists.
const MOST_LISTS: u32 = 1_000;

/// The value that a text spells: `None` where it spells none, as one in which more than 1,000 lists
/// stand in one another. Only memory fails it. It recurses once for each level of the value.
pub fn value_of(alloc: Global, text: &[u8]) -> Result<Option<Value>, AllocError>
    ensures found { IfOk result (λ r. IfSome r
        (λ value. spec.HasText value × (text.now ≡ spec.value_text value))) }
    ensures only { IfOk result (λ r. (value : ValueOf) → spec.HasText value
        → text.now ≡ spec.value_text value → r ≡ Some value) }
{
    match whole_value(alloc, text) {
        Ok(value) => Ok(Some(value)),
        Err(Unread::NoText) => Ok(None),
        Err(Unread::OutOfMemory) => Err(AllocError),
    }
}

/// The same, where a text that spells none is an error.
pub fn whole_value(alloc: Global, text: &[u8]) -> Result<Value, Unread>
    ensures found { IfOk result (λ value. spec.HasText value × (text.now ≡ spec.value_text value)) }
    ensures only { (value : ValueOf) → spec.HasText value → text.now ≡ spec.value_text value
        → Reads (λ v. v ≡ value) result }
{
    let (value, rest) = value_at(alloc, text, MOST_LISTS)?;
    if !rest.is_empty() {
        return Err(Unread::NoText);
    }
    Ok(value)
}

// The value at the front of a text, in which so many lists may stand in one another, and what is
// left.
#[cycle(reading)]
fn value_at(alloc: Global, text: &[u8], lists: u32) -> Result<(Value, &[u8]), Unread>
    ensures found { IfOk result (λ parts. text.now ≡ spec.value_text parts.0 ++ parts.1.now) }
    ensures only { (t : Tree) (rest : List ℕ) → spec.IsTyped t → spec.nested t ≤ lists → Stops rest
        → text.now ≡ spec.tree_text t ++ rest
        → Reads (λ parts. (tree parts.0 ≡ t) × (parts.1.now ≡ rest)) result }
    ensures deep { IfOk result (λ parts. spec.nested (tree parts.0) ≤ lists) }
    ensures typed { IfOk result (λ parts. spec.IsTyped (tree parts.0)) }
{
    let Some((first, rest)) = text.split_first() else {
        return Err(Unread::NoText);
    };
    value_by(alloc, *first, rest, lists)
}

// The same behind its first byte.
#[cycle(reading)]
fn value_by(alloc: Global, first: u8, text: &[u8], lists: u32) -> Result<(Value, &[u8]), Unread>
    ensures found { IfOk result (λ parts. first ∷ text.now
        ≡ spec.value_text parts.0 ++ parts.1.now) }
    ensures only { (t : Tree) (rest : List ℕ) → spec.IsTyped t → spec.nested t ≤ lists → Stops rest
        → first ∷ text.now ≡ spec.tree_text t ++ rest
        → Reads (λ parts. (tree parts.0 ≡ t) × (parts.1.now ≡ rest)) result }
    ensures deep { IfOk result (λ parts. spec.nested (tree parts.0) ≤ lists) }
    ensures typed { IfOk result (λ parts. spec.IsTyped (tree parts.0)) }
{
    match first {
        b'u' => Ok((Value::Unit, text)),
        b'i' => int_value(alloc, text),
        b'b' => bytes_value(alloc, text),
        b'r' => rep_value(alloc, text),
        b'[' => list_value(alloc, text, lists),
        _ => Err(Unread::NoText),
    }
}

// The list of the elements at the front of a text, and what is left.
#[cycle(reading)]
fn list_value(alloc: Global, text: &[u8], lists: u32) -> Result<(Value, &[u8]), Unread>
    ensures found { IfOk result (λ parts. 91 ∷ text.now ≡ spec.value_text parts.0 ++ parts.1.now) }
    ensures only { (ts : Trees) (rest : List ℕ) → spec.AreTyped ts → spec.most_nested ts < lists
        → text.now ≡ spec.inside_text ts ++ rest
        → Reads (λ parts. (tree parts.0 ≡ trees.list ts) × (parts.1.now ≡ rest)) result }
    ensures deep { IfOk result (λ parts. spec.nested (tree parts.0) ≤ lists) }
    ensures typed { IfOk result (λ parts. spec.IsTyped (tree parts.0)) }
{
    if lists == 0 {
        return Err(Unread::NoText);
    }
    let (values, rest) = elements_at(alloc, text, lists - 1)?;
    Ok((Value::List(values), rest))
}

// The elements at the front of a text, up to the end of their list, and what is left.
#[cycle(reading)]
fn elements_at(alloc: Global, text: &[u8], lists: u32) -> Result<(Values, &[u8]), Unread>
    ensures found { IfOk result (λ parts. text.now ≡ spec.inside_text parts.0 ++ parts.1.now) }
    ensures only { (ts : Trees) (rest : List ℕ) → spec.AreTyped ts → spec.most_nested ts ≤ lists
        → text.now ≡ spec.inside_text ts ++ rest
        → Reads (λ parts. (parts.0 ≡ ts) × (parts.1.now ≡ rest)) result }
    ensures deep { IfOk result (λ parts. spec.most_nested parts.0 ≤ lists) }
    ensures typed { IfOk result (λ parts. spec.AreTyped parts.0) }
{
    if let Some(rest) = after_end(text) {
        return Ok((Values::from_vec(Vec::new(alloc)), rest));
    }
    some_elements_at(alloc, text, lists)
}

// The same where there is an element.
#[cycle(reading)]
fn some_elements_at(alloc: Global, text: &[u8], lists: u32) -> Result<(Values, &[u8]), Unread>
    ensures found { IfOk result (λ parts. text.now ≡ spec.inside_text parts.0 ++ parts.1.now) }
    ensures only { (t : Tree) (ts : Trees) (rest : List ℕ) → spec.AreTyped (more t ts)
        → spec.most_nested (more t ts) ≤ lists → text.now ≡ spec.inside_text (more t ts) ++ rest
        → Reads (λ parts. (parts.0 ≡ more t ts) × (parts.1.now ≡ rest)) result }
    ensures deep { IfOk result (λ parts. spec.most_nested parts.0 ≤ lists) }
    ensures typed { IfOk result (λ parts. spec.AreTyped parts.0) }
{
    let mut values = Vec::new(alloc);
    let (first, after_first) = value_at(alloc, text, lists)?;
    values.push(first)?;
    let mut left = after_first;
    while let Some(next) = after_comma(left) {
        let (value, after) = value_at(alloc, next, lists)?;
        values.push(value)?;
        left = after;
    }
    let Some(rest) = after_end(left) else {
        return Err(Unread::NoText);
    };
    Ok((Values::from_vec(values), rest))
}

// What follows the comma with which a text begins.
fn after_comma(text: &[u8]) -> Option<&[u8]>
    ensures { MatchOption result ((rest : List ℕ) → text.now ≡ 44 ∷ rest → ⊥)
        (λ rest. text.now ≡ 44 ∷ rest.now) }
{
    match text {
        [b',', rest @ ..] => Some(rest),
        _ => None,
    }
}

// What follows the end of a list with which a text begins.
fn after_end(text: &[u8]) -> Option<&[u8]>
    ensures { MatchOption result ((rest : List ℕ) → text.now ≡ 93 ∷ rest → ⊥)
        (λ rest. text.now ≡ 93 ∷ rest.now) }
{
    match text {
        [b']', rest @ ..] => Some(rest),
        _ => None,
    }
}

// The number at the front of a text as a value, and what is left.
fn int_value(alloc: Global, text: &[u8]) -> Result<(Value, &[u8]), Unread>
    ensures found { IfOk result (λ parts. 105 ∷ text.now ≡ spec.value_text parts.0 ++ parts.1.now) }
    ensures only { (n : ℤ) (rest : List ℕ) → FitsSigned w64 n → Stops rest
        → text.now ≡ signed_decimal n ++ rest
        → Reads (λ parts. (tree parts.0 ≡ int n) × (parts.1.now ≡ rest)) result }
    ensures deep { IfOk result (λ parts. spec.nested (tree parts.0) ≡ 0) }
    ensures typed { IfOk result (λ parts. spec.IsTyped (tree parts.0)) }
{
    let (number, rest) = int_at(alloc, text)?;
    Ok((Value::Int(number), rest))
}

// The bytes at the front of a text as a value, and what is left.
fn bytes_value(alloc: Global, text: &[u8]) -> Result<(Value, &[u8]), Unread>
    ensures found { IfOk result (λ parts. 98 ∷ text.now ≡ spec.value_text parts.0 ++ parts.1.now) }
    ensures only { (bs rest : List ℕ) → IsBytes bs → Stops rest → text.now ≡ encode_lower bs ++ rest
        → Reads (λ parts. (tree parts.0 ≡ bytes bs) × (parts.1.now ≡ rest)) result }
    ensures deep { IfOk result (λ parts. spec.nested (tree parts.0) ≡ 0) }
    ensures typed { IfOk result (λ parts. spec.IsTyped (tree parts.0)) }
{
    let (items, rest) = bytes_at(alloc, text)?;
    Ok((Value::Bytes(bytes_of_vec(items)), rest))
}

// Bytes that own their memory.
fn bytes_of_vec(items: Vec<u8>) -> Bytes
    ensures value { result ≡ items.items }
    ensures typed { IsBytes result }
{
    Bytes::from_vec(items)
}

// The reference at the front of a text as a value, and what is left.
fn rep_value(alloc: Global, text: &[u8]) -> Result<(Value, &[u8]), Unread>
    ensures found { IfOk result (λ parts. 114 ∷ text.now ≡ spec.value_text parts.0 ++ parts.1.now) }
    ensures only { (rep : RepOf) (rest : List ℕ) → IsSpace rep.owner → rep.index < 2 ^ 64
        → Stops rest → text.now ≡ spec.rep_text rep ++ rest
        → Reads (λ parts. (tree parts.0 ≡ ref rep) × (parts.1.now ≡ rest)) result }
    ensures deep { IfOk result (λ parts. spec.nested (tree parts.0) ≡ 0) }
    ensures typed { IfOk result (λ parts. spec.IsTyped (tree parts.0)) }
{
    let (owner, index, rest) = rep_numbers_at(alloc, text)?;
    let Some(rep) = rep_of(owner, index) else {
        return Err(Unread::NoText);
    };
    Ok((Value::Ref(rep), rest))
}
