//! What stands at the front of a text, up to the first mark: numbers, bytes and references.

ghost use Rattle.std.specs.Prelude.{◌≡◌, ◌++◌, ◌∷◌, ◌<◌, ◌≤◌, ◌^◌, ℕ, ℤ, List, Some, IfOk, IfSome, IsSome, ◌↔◌, length};
ghost use Rattle.std.specs.Int.{w64};
ghost use Rattle.std.specs.Int.RustNames.{FitsSigned};
ghost use Rattle.std.specs.Fmt.{decimal, signed_decimal};
ghost use Rattle.hex.specs.Hex.{encode_lower, IsBytes};
ghost use Rattle.nob_ids.specs.Names.{IsSpace};
ghost use Rattle.nob_ids.specs.declared.wire_rep.WireRep.{WireRep as RepOf};
ghost use Rattle.nob_model_text.specs.Values.{rep_text};
ghost use Rattle.nob_model_text.specs.Fronts as spec;
ghost use Rattle.nob_model_text.specs.Reading.{Reads};

use crate::unread::Unread;
use crate::{bytes_of, number_of};
use nob_ids::{SpaceId, WireRep};
use std::alloc::{AllocError, Global};

/// The number at the front of a text, up to the first mark, and what is left. Only memory and a
/// text that begins otherwise fail it.
pub fn number_at(alloc: Global, text: &[u8]) -> Result<(u64, &[u8]), Unread>
    ensures found { IfOk result (λ parts. text.now ≡ decimal parts.0 ++ parts.1.now) }
    ensures only { (n : ℕ) (rest : List ℕ) → n < 2 ^ 64 → spec.Stops rest
        → text.now ≡ decimal n ++ rest
        → Reads (λ parts. (parts.0 ≡ n) × (parts.1.now ≡ rest)) result }
{
    let (front, rest) = front_of(text);
    let Some(number) = number_of(alloc, front)? else {
        return Err(Unread::NoText);
    };
    Ok((number, rest))
}

// The signed number at the front of a text, and what is left.
pub fn int_at(alloc: Global, text: &[u8]) -> Result<(i64, &[u8]), Unread>
    ensures found { IfOk result (λ parts. text.now ≡ signed_decimal parts.0 ++ parts.1.now) }
    ensures only { (n : ℤ) (rest : List ℕ) → FitsSigned w64 n → spec.Stops rest
        → text.now ≡ signed_decimal n ++ rest
        → Reads (λ parts. (parts.0 ≡ n) × (parts.1.now ≡ rest)) result }
{
    let (front, rest) = front_of(text);
    let Some(number) = int_of(alloc, front)? else {
        return Err(Unread::NoText);
    };
    Ok((number, rest))
}

// The signed number that a text spells: `None` where it spells none.
fn int_of(alloc: Global, text: &[u8]) -> Result<Option<i64>, AllocError>
    ensures found { IfOk result (λ r. IfSome r (λ n. text.now ≡ signed_decimal n)) }
    ensures only { IfOk result (λ r. (n : ℤ) → FitsSigned w64 n → text.now ≡ signed_decimal n
        → r ≡ Some n) }
{
    let Some(number) = parsed(text) else {
        return Ok(None);
    };
    let spelling = format!(in alloc; "{number}")?;
    if spelling.as_bytes() != text {
        return Ok(None);
    }
    Ok(Some(number))
}

// The signed number that a text spells, perhaps in another way too.
fn parsed(text: &[u8]) -> Option<i64>
    ensures { (n : ℤ) → FitsSigned w64 n → text.now ≡ signed_decimal n → result ≡ Some n }
{
    let Ok(digits) = str::from_utf8(text) else {
        return None;
    };
    match digits.parse::<i64>() {
        Ok(number) => Some(number),
        Err(_) => None,
    }
}

/// The bytes at the front of a text, up to the first mark, and what is left. They are none where a
/// mark is first.
pub fn bytes_at(alloc: Global, text: &[u8]) -> Result<(Vec<u8>, &[u8]), Unread>
    ensures found { IfOk result (λ parts. text.now ≡ encode_lower parts.0.items ++ parts.1.now) }
    ensures only { (bytes rest : List ℕ) → IsBytes bytes → spec.Stops rest
        → text.now ≡ encode_lower bytes ++ rest
        → Reads (λ parts. (parts.0.items ≡ bytes) × (parts.1.now ≡ rest)) result }
{
    let (front, rest) = front_of(text);
    let Some(bytes) = bytes_of(alloc, front)? else {
        return Err(Unread::NoText);
    };
    Ok((bytes, rest))
}

/// The two numbers of a reference at the front of a text, and what is left.
pub fn rep_numbers_at(alloc: Global, text: &[u8]) -> Result<(u64, u64, &[u8]), Unread>
    ensures found { IfOk result (λ parts. text.now
        ≡ (decimal parts.0 ++ 46 ∷ decimal parts.1) ++ parts.2.now) }
    ensures only { (owner index : ℕ) (rest : List ℕ) → owner < 2 ^ 64 → index < 2 ^ 64
        → spec.Stops rest → text.now ≡ (decimal owner ++ 46 ∷ decimal index) ++ rest
        → Reads (λ parts. (parts.0 ≡ owner) × (parts.1 ≡ index) × (parts.2.now ≡ rest)) result }
{
    let (owner, behind) = number_at(alloc, text)?;
    let (index, rest) = number_at(alloc, after_point(behind)?)?;
    Ok((owner, index, rest))
}

/// The reference of these numbers: `None` where no space has the owner's. It takes no memory.
pub fn rep_of(owner: u64, index: u64) -> Option<WireRep>
    ensures in_range { IsSome result ↔ IsSpace owner }
    ensures value { IfSome result (λ rep. (rep.owner ≡ owner) × (rep.index ≡ index)) }
{
    let owner = space_of(owner)?;
    Some(WireRep { owner, index })
}

/// The space of this number: `None` where no space has it. It takes no memory.
pub fn space_of(number: u64) -> Option<SpaceId>
    ensures in_range { IsSome result ↔ IsSpace number }
    ensures value { IfSome result (λ space. space ≡ number) }
{
    if number > 32 {
        return None;
    }
    SpaceId::new(number as u16)
}

// What follows the point with which a text begins.
fn after_point(text: &[u8]) -> Result<&[u8], Unread>
    ensures found { IfOk result (λ rest. text.now ≡ 46 ∷ rest.now) }
    ensures only { (rest : List ℕ) → text.now ≡ 46 ∷ rest → Reads (λ r. r.now ≡ rest) result }
{
    match text {
        [b'.', rest @ ..] => Ok(rest),
        _ => Err(Unread::NoText),
    }
}

// What stands before the first mark in a text, and what is left.
fn front_of(text: &[u8]) -> (&[u8], &[u8])
    ensures parts { text.now ≡ result.0.now ++ result.1.now }
    ensures only { (front rest : List ℕ) → spec.HasNoMark front → spec.Stops rest
        → text.now ≡ front ++ rest
        → (result.0.now ≡ front) × (result.1.now ≡ rest) }
{
    text.split_at(front_len(text))
}

// How many bytes stand before the first mark.
fn front_len(text: &[u8]) -> usize
    ensures value { result ≡ spec.length_of_front text.now }
    ensures bound { result ≤ length text.now }
{
    for (i, byte) in text.iter().enumerate() {
        if is_mark(*byte) {
            return i;
        }
    }
    text.len()
}

// Whether a byte stands behind a number or bytes.
fn is_mark(byte: u8) -> bool
    ensures { result ≡ spec.is_mark byte }
{
    byte == b' ' || byte == b',' || byte == b'.' || byte == b']'
}
