//! Words that say a number, a name or bytes.

ghost use Rattle.std.specs.Prelude.{◌≡◌, ◌++◌, ◌∷◌, ◌<◌, ◌≤◌, ◌^◌, ℕ, IfOk, length};
ghost use Rattle.std.specs.Fmt.{decimal};
ghost use Rattle.hex.specs.Hex.{encode_lower};
ghost use Rattle.nob_ids.specs.Names.{IsSpace};
ghost use Rattle.nob_ids.specs.Reasons.{reason_number};
ghost use Rattle.nob_ids.specs.declared.wire_rep.WireRep.{WireRep as RepOf};
ghost use Rattle.nob_case_texts.specs.Reading.{Reads};
ghost use Rattle.nob_case_texts.specs.Words as spec;

use crate::unanswered::Unanswered;
use nob_ids::{Limits, Reason, SpaceId, WireRep};
use nob_model_text::{bytes_of, number_of};
use std::alloc::Global;

/// No part of bytes, no element and no case stands more often.
const MOST_TIMES: u64 = 1_000_000;

/// A decimal number.
pub fn number(alloc: Global, word: &str) -> Result<u64, Unanswered>
    ensures found { IfOk result (λ n. word.now ≡ decimal n) }
    ensures only { (n : ℕ) → n < 2 ^ 64 → word.now ≡ decimal n → Reads (λ m. m ≡ n) result }
{
    let Some(number) = number_of(alloc, word.as_bytes())? else {
        return Err(Unanswered::NoCase);
    };
    Ok(number)
}

/// How often something stands: once at least.
pub fn times(alloc: Global, word: &str) -> Result<u64, Unanswered>
    ensures found { IfOk result (λ n. word.now ≡ decimal n) }
    ensures in_range { IfOk result (λ n. spec.IsTimes n) }
    ensures only { (n : ℕ) → spec.IsTimes n → word.now ≡ decimal n → Reads (λ m. m ≡ n) result }
{
    let count = number(alloc, word)?;
    if count == 0 || count > MOST_TIMES {
        return Err(Unanswered::NoCase);
    }
    Ok(count)
}

/// A number of 16 bits.
pub fn short_number(alloc: Global, word: &str) -> Result<u16, Unanswered>
    ensures found { IfOk result (λ n. word.now ≡ decimal n) }
    ensures only { (n : ℕ) → n < 2 ^ 16 → word.now ≡ decimal n → Reads (λ m. m ≡ n) result }
{
    match u16::try_from(number(alloc, word)?) {
        Ok(number) => Ok(number),
        Err(_) => Err(Unanswered::NoCase),
    }
}

/// The number of a session: one of 32 bits.
pub fn session(alloc: Global, word: &str) -> Result<u32, Unanswered>
    ensures found { IfOk result (λ n. word.now ≡ decimal n) }
    ensures only { (n : ℕ) → n < 2 ^ 32 → word.now ≡ decimal n → Reads (λ m. m ≡ n) result }
{
    match u32::try_from(number(alloc, word)?) {
        Ok(number) => Ok(number),
        Err(_) => Err(Unanswered::NoCase),
    }
}

/// A number of 8 bits.
pub fn byte(alloc: Global, word: &str) -> Result<u8, Unanswered>
    ensures found { IfOk result (λ n. word.now ≡ decimal n) }
    ensures only { (n : ℕ) → n < 2 ^ 8 → word.now ≡ decimal n → Reads (λ m. m ≡ n) result }
{
    match u8::try_from(number(alloc, word)?) {
        Ok(number) => Ok(number),
        Err(_) => Err(Unanswered::NoCase),
    }
}

/// A space.
pub fn space(alloc: Global, word: &str) -> Result<SpaceId, Unanswered>
    ensures found { IfOk result (λ space. word.now ≡ decimal space) }
    ensures only { (n : ℕ) → IsSpace n → word.now ≡ decimal n → Reads (λ space. space ≡ n) result }
{
    let number = short_number(alloc, word)?;
    let Some(space) = SpaceId::new(number) else {
        return Err(Unanswered::NoCase);
    };
    Ok(space)
}

/// Limits of a session.
pub fn limits(alloc: Global, window: &str, retry: &str) -> Result<Limits, Unanswered>
    ensures window { IfOk result (λ limits. window.now ≡ decimal limits.window) }
    ensures retry { IfOk result (λ limits. retry.now ≡ decimal limits.retry) }
    ensures only { (w r : ℕ) → 1 ≤ w → w ≤ 64 → 1 ≤ r → r ≤ 255 → window.now ≡ decimal w
        → retry.now ≡ decimal r
        → Reads (λ limits. (limits.window ≡ w) × (limits.retry ≡ r)) result }
{
    let window = number(alloc, window)?;
    let retry = number(alloc, retry)?;
    let Some(limits) = Limits::new(window, retry) else {
        return Err(Unanswered::NoCase);
    };
    Ok(limits)
}

/// A reason of a close.
pub fn reason(alloc: Global, word: &str) -> Result<Reason, Unanswered>
    ensures found { IfOk result (λ reason. word.now ≡ decimal (reason_number reason)) }
    ensures only { (n : ℕ) → 1 ≤ n → n ≤ 6 → word.now ≡ decimal n
        → Reads (λ reason. reason_number reason ≡ n) result }
{
    let number = byte(alloc, word)?;
    let Some(reason) = Reason::from_number(number) else {
        return Err(Unanswered::NoCase);
    };
    Ok(reason)
}

/// A reference: `O.X`.
pub fn reference(alloc: Global, word: &str) -> Result<WireRep, Unanswered>
    ensures found { IfOk result (λ rep. word.now ≡ spec.reference_word rep) }
    ensures only { (rep : RepOf) → IsSpace rep.owner → rep.index < 2 ^ 64
        → word.now ≡ spec.reference_word rep → Reads (λ found. found ≡ rep) result }
{
    let Some((owner, index)) = word.split_once('.') else {
        return Err(Unanswered::NoCase);
    };
    Ok(WireRep {
        owner: space(alloc, owner)?,
        index: number(alloc, index)?,
    })
}

/// References, one at least.
pub fn references(alloc: Global, words: &[&str]) -> Result<Vec<WireRep>, Unanswered>
    ensures some { IfOk result (λ reps. 0 < length reps.items) }
{
    let mut reps = Vec::new(alloc);
    for word in words {
        reps.push(reference(alloc, word)?)?;
    }
    if reps.is_empty() {
        return Err(Unanswered::NoCase);
    }
    Ok(reps)
}

/// Bytes: `-` where there are none, else parts joined by dots, each hexadecimal digits, or those
/// and how often they stand, as `00*257`.
pub fn bytes(alloc: Global, word: &str) -> Result<Vec<u8>, Unanswered> {
    let mut bytes = Vec::new(alloc);
    if word == "-" {
        return Ok(bytes);
    }
    for part in word.split('.') {
        let (digits, count) = repeated(alloc, part)?;
        let piece = some_bytes(alloc, digits)?;
        for _ in 0..count {
            bytes.extend_from_slice(&piece)?;
        }
    }
    Ok(bytes)
}

// One byte at least.
fn some_bytes(alloc: Global, digits: &str) -> Result<Vec<u8>, Unanswered>
    ensures found { IfOk result (λ bytes. digits.now ≡ encode_lower bytes.items) }
    ensures some { IfOk result (λ bytes. 0 < length bytes.items) }
{
    match bytes_of(alloc, digits.as_bytes())? {
        Some(bytes) if !bytes.is_empty() => Ok(bytes),
        _ => Err(Unanswered::NoCase),
    }
}

/// What stands before a `*`, and how often it stands: once where there is none.
pub fn repeated<'a>(alloc: Global, word: &'a str) -> Result<(&'a str, u64), Unanswered>
    ensures found { IfOk result (λ parts. spec.Says word.now parts.0.now parts.1) }
    ensures in_range { IfOk result (λ parts. spec.IsTimes parts.1) }
{
    match word.split_once('*') {
        None => Ok((word, 1)),
        Some((part, count)) => Ok((part, times(alloc, count)?)),
    }
}
