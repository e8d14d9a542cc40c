//! Reading a script's lines.

ghost use Rattle.std.specs.Prelude.{◌≡◌, ◌≢◌, ◌++◌, ◌<◌, ◌^◌, List, ℕ, Some, true, false, IfOk, IfSome, IsSome, IsSomeAnd, codes, ◌≤◌, length};
ghost use Rattle.std.specs.Fmt.{decimal};
ghost use Rattle.hex.specs.Hex.{encode_lower, IsBytes};
ghost use Rattle.nob_session.specs.Items.{IsItem};
ghost use Rattle.nob_demo_scripts.specs.declared.step.Call.{Call as CallOf};
ghost use Rattle.nob_demo_scripts.specs.declared.step.Step.{Step as StepOf};
ghost use Rattle.nob_demo_scripts.specs.Grammar.{header_text, limits_text, length_of_word, IsLimits, side_text, call_text, step_text, IsCall, IsStep};

use crate::step::{Call, Side, Step};
use nob_bytes::Bytes;
use nob_ids::Limits;
use nob_model_text::{bytes_of, number_of};
use std::alloc::{AllocError, Global};

/// The step that a line spells: `None` where it spells none. Only memory fails it.
pub fn step_of(alloc: Global, line: &[u8]) -> Result<Option<Step>, AllocError>
    ensures found { IfOk result (λ r. IfSome r
        (λ step. IsStep step × (line.now ≡ step_text step))) }
    ensures only { IfOk result (λ r. (step : StepOf) → IsStep step → line.now ≡ step_text step
        → r ≡ Some step) }
{
    match line {
        [b'1', b' ', call @ ..] => at(alloc, Side::First, call),
        [b'2', b' ', call @ ..] => at(alloc, Side::Second, call),
        [b'd', b'e', b'l', b'i', b'v', b'e', b'r', b' ', number @ ..] => delivery_of(alloc, number),
        _ => Ok(None),
    }
}

// The step at an end whose call is spelled so.
fn at(alloc: Global, side: Side, text: &[u8]) -> Result<Option<Step>, AllocError>
    ensures found { IfOk result (λ r. IfSome r
        (λ step. IsStep step × (side_text side ++ text.now ≡ step_text step))) }
    ensures only { IfOk result (λ r. (call : CallOf) → IsCall call → text.now ≡ call_text call
        → r ≡ Some (Step.At side call)) }
{
    let Some(call) = call_of(alloc, text)? else {
        return Ok(None);
    };
    Ok(Some(Step::At(side, call)))
}

// The delivery of the frame whose number is spelled so.
fn delivery_of(alloc: Global, text: &[u8]) -> Result<Option<Step>, AllocError>
    ensures found { IfOk result (λ r. IfSome r
        (λ step. IsStep step × (codes "deliver " ++ text.now ≡ step_text step))) }
    ensures only { IfOk result (λ r. (k : ℕ) → k < 2 ^ 64 → text.now ≡ decimal k
        → r ≡ Some (Step.Deliver k)) }
{
    let Some(number) = number_of(alloc, text)? else {
        return Ok(None);
    };
    Ok(Some(Step::Deliver(number)))
}

// The call that a text spells.
fn call_of(alloc: Global, text: &[u8]) -> Result<Option<Call>, AllocError>
    ensures found { IfOk result (λ r. IfSome r
        (λ call. IsCall call × (text.now ≡ call_text call))) }
    ensures only { IfOk result (λ r. (call : CallOf) → IsCall call → text.now ≡ call_text call
        → r ≡ Some call) }
{
    if is_open(text) {
        return Ok(Some(Call::Open));
    }
    match text {
        b"send" => Ok(Some(Call::Send)),
        b"get" => Ok(Some(Call::Get)),
        b"tick" => Ok(Some(Call::Tick)),
        b"close" => Ok(Some(Call::Close)),
        [b'p', b'u', b't', b' ', item @ ..] => put_of(alloc, item),
        _ => Ok(None),
    }
}

// Whether a text is that of the call `open`.
fn is_open(text: &[u8]) -> bool
    ensures yes { result ≡ true → text.now ≡ codes "open" }
    ensures no { result ≡ false → text.now ≢ codes "open" }
{
    matches!(text, b"open")
}

// The `put` of an item that is spelled so.
fn put_of(alloc: Global, text: &[u8]) -> Result<Option<Call>, AllocError>
    ensures found { IfOk result (λ r. IfSome r
        (λ call. IsCall call × (codes "put " ++ text.now ≡ call_text call))) }
    ensures only { IfOk result (λ r. (item : List ℕ) → IsItem item → IsBytes item
        → text.now ≡ encode_lower item → r ≡ Some (Call.Put item)) }
{
    let Some(bytes) = bytes_of(alloc, text)? else {
        return Ok(None);
    };
    if bytes.is_empty() || bytes.len() > 16_384 {
        return Ok(None);
    }
    Ok(Some(Call::Put(Bytes::from_vec(bytes))))
}

/// The limits that a script's first line spells: `None` where it spells none. Only memory fails it.
pub fn header_of(alloc: Global, line: &[u8]) -> Result<Option<Limits>, AllocError>
    ensures found { IfOk result (λ r. IfSome r
        (λ limits. IsLimits limits.window limits.retry
        × (line.now ≡ header_text limits.window limits.retry))) }
    ensures only { IfOk result (λ r. (window retry : ℕ) → IsLimits window retry
        → line.now ≡ header_text window retry → IsSome r) }
{
    match line {
        [
            b'p',
            b'a',
            b'i',
            b'r',
            b' ',
            b'w',
            b'i',
            b'n',
            b'd',
            b'o',
            b'w',
            b' ',
            limits @ ..,
        ] => { limits_of(alloc, limits) }
        _ => Ok(None),
    }
}

// The limits that the rest of a first line spells.
fn limits_of(alloc: Global, text: &[u8]) -> Result<Option<Limits>, AllocError>
    ensures found { IfOk result (λ r. IfSome r
        (λ limits. IsLimits limits.window limits.retry
        × (text.now ≡ limits_text limits.window limits.retry))) }
    ensures only { IfOk result (λ r. (window retry : ℕ) → IsLimits window retry
        → text.now ≡ limits_text window retry → IsSome r) }
{
    let (window, rest) = text.split_at(word_len(text));
    let Some(retry) = after_retry(rest) else {
        return Ok(None);
    };
    let Some(window) = number_of(alloc, window)? else {
        return Ok(None);
    };
    let Some(retry) = number_of(alloc, retry)? else {
        return Ok(None);
    };
    Ok(Limits::new(window, retry))
}

// What follows ` retry ` where a text begins so.
fn after_retry(text: &[u8]) -> Option<&[u8]>
    ensures found { IfSome result (λ rest. text.now ≡ codes " retry " ++ rest.now) }
    ensures only { (rest : List ℕ) → text.now ≡ codes " retry " ++ rest
        → IsSomeAnd result (λ r. r.now ≡ rest) }
{
    match text {
        [b' ', b'r', b'e', b't', b'r', b'y', b' ', rest @ ..] => Some(rest),
        _ => None,
    }
}

// How many bytes stand before the first space.
fn word_len(text: &[u8]) -> usize
    ensures value { result ≡ length_of_word text.now }
    ensures bound { result ≤ length text.now }
{
    for (i, byte) in text.iter().enumerate() {
        if *byte == b' ' {
            return i;
        }
    }
    text.len()
}
