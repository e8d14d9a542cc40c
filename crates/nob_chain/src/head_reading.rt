//! First lines of chains and of segments to what they say, without memory.

ghost use Rattle.std.specs.Prelude.{◌≡◌, ◌++◌, ◌∷◌, ◌<◌, ◌^◌, ◌+◌, ℕ, List, Some, IfSome, IfOk, IfErr, IsSomeAnd, codes};
ghost use Rattle.std.specs.Fmt.{decimal};
ghost use Rattle.nob_chain.specs.declared.head.ChainHead.{ChainHead as HeadOf};
ghost use Rattle.nob_chain.specs.Chains as spec;
ghost use Rattle.nob_chain.specs.Openings.{OpeningFault};

use crate::fault::ChainFault;
use crate::head::ChainHead;
use nob_ids::Limits;
use nob_model_text::space_of;
use nob_trace::{limits_at, number_behind, number_of};

// What a first line says: `None` where it spells none. It takes no memory.
pub fn head_of(line: &[u8]) -> Option<ChainHead>
    ensures found { IfSome result (λ head. spec.IsHead head × (line.now ≡ spec.head_text head)) }
    ensures only { (head : HeadOf) → spec.IsHead head → line.now ≡ spec.head_text head
        → result ≡ Some head }
{
    let Some((space, n, behind)) = spaces_at(line) else {
        return None;
    };
    let Some((window, retry, left)) = limits_at(behind) else {
        return None;
    };
    let Some(digits) = left.strip_prefix(b"segments ".as_slice()) else {
        return None;
    };
    let Some(count) = number_of(digits) else {
        return None;
    };
    head_from(space, n, window, retry, count)
}

// The first line of these numbers: `None` where one is outside its range.
fn head_from(space: u64, n: u64, window: u64, retry: u64, count: u64) -> Option<ChainHead>
    ensures found { IfSome result (λ head. spec.IsHead head
        × (head.space ≡ space) × (head.n ≡ n)
        × (head.limits.window ≡ window) × (head.limits.retry ≡ retry)
        × (head.count ≡ count)) }
    ensures only { (head : HeadOf) → spec.IsHead head
        → head.space ≡ space → head.n ≡ n → head.limits.window ≡ window → head.limits.retry ≡ retry
        → head.count ≡ count
        → result ≡ Some head }
{
    let Some(space) = space_of(space) else {
        return None;
    };
    let Some(n) = space_of(n) else {
        return None;
    };
    match Limits::new(window, retry) {
        Some(limits) => Some(ChainHead {
            space,
            n,
            limits,
            count,
        }),
        None => None,
    }
}

// The numbers of the space and of how many there are at the front of a first line, and what is
// left behind the space that follows.
fn spaces_at(text: &[u8]) -> Option<(u64, u64, &[u8])>
    ensures found { IfSome result (λ parts. text.now ≡ codes "chain " ++ (decimal parts.0 ++
        (codes " of " ++ (decimal parts.1 ++ 32 ∷ parts.2.now)))) }
    ensures only { (space n : ℕ) (rest : List ℕ) → space < 2 ^ 64 → n < 2 ^ 64
        → text.now
        ≡ codes "chain " ++ (decimal space ++ (codes " of " ++ (decimal n ++ 32 ∷ rest)))
        → IsSomeAnd result (λ parts. (parts.0 ≡ space) × (parts.1 ≡ n) × (parts.2.now ≡ rest)) }
{
    let Some((space, behind)) = number_behind(text, b"chain ".as_slice()) else {
        return None;
    };
    match number_behind(behind, b"of ".as_slice()) {
        Some((n, rest)) => Some((space, n, rest)),
        None => None,
    }
}

// How many entries the first line of the segment behind so many says, or R2 or R6. It takes no
// memory.
pub fn count_of(behind: u64, line: &[u8]) -> Result<u64, ChainFault>
    requires { behind + 1 < 2 ^ 64 }
    ensures found { IfOk result (λ count. (0 < count) × (count < 2 ^ 64)
        × (line.now ≡ spec.opening_text (behind + 1) count)) }
    ensures fault { IfErr result (λ fault. OpeningFault behind line.now fault) }
{
    let Some((number, count)) = opening_of(line) else {
        return Err(ChainFault::Entry);
    };
    if number != behind + 1 || count == 0 {
        return Err(ChainFault::Segment);
    }
    Ok(count)
}

// What the first line of a segment says: its number, and how many entries it has.
fn opening_of(line: &[u8]) -> Option<(u64, u64)>
    ensures found { IfSome result (λ parts. line.now ≡ spec.opening_text parts.0 parts.1) }
    ensures only { (number count : ℕ) → number < 2 ^ 64 → count < 2 ^ 64
        → line.now ≡ spec.opening_text number count
        → IsSomeAnd result (λ parts. (parts.0 ≡ number) × (parts.1 ≡ count)) }
{
    let Some((number, behind)) = number_behind(line, b"segment ".as_slice()) else {
        return None;
    };
    let Some(digits) = behind.strip_prefix(b"entries ".as_slice()) else {
        return None;
    };
    match number_of(digits) {
        Some(count) => Some((number, count)),
        None => None,
    }
}
