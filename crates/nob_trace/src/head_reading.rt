//! First lines of traces to what they say, without memory.

ghost use Rattle.std.specs.Prelude.{◌≡◌, ◌++◌, ◌∷◌, ◌<◌, ◌^◌, ℕ, List, Some, IfSome, IsSomeAnd, codes};
ghost use Rattle.std.specs.Fmt.{decimal};
ghost use Rattle.nob_frame.specs.declared.version.Version.TheVariants.{One, Two};
ghost use Rattle.nob_trace.specs.declared.head.Head.{Head as HeadOf};
ghost use Rattle.nob_trace.specs.Traces as spec;

use crate::head::Head;
use crate::numbers::{number_behind, number_of};
use nob_frame::Version;
use nob_ids::Limits;
use nob_model_text::space_of;

// What a first line says: `None` where it spells none. It takes no memory.
pub fn head_of(line: &[u8]) -> Option<Head>
    ensures found { IfSome result (λ head. spec.IsHead head × (line.now ≡ spec.head_text head)) }
    ensures only { (head : HeadOf) → spec.IsHead head → line.now ≡ spec.head_text head
        → result ≡ Some head }
{
    let version = version_of(line);
    let Some((space, n, behind)) = spaces_at(version, line) else {
        return None;
    };
    let Some((window, retry, left)) = limits_at(behind) else {
        return None;
    };
    let Some(digits) = left.strip_prefix(b"entries ".as_slice()) else {
        return None;
    };
    let Some(count) = number_of(digits) else {
        return None;
    };
    head_from(version, space, n, window, retry, count)
}

// The version that a first line's word says: the first one where it says none.
fn version_of(line: &[u8]) -> Version
    ensures one { (rest : List ℕ) → line.now ≡ codes "trace " ++ rest → result ≡ One }
    ensures two { (rest : List ℕ) → line.now ≡ codes "trace2 " ++ rest → result ≡ Two }
{
    match line {
        [b't', b'r', b'a', b'c', b'e', b'2', ..] => Version::Two,
        _ => Version::One,
    }
}

// The word with which a first line of this version begins, and the space behind it.
fn head_word(version: Version) -> &'static [u8]
    ensures { result.now ≡ spec.head_word version }
{
    match version {
        Version::One => b"trace ",
        Version::Two => b"trace2 ",
    }
}

// The first line of these numbers: `None` where one is outside its range.
fn head_from(
    version: Version,
    space: u64,
    n: u64,
    window: u64,
    retry: u64,
    count: u64,
) -> Option<Head>
    ensures found { IfSome result (λ head. spec.IsHead head × (head.version ≡ version)
        × (head.space ≡ space) × (head.n ≡ n)
        × (head.limits.window ≡ window) × (head.limits.retry ≡ retry)
        × (head.count ≡ count)) }
    ensures only { (head : HeadOf) → spec.IsHead head → head.version ≡ version
        → head.space ≡ space → head.n ≡ n → head.limits.window ≡ window → head.limits.retry ≡ retry
        → head.count ≡ count
        → result ≡ Some head }
{
    let Some(space) = space_of(space) else {
        return None;
    };
    let Some(n) = space_of(n) else {
        return None;
    };
    match Limits::new(window, retry) {
        Some(limits) => Some(Head {
            version,
            space,
            n,
            limits,
            count,
        }),
        None => None,
    }
}

// The numbers of the space and of how many there are at the front of a first line, and what is
// left behind the space that follows.
fn spaces_at(version: Version, text: &[u8]) -> Option<(u64, u64, &[u8])>
    ensures found { IfSome result (λ parts. text.now ≡ spec.head_word version ++ (decimal parts.0 ++
        (codes " of " ++ (decimal parts.1 ++ 32 ∷ parts.2.now)))) }
    ensures only { (space n : ℕ) (rest : List ℕ) → space < 2 ^ 64 → n < 2 ^ 64
        → text.now
        ≡ spec.head_word version ++ (decimal space ++ (codes " of " ++ (decimal n ++ 32 ∷ rest)))
        → IsSomeAnd result (λ parts. (parts.0 ≡ space) × (parts.1 ≡ n) × (parts.2.now ≡ rest)) }
{
    let Some((space, behind)) = number_behind(text, head_word(version)) else {
        return None;
    };
    match number_behind(behind, b"of ".as_slice()) {
        Some((n, rest)) => Some((space, n, rest)),
        None => None,
    }
}

/// The numbers of the limits at the front of a text, and what is left behind the space that
/// follows: `None` where there are none. It takes no memory.
pub fn limits_at(text: &[u8]) -> Option<(u64, u64, &[u8])>
    ensures found { IfSome result (λ parts. text.now ≡ codes "window " ++ (decimal parts.0 ++
        (codes " retry " ++ (decimal parts.1 ++ 32 ∷ parts.2.now)))) }
    ensures only { (window retry : ℕ) (rest : List ℕ) → window < 2 ^ 64 → retry < 2 ^ 64
        → text.now
        ≡ codes "window " ++ (decimal window ++ (codes " retry " ++ (decimal retry ++ 32 ∷ rest)))
        → IsSomeAnd result (λ parts. (parts.0 ≡ window) × (parts.1 ≡ retry)
        × (parts.2.now ≡ rest)) }
{
    let Some((window, behind)) = number_behind(text, b"window ".as_slice()) else {
        return None;
    };
    match number_behind(behind, b"retry ".as_slice()) {
        Some((retry, rest)) => Some((window, retry, rest)),
        None => None,
    }
}
