//! Walking over a pickle without making its value. Nothing here takes memory.

ghost use Rattle.std.specs.Prelude.{◌≡◌, ◌≤◌, IfSome};
ghost use Rattle.std.specs.Option.{option_map};
ghost use Rattle.nob_pickle.specs.Reading.{int_at, bytes_at, ref_at, list_at, trees_at, tree_by, tree_at, value_read};
ghost use Rattle.nob_peek.specs.Walking.{behind, references_read};

use nob_bytes::{take_u16, take_u32, take_u64};
use nob_ids::SpaceId;

// The limits of a pickle.
const MOST_LEVELS: u32 = 16;

const MOST_BYTES: usize = 8192;

const MOST_ELEMENTS: usize = 256;

const MOST_REFERENCES: u32 = 32;

const MOST_IN_ALL: usize = 16_000;

/// What is left of a pickle: its bytes, and how many references may still come.
#[derive(Clone, Copy, Drop)]
struct Rest<'a> {
    bytes: &'a [u8],
    references: u32,
}

/// How many references the value has that all of the bytes spell, repeats included: none where they
/// spell no value. Linear in the bytes; it recurses once for each of at most 16 levels.
#[tactic(auto, unfolding(nob_pickle::specs::Reading::value_read))]
pub(crate) fn references_in(bytes: &[u8]) -> Option<u32>
    ensures { result ≡ references_read (value_read bytes.now) }
{
    if bytes.len() > MOST_IN_ALL {
        return None;
    }
    let rest = Rest {
        bytes,
        references: MOST_REFERENCES,
    };
    let Some(rest) = pass(MOST_LEVELS, rest) else {
        return None;
    };
    if !rest.bytes.is_empty() {
        return None;
    }
    Some(MOST_REFERENCES - rest.references)
}

// Passes the value that stands in front, which may have so many levels.
#[cycle(walking)]
#[tactic(auto, using(nob_pickle::proofs::Loop::tree_at_none, nob_pickle::proofs::Loop::tree_at_some))]
fn pass<'a>(levels: u32, rest: Rest<'a>) -> Option<Rest<'a>>
    ensures { option_map (λ x. (x.references, x.bytes.now)) result
        ≡ behind (tree_at levels rest.entry.references rest.entry.bytes.now) }
{
    if levels == 0 {
        return None;
    }
    pass_by(levels - 1, rest)
}

// The same by its first byte. Its elements may have so many levels.
#[cycle(walking)]
#[tactic(auto, unfolding(nob_pickle::specs::Reading::tree_by))]
fn pass_by<'a>(levels: u32, rest: Rest<'a>) -> Option<Rest<'a>>
    ensures { option_map (λ x. (x.references, x.bytes.now)) result
        ≡ behind (tree_by (tree_at levels) rest.entry.references rest.entry.bytes.now) }
{
    let [first, bytes @ ..] = rest.bytes else {
        return None;
    };
    let rest = Rest {
        bytes,
        references: rest.references,
    };
    match *first {
        0 => Some(rest),
        1 => pass_int(rest),
        2 => pass_bytes(rest),
        3 => pass_list(levels, rest),
        4 => pass_reference(rest),
        _ => None,
    }
}

// Passes a list, behind its first byte.
#[cycle(walking)]
#[tactic(auto, unfolding(nob_pickle::specs::Reading::list_at))]
fn pass_list<'a>(levels: u32, rest: Rest<'a>) -> Option<Rest<'a>>
    ensures { option_map (λ x. (x.references, x.bytes.now)) result
        ≡ behind (list_at (tree_at levels) rest.entry.references rest.entry.bytes.now) }
{
    let Ok((count, bytes)) = take_u16(rest.bytes, ()) else {
        return None;
    };
    if count as usize > MOST_ELEMENTS {
        return None;
    }
    let rest = Rest {
        bytes,
        references: rest.references,
    };
    pass_all(levels, count, rest)
}

// Passes so many values, one after another.
#[cycle(walking)]
fn pass_all<'a>(levels: u32, count: u16, rest: Rest<'a>) -> Option<Rest<'a>>
    ensures { option_map (λ x. (x.references, x.bytes.now)) result
        ≡ behind (trees_at (tree_at levels) count rest.entry.references rest.entry.bytes.now) }
{
    let mut rest = rest;
    for _ in 0..count {
        let Some(after) = pass(levels, rest) else {
            return None;
        };
        rest = after;
    }
    Some(rest)
}

// Passes a whole number, behind its first byte.
#[tactic(auto, unfolding(nob_pickle::specs::Reading::int_at))]
fn pass_int<'a>(rest: Rest<'a>) -> Option<Rest<'a>>
    ensures { option_map (λ x. (x.references, x.bytes.now)) result
        ≡ behind (int_at rest.entry.references rest.entry.bytes.now) }
{
    let Ok((_number, bytes)) = take_u64(rest.bytes, ()) else {
        return None;
    };
    Some(Rest {
        bytes,
        references: rest.references,
    })
}

// Passes bytes, behind their first byte.
#[tactic(auto, unfolding(nob_pickle::specs::Reading::bytes_at))]
fn pass_bytes<'a>(rest: Rest<'a>) -> Option<Rest<'a>>
    ensures { option_map (λ x. (x.references, x.bytes.now)) result
        ≡ behind (bytes_at rest.entry.references rest.entry.bytes.now) }
{
    let Ok((len, bytes)) = take_u32(rest.bytes, ()) else {
        return None;
    };
    let len = len as usize;
    if len > MOST_BYTES {
        return None;
    }
    if bytes.len() < len {
        return None;
    }
    Some(Rest {
        bytes: bytes.split_at(len).1,
        references: rest.references,
    })
}

// Passes a reference, behind its first byte.
#[tactic(auto, unfolding(nob_pickle::specs::Reading::ref_at))]
fn pass_reference<'a>(rest: Rest<'a>) -> Option<Rest<'a>>
    ensures { option_map (λ x. (x.references, x.bytes.now)) result
        ≡ behind (ref_at rest.entry.references rest.entry.bytes.now) }
{
    let Ok((owner, bytes)) = take_u16(rest.bytes, ()) else {
        return None;
    };
    let Ok((_index, bytes)) = take_u64(bytes, ()) else {
        return None;
    };
    if SpaceId::new(owner).is_none() {
        return None;
    }
    if rest.references == 0 {
        return None;
    }
    Some(Rest {
        bytes,
        references: rest.references - 1,
    })
}
