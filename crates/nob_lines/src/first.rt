//! First lines to what they say, without memory.

ghost use Rattle.std.specs.Prelude.{◌≡◌, ◌++◌, ◌∷◌, ◌<◌, ◌^◌, ℕ, List, Some, true, false, IfSome, IsSomeAnd, codes};
ghost use Rattle.std.specs.Fmt.{decimal};
ghost use Rattle.nob_frame.specs.declared.version.Version.TheVariants.{One, Two};
ghost use Rattle.nob_trace.specs.Traces as traces;
ghost use Rattle.nob_chain.specs.declared.head.ChainHead.{ChainHead as HeadOf};
ghost use Rattle.nob_chain.specs.Chains as chains;
ghost use Rattle.nob_chain.specs.Inputs.{BeginsAsChain};
ghost use Rattle.nob_lines.specs.declared.first.FirstLine.{FirstLine as FirstOf};
ghost use Rattle.nob_lines.specs.declared.first.FirstLine.TheVariants.{OfChain, OfTrace};
ghost use Rattle.nob_lines.specs.Steps as words;

use nob_chain::ChainHead;
use nob_frame::Version;
use nob_ids::{Limits, SpaceId};
use nob_model_text::space_of;
use nob_trace::{Head, limits_at, number_behind, number_of};

/// The first line of a chain, or of a trace of either version.
#[derive(Clone, Copy, Debug)]
pub enum FirstLine {
    /// That of a chain.
    OfChain(ChainHead),
    /// That of a trace.
    OfTrace(Head),
}

impl FirstLine {
    /// The space whose entries follow.
    pub fn space(&self) -> SpaceId
        ensures { result ≡ words.space_of self.now }
    {
        match self {
            FirstLine::OfChain(head) => head.space,
            FirstLine::OfTrace(head) => head.space,
        }
    }

    /// How many spaces there are, named by the last of them.
    pub fn n(&self) -> SpaceId
        ensures { result ≡ words.n_of self.now }
    {
        match self {
            FirstLine::OfChain(head) => head.n,
            FirstLine::OfTrace(head) => head.n,
        }
    }

    /// The limits of the space's sessions.
    pub fn limits(&self) -> Limits
        ensures { result ≡ words.limits_of self.now }
    {
        match self {
            FirstLine::OfChain(head) => head.limits,
            FirstLine::OfTrace(head) => head.limits,
        }
    }

    /// The version of the frames in the lines that follow.
    pub fn version(&self) -> Version
        ensures { result ≡ words.version_of self.now }
    {
        match self {
            FirstLine::OfChain(_) => Version::Two,
            FirstLine::OfTrace(head) => head.version,
        }
    }
}

/// What a first line says, without its newline: `None` where it begins neither a chain nor a trace.
/// It takes no memory.
pub fn first_of(line: &[u8]) -> Option<FirstLine>
    ensures found { IfSome result (λ first. words.IsFirst first
        × (line.now ≡ words.first_text first)) }
    ensures only { (first : FirstOf) → words.IsFirst first → line.now ≡ words.first_text first
        → result ≡ Some first }
{
    if begins_as_chain(line) {
        return chain_first(line);
    }
    trace_first(version_in(line), line)
}

// Whether a line begins as chains do.
fn begins_as_chain(line: &[u8]) -> bool
    ensures yes { result ≡ true → BeginsAsChain line.now }
    ensures no { result ≡ false → BeginsAsChain line.now → ⊥ }
{
    match line {
        [b'c', b'h', b'a', b'i', b'n', b' ', ..] => true,
        _ => false,
    }
}

// The version that the word of a trace says: the first one where it says none.
fn version_in(line: &[u8]) -> Version
    ensures one { (rest : List ℕ) → line.now ≡ codes "trace " ++ rest → result ≡ One }
    ensures two { (rest : List ℕ) → line.now ≡ codes "trace2 " ++ rest → result ≡ Two }
{
    match line {
        [b't', b'r', b'a', b'c', b'e', b'2', ..] => Version::Two,
        _ => Version::One,
    }
}

// The first line of a chain.
fn chain_first(line: &[u8]) -> Option<FirstLine>
    ensures found { IfSome result (λ first. words.IsFirst first
        × (line.now ≡ words.first_text first)) }
    ensures only { (head : HeadOf) → chains.IsHead head → line.now ≡ chains.head_text head
        → result ≡ Some (OfChain head) }
{
    match chain_head(line) {
        Some(head) => Some(FirstLine::OfChain(head)),
        None => None,
    }
}

// What the first line of a chain says.
fn chain_head(line: &[u8]) -> Option<ChainHead>
    ensures found { IfSome result (λ head. chains.IsHead head
        × (line.now ≡ chains.head_text head)) }
    ensures only { (head : HeadOf) → chains.IsHead head → line.now ≡ chains.head_text head
        → result ≡ Some head }
{
    let Some((space, n, behind)) = spaces_in(line, b"chain ".as_slice()) else {
        return None;
    };
    let Some((window, retry, left)) = limits_at(behind) else {
        return None;
    };
    let Some(digits) = left.strip_prefix(b"segments ".as_slice()) else {
        return None;
    };
    let Some(count) = number_of(digits) else {
        return None;
    };
    head_from(space, n, window, retry, count)
}

// The word with which a trace of this version begins, and the space behind it.
fn trace_word(version: Version) -> &'static [u8]
    ensures { result.now ≡ traces.head_word version }
{
    match version {
        Version::One => b"trace ",
        Version::Two => b"trace2 ",
    }
}

// The first line of a trace of this version with these numbers.
fn traced(version: Version, head: &ChainHead) -> FirstLine
    ensures { result ≡ OfTrace (words.traced version head.now) }
{
    FirstLine::OfTrace(Head {
        version,
        space: head.space,
        n: head.n,
        limits: head.limits,
        count: head.count,
    })
}

// The first line of a trace of this version.
fn trace_first(version: Version, line: &[u8]) -> Option<FirstLine>
    ensures found { IfSome result (λ first. words.IsFirst first
        × (line.now ≡ words.first_text first)) }
    ensures only { (head : HeadOf) → chains.IsHead head
        → line.now ≡ traces.head_text (words.traced version head)
        → result ≡ Some (OfTrace (words.traced version head)) }
{
    match trace_head(version, line) {
        Some(head) => Some(traced(version, &head)),
        None => None,
    }
}

// What the first line of a trace of this version says.
fn trace_head(version: Version, line: &[u8]) -> Option<ChainHead>
    ensures found { IfSome result (λ head. chains.IsHead head
        × (line.now ≡ traces.head_text (words.traced version head))) }
    ensures only { (head : HeadOf) → chains.IsHead head
        → line.now ≡ traces.head_text (words.traced version head) → result ≡ Some head }
{
    let Some((space, n, behind)) = spaces_in(line, trace_word(version)) else {
        return None;
    };
    let Some((window, retry, left)) = limits_at(behind) else {
        return None;
    };
    let Some(digits) = left.strip_prefix(b"entries ".as_slice()) else {
        return None;
    };
    let Some(count) = number_of(digits) else {
        return None;
    };
    head_from(space, n, window, retry, count)
}

// The first line of these numbers: `None` where one is outside its range.
fn head_from(space: u64, n: u64, window: u64, retry: u64, count: u64) -> Option<ChainHead>
    ensures found { IfSome result (λ head. chains.IsHead head
        × (head.space ≡ space) × (head.n ≡ n)
        × (head.limits.window ≡ window) × (head.limits.retry ≡ retry)
        × (head.count ≡ count)) }
    ensures only { (head : HeadOf) → chains.IsHead head
        → head.space ≡ space → head.n ≡ n → head.limits.window ≡ window → head.limits.retry ≡ retry
        → head.count ≡ count
        → result ≡ Some head }
{
    let Some(space) = space_of(space) else {
        return None;
    };
    let Some(n) = space_of(n) else {
        return None;
    };
    match Limits::new(window, retry) {
        Some(limits) => Some(ChainHead {
            space,
            n,
            limits,
            count,
        }),
        None => None,
    }
}

// The numbers of the space and of how many there are behind a word at the front of a first line, and
// what is left behind the space that follows.
fn spaces_in<'a>(text: &'a [u8], word: &[u8]) -> Option<(u64, u64, &'a [u8])>
    ensures found { IfSome result (λ parts. text.now ≡ word.now ++ (decimal parts.0 ++
        (codes " of " ++ (decimal parts.1 ++ 32 ∷ parts.2.now)))) }
    ensures only { (space n : ℕ) (rest : List ℕ) → space < 2 ^ 64 → n < 2 ^ 64
        → text.now ≡ word.now ++ (decimal space ++ (codes " of " ++ (decimal n ++ 32 ∷ rest)))
        → IsSomeAnd result (λ parts. (parts.0 ≡ space) × (parts.1 ≡ n) × (parts.2.now ≡ rest)) }
{
    let Some((space, behind)) = number_behind(text, word) else {
        return None;
    };
    match number_behind(behind, b"of ".as_slice()) {
        Some((n, rest)) => Some((space, n, rest)),
        None => None,
    }
}
