//! Lines of seals to what they say.

ghost use Rattle.std.specs.Prelude.{◌≡◌, ◌∷◌, [], Some, Ok, IfOk};
ghost use Rattle.std.specs.String.{string_bytes};
ghost use Rattle.nob_chain.specs.declared.fault.ChainFault.TheVariants as faults;
ghost use Rattle.nob_chain.specs.declared.seal.Seal.{Seal as SealOf};
ghost use Rattle.nob_chain.specs.declared.segment.Segment.{Segment as SegmentOf};
ghost use Rattle.nob_chain.specs.Seals as seals;
ghost use Rattle.nob_chain.specs.Chains as chains;
ghost use Rattle.nob_chain.specs.Reading as reading;
ghost use Rattle.nob_lines.specs.Sealed as words;

use nob_chain::{Chain, ChainError, ChainFault, Seal, Segment, decode};
use nob_ids::{Limits, SpaceId};
use std::alloc::{AllocError, Global};

/// The seal of a chain of this space, of n, that a line spells, or R2. It is read as that of a chain
/// of one segment with one entry.
pub fn seal_of_line(
    alloc: Global,
    own: SpaceId,
    n: SpaceId,
    line: &[u8],
) -> Result<Seal, ChainError>
    ensures { reading.Answers (λ seal. seals.IsSeal own n seal × (line.now ≡ seals.seal_text seal))
        (λ fault. (fault ≡ faults.Entry)
        × ((seal : SealOf) → seals.IsSeal own n seal → line.now ≡ seals.seal_text seal → ⊥))
        result }
{
    let limits = Limits::default();
    let space = own.get();
    let last = n.get();
    let text = small_chain(alloc, space, last, limits, line)?;
    match decode(alloc, text.as_slice()) {
        Ok(chain) => only_seal(chain),
        Err(ChainError::Fault(_)) => Err(ChainError::Fault(ChainFault::Entry)),
        Err(ChainError::OutOfMemory) => Err(ChainError::OutOfMemory),
    }
}

// The text of a chain of one segment with one entry, behind which this line stands.
fn small_chain(
    alloc: Global,
    own: u16,
    n: u16,
    limits: Limits,
    line: &[u8],
) -> Result<Vec<u8>, AllocError>
    ensures { IfOk result (λ text. text.items ≡ words.small_text limits own n line.now) }
{
    let mut text = front_text(alloc, own, n, limits)?.into_bytes();
    text.extend_from_slice(line)?;
    text.push(b'\n')?;
    Ok(text)
}

// The lines of such a chain in front of its seal.
fn front_text(alloc: Global, own: u16, n: u16, limits: Limits) -> Result<String, AllocError>
    ensures { IfOk result (λ text. string_bytes text ≡ words.front_text limits own n) }
{
    let mut text = head_line(alloc, own, n, limits)?;
    let behind = segment_lines(alloc)?;
    text.push_str(behind.as_str())?;
    Ok(text)
}

// The first line of such a chain.
fn head_line(alloc: Global, own: u16, n: u16, limits: Limits) -> Result<String, AllocError>
    ensures { IfOk result (λ text. string_bytes text
        ≡ chains.head_text (words.small_head limits own n)) }
{
    let window = limits.window;
    let retry = limits.retry;
    let count = 1u64;
    format!(in alloc; "chain {own} of {n} window {window} retry {retry} segments {count}")
}

// The lines of its segment in front of the seal, behind the newline of the first line.
fn segment_lines(alloc: Global) -> Result<String, AllocError>
    ensures { IfOk result (λ text. string_bytes text ≡ words.segment_front) }
{
    let one = 1u64;
    format!(in alloc; "\nsegment {one} entries {one}\n{one} claim = S10\n")
}

// The seal of a chain of one segment, or R2 where there is none.
fn only_seal(chain: Chain) -> Result<Seal, ChainError>
    ensures { (segment : SegmentOf) (seal : SealOf) → chain.segments ≡ segment ∷ []
        → segment.seal ≡ Some seal → result ≡ Ok seal }
{
    let mut segments = chain.into_parts().segments.into_vec();
    let Some(last) = segments.pop() else {
        return Err(ChainError::Fault(ChainFault::Entry));
    };
    let Segment { entries: _, seal } = last;
    match seal {
        Some(seal) => Ok(seal),
        None => Err(ChainError::Fault(ChainFault::Entry)),
    }
}
