//! Bytes in hexadecimal.

ghost use Rattle.std.specs.Prelude.{◌≡◌, ◌<◌, ℕ, List, Some, IfOk, IfSome, IsTrue, ◌↔◌, slice_index};
ghost use Rattle.nob_model_text.specs.Bytes.{IsSomeOf};
ghost use Rattle.hex.specs.Hex.{encode_lower, IsBytes};

use hex::FromHexError;
use std::alloc::{AllocError, Global};

/// The bytes that a text spells, two lower case hexadecimal digits each: `None` where it spells
/// none. Only memory fails it.
pub fn bytes_of(alloc: Global, text: &[u8]) -> Result<Option<Vec<u8>>, AllocError>
    ensures found { IfOk result (λ r. IfSome r (λ bytes. text.now ≡ encode_lower bytes.items)) }
    ensures only { IfOk result (λ r. (bytes : List ℕ) → IsBytes bytes
        → text.now ≡ encode_lower bytes → IsSomeOf r bytes) }
    ensures bytes { IfOk result (λ r. IfSome r (λ bytes. IsBytes bytes.items)) }
{
    let Some(bytes) = decoded(alloc, text)? else {
        return Ok(None);
    };
    if !is_spelling(alloc, &bytes, text)? {
        return Ok(None);
    }
    Ok(Some(bytes))
}

// Whether a text is the spelling of these bytes.
fn is_spelling(alloc: Global, bytes: &[u8], text: &[u8]) -> Result<bool, AllocError>
    ensures spells { IfOk result (λ b. IsTrue b ↔ (text.now ≡ encode_lower bytes.now)) }
    ensures bytes { IsBytes bytes.now }
{
    let spelling = hex::encode(alloc, bytes)?;
    Ok(spelling.as_bytes() == text)
}

// The bytes that a text spells, perhaps in upper case.
fn decoded(alloc: Global, text: &[u8]) -> Result<Option<Vec<u8>>, AllocError>
    ensures { IfOk result (λ r. (bytes : List ℕ) → IsBytes bytes → text.now ≡ encode_lower bytes
        → IsSomeOf r bytes) }
{
    match hex::decode(alloc, text) {
        Ok(bytes) => Ok(Some(bytes)),
        Err(e) => match e {
            FromHexError::OutOfMemory => Err(AllocError),
            FromHexError::InvalidHexCharacter { .. } => Ok(None),
            FromHexError::OddLength => Ok(None),
            FromHexError::InvalidStringLength => Ok(None),
        },
    }
}
