//! Texts as shapes have them.

ghost use Rattle.std.specs.Prelude.{◌≡◌, IfOk};
ghost use Rattle.std.specs.String.{string_bytes};
ghost use Rattle.std.specs.Fmt.{decimal};
ghost use Rattle.nob_drawing.specs.Words as spec;

use nob_bytes::Bytes;
use std::alloc::{AllocError, Global};

// A text.
pub(crate) fn label(text: String) -> Bytes
    ensures { result ≡ string_bytes text }
{
    Bytes::from_vec(text.into_bytes())
}

// Bytes, cut where they are more than this.
pub(crate) fn cut_bytes(alloc: Global, most: usize, words: Vec<u8>) -> Result<Bytes, AllocError>
    ensures { IfOk result (λ label. label ≡ spec.cut most words.items) }
{
    if words.len() <= most {
        return Ok(Bytes::from_vec(words));
    }
    let mut short = words.as_slice().split_at(most).0.to_vec(alloc)?;
    short.extend_from_slice(b"..")?;
    Ok(Bytes::from_vec(short))
}

// A text, cut where it is longer than this.
pub(crate) fn cut_label(alloc: Global, most: usize, text: String) -> Result<Bytes, AllocError>
    ensures { IfOk result (λ label. label ≡ spec.cut most (string_bytes text)) }
{
    cut_bytes(alloc, most, text.into_bytes())
}

// A number.
pub(crate) fn number_label(alloc: Global, number: usize) -> Result<Bytes, AllocError>
    ensures { IfOk result (λ label. label ≡ decimal number) }
{
    let text = format!(in alloc; "{number}")?;
    Ok(label(text))
}
