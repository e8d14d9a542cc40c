//! Decimal numbers.

ghost use Rattle.std.specs.Prelude.{◌≡◌, ◌<◌, ◌^◌, ℕ, Some, IfOk, IfSome};
ghost use Rattle.std.specs.Fmt.{decimal};

use std::alloc::{AllocError, Global};

/// The number that a text spells, in decimal digits without leading zeros: `None` where it spells
/// none below 2^64. Only memory fails it.
pub fn number_of(alloc: Global, text: &[u8]) -> Result<Option<u64>, AllocError>
    ensures found { IfOk result (λ r. IfSome r (λ n. text.now ≡ decimal n)) }
    ensures only { IfOk result (λ r. (n : ℕ) → n < 2 ^ 64 → text.now ≡ decimal n → r ≡ Some n) }
{
    let Some(number) = parsed(text) else {
        return Ok(None);
    };
    let spelling = format!(in alloc; "{number}")?;
    if spelling.as_bytes() != text {
        return Ok(None);
    }
    Ok(Some(number))
}

// The number that a text spells, perhaps in another way too.
fn parsed(text: &[u8]) -> Option<u64>
    ensures { (n : ℕ) → n < 2 ^ 64 → text.now ≡ decimal n → result ≡ Some n }
{
    let Ok(digits) = str::from_utf8(text) else {
        return None;
    };
    match digits.parse::<u64>() {
        Ok(number) => Some(number),
        Err(_) => None,
    }
}
