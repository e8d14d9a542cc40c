//! Numbers in lines of chains.

ghost use Rattle.std.specs.Prelude.{◌≡◌, ◌++◌, ◌<◌, ◌^◌, ℕ, List, IfOk};
ghost use Rattle.std.specs.Fmt.{decimal};
ghost use Rattle.nob_model_text.specs.Fronts.{Stops};
ghost use Rattle.nob_model_text.specs.Reading.{Reads};

use nob_model_reading::after;
use nob_model_text::{Unread, number_at};
use std::alloc::Global;

// The number behind a word at the front of a text, and what is left.
pub fn number_after<'a>(
    alloc: Global,
    text: &'a [u8],
    word: &[u8],
) -> Result<(u64, &'a [u8]), Unread>
    ensures found { IfOk result (λ parts. text.now ≡ word.now ++ (decimal parts.0 ++ parts.1.now)) }
    ensures only { (n : ℕ) (rest : List ℕ) → n < 2 ^ 64 → Stops rest
        → text.now ≡ word.now ++ (decimal n ++ rest)
        → Reads (λ parts. (parts.0 ≡ n) × (parts.1.now ≡ rest)) result }
{
    number_at(alloc, after(text, word)?)
}
