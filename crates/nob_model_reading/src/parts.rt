//! Texts to what an event or an answer is about: one number, one space, one reference.

ghost use Rattle.std.specs.Prelude.{◌≡◌, ◌++◌, ◌∷◌, ◌<◌, ◌^◌, ℕ, List, IfOk};
ghost use Rattle.std.specs.Fmt.{decimal};
ghost use Rattle.nob_ids.specs.Names.{IsSpace};
ghost use Rattle.nob_ids.specs.declared.wire_rep.WireRep.{WireRep as RepOf};
ghost use Rattle.nob_model_text.specs.Reading.{Reads};
ghost use Rattle.nob_model_text.specs.Values.{rep_text};
ghost use Rattle.nob_model_text.specs.Events.{IsRep};

use nob_ids::{SpaceId, WireRep};
use nob_model_text::{Unread, number_of, rep_numbers_at, rep_of, space_of};
use std::alloc::Global;

/// The number that a text spells.
pub fn whole_number(alloc: Global, text: &[u8]) -> Result<u64, Unread>
    ensures found { IfOk result (λ n. (n < 2 ^ 64) × (text.now ≡ decimal n)) }
    ensures only { (n : ℕ) → n < 2 ^ 64 → text.now ≡ decimal n → Reads (λ m. m ≡ n) result }
{
    match number_of(alloc, text)? {
        Some(number) => Ok(number),
        None => Err(Unread::NoText),
    }
}

/// The space that a text spells.
pub fn whole_space(alloc: Global, text: &[u8]) -> Result<SpaceId, Unread>
    ensures found { IfOk result (λ space. IsSpace space × (text.now ≡ decimal space)) }
    ensures only { (space : ℕ) → IsSpace space → text.now ≡ decimal space
        → Reads (λ s. s ≡ space) result }
{
    let number = whole_number(alloc, text)?;
    match space_of(number) {
        Some(space) => Ok(space),
        None => Err(Unread::NoText),
    }
}

// The reference that a text spells.
pub fn whole_rep(alloc: Global, text: &[u8]) -> Result<WireRep, Unread>
    ensures found { IfOk result (λ rep. IsRep rep × (text.now ≡ rep_text rep)) }
    ensures only { (rep : RepOf) → IsRep rep → text.now ≡ rep_text rep
        → Reads (λ r. (r.owner ≡ rep.owner) × (r.index ≡ rep.index)) result }
{
    let (owner, index, rest) = rep_numbers_at(alloc, text)?;
    if !rest.is_empty() {
        return Err(Unread::NoText);
    }
    match rep_of(owner, index) {
        Some(rep) => Ok(rep),
        None => Err(Unread::NoText),
    }
}

/// What follows the space with which a text begins.
pub fn after_space(text: &[u8]) -> Result<&[u8], Unread>
    ensures found { IfOk result (λ rest. text.now ≡ 32 ∷ rest.now) }
    ensures only { (rest : List ℕ) → text.now ≡ 32 ∷ rest → Reads (λ r. r.now ≡ rest) result }
{
    match text {
        [b' ', rest @ ..] => Ok(rest),
        _ => Err(Unread::NoText),
    }
}

/// What follows a word with which a text begins.
pub fn after<'a>(text: &'a [u8], word: &[u8]) -> Result<&'a [u8], Unread>
    ensures found { IfOk result (λ rest. text.now ≡ word.now ++ rest.now) }
    ensures only { (rest : List ℕ) → text.now ≡ word.now ++ rest
        → Reads (λ r. r.now ≡ rest) result }
{
    match text.strip_prefix(word) {
        Some(rest) => Ok(rest),
        None => Err(Unread::NoText),
    }
}
