//! A look at the counted references of a value, without memory.

ghost use Rattle.std.specs.Prelude.{◌≡◌, ◌+◌, length, slice_get, Some, filter, MatchResult};
ghost use Rattle.nob_ids.specs.Names.{is_counted};
ghost use Rattle.nob_pickle.specs.Shape.{tree, forest};
ghost use Rattle.nob_pickle.specs.Spelling.{refs, all_refs, refs_in};

use crate::value::Value;
use nob_ids::WireRep;

/// The counted reference of the value before which so many others stand, in reading order, repeats
/// included: None where there aren't more. So the numbers from 0 on give all of them, up to the
/// first None. It takes no memory and time linear in the value, and recurses once for each level of
/// the value: at most 16 where it has a pickle.
pub fn counted_ref(value: &Value, number: usize) -> Option<WireRep>
    ensures { result ≡ slice_get (filter is_counted (refs_in value.now)) number }
{
    look(value, number).ok()
}

/// The same: where there aren't more, how many are missing before this one.
#[cycle(looking)]
fn look(value: &Value, number: usize) -> Result<WireRep, usize>
    ensures { MatchResult result (λ rep.
        slice_get (filter is_counted (refs (tree value.now))) number ≡ Some rep)
        (λ missing. missing + length (filter is_counted (refs (tree value.now))) ≡ number) }
{
    match value {
        Value::Ref(rep) if rep.is_counted() => number.checked_sub(1).map_or(Ok(*rep), Err),
        Value::List(values) => look_among(values.as_slice(), number),
        Value::Unit | Value::Int(_) | Value::Bytes(_) | Value::Ref(_) => Err(number),
    }
}

/// The same among values, one after another.
#[cycle(looking)]
fn look_among(values: &[Value], number: usize) -> Result<WireRep, usize>
    ensures { MatchResult result (λ rep.
        slice_get (filter is_counted (all_refs (forest values.now))) number ≡ Some rep)
        (λ missing. missing + length (filter is_counted (all_refs (forest values.now))) ≡ number) }
{
    let mut missing = number;
    for value in values {
        match look(value, missing) {
            Ok(rep) => return Ok(rep),
            Err(after) => missing = after,
        }
    }
    Err(missing)
}
