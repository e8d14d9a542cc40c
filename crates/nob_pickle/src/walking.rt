//! What stands in a value, however deep: found without recursion.

ghost use Rattle.std.specs.Prelude.{◌≡◌, ◌∷◌, [], IfOk, MatchOption};
ghost use Rattle.nob_pickle.specs.Shape.{tree, forest};
ghost use Rattle.nob_pickle.specs.Spelling.{refs_in};
ghost use Rattle.nob_pickle.specs.Parts.{parts, all_parts, parts_ahead};
ghost use Rattle.nob_pickle.specs.Trees.{elements_of};

use crate::value::Value;
use nob_ids::WireRep;
use std::alloc::{AllocError, Global};
use std::slice;

/// The references in a value, in reading order, repeats included. It answers for every value,
/// however deep or long, in time linear in the value, and doesn't recurse. Only memory fails it.
#[tactic(auto, using(crate::proofs::Parts::refs_among_parts))]
pub fn refs_of(alloc: Global, value: &Value) -> Result<Vec<WireRep>, AllocError>
    ensures { IfOk result (λ refs. refs.items ≡ refs_in value.now) }
{
    let mut refs = Vec::new(alloc);
    let mut ahead = whole(alloc, value)?;
    while let Some(part) = next_part(&mut ahead)? {
        if let Value::Ref(rep) = part {
            refs.push(*rep)?;
        }
    }
    Ok(refs)
}

/// What a walk over the value has ahead of it at first.
fn whole<'a>(alloc: Global, value: &'a Value) -> Result<Vec<&'a [Value]>, AllocError>
    ensures { IfOk result (λ ahead. parts_ahead ahead.items ≡ parts (tree value.now)) }
{
    let mut ahead = Vec::new(alloc);
    ahead.push(slice::from_ref(value))?;
    Ok(ahead)
}

/// The next part of what a walk has ahead of it: slices of values, the next one last. The part's
/// elements are ahead of the walk from then on.
fn next_part<'a>(ahead: &mut Vec<&'a [Value]>) -> Result<Option<&'a Value>, AllocError>
    ensures { IfOk result (λ part. MatchOption part (parts_ahead ahead.old.items ≡ [])
        (λ value. parts_ahead ahead.old.items ≡ tree value.now ∷ parts_ahead ahead.new.items)) }
{
    while let Some(values) = ahead.pop() {
        if let Some((first, rest)) = values.split_first() {
            ahead.push(rest)?;
            ahead.push(elements(first))?;
            return Ok(Some(first));
        }
    }
    Ok(None)
}

/// The elements of a list; none of another value.
pub(crate) fn elements(value: &Value) -> &[Value]
    ensures inside { forest result.now ≡ elements_of (tree value.now) }
    ensures parts { parts (tree value.now) ≡ tree value.now ∷ all_parts (forest result.now) }
{
    match value {
        Value::List(inner) => inner.as_slice(),
        Value::Unit | Value::Int(_) | Value::Bytes(_) | Value::Ref(_) => &[],
    }
}
