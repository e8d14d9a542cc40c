//! Whether a value has a pickle, judged without memory.

ghost use Rattle.std.specs.Prelude.{◌≡◌, ◌↔◌, ◌+◌, ◌<◌, ◌≤◌, length, Ok, Err, IsOk, OnOk, IfOk, IfErr, MatchOption, MatchResult, if◌then◌else◌, ◌==◌, ◌-◌};
ghost use Rattle.nob_pickle.specs.Shape.{tree, forest};
ghost use Rattle.nob_pickle.specs.Trees.{ref};
ghost use Rattle.nob_pickle.specs.Spelling.{spelling, spelled_all, head_length};
ghost use Rattle.nob_pickle.specs.Limits.{Fits, IsTyped, AreTyped};
ghost use Rattle.nob_pickle.specs.Writing.{references_left, list_left, left_after_all, pickle_of};

use crate::fault::PickleFault;
use crate::limits::{MOST_BYTES, MOST_ELEMENTS, MOST_IN_ALL, MOST_LEVELS, MOST_REFERENCES};
use crate::value::Value;
use crate::walking::elements;
use nob_ids::WireRep;

/// Whether the value has a pickle, or why it has none: P8 where the pickle would have more than
/// 16,000 bytes; else the first fault in writing order: P5 for a value at depth 17, P3 and P4 for
/// bytes or a list above their limit, P8 for the 33rd reference. It takes no memory, looks at no
/// more than about 16,000 values, and recurses at most 5,334 levels deep, however deep or long the
/// value is: each level has three bytes of the 16,000 at least.
pub fn fits(value: &Value) -> Result<(), PickleFault>
    ensures fits { IsOk result ↔ Fits value.now }
    ensures fault { IfErr result (λ fault. pickle_of value.now ≡ Err fault) }
{
    match pickle_len(value) {
        Ok(_len) => Ok(()),
        Err(fault) => Err(fault),
    }
}

/// How many bytes the pickle of the value has, or the first reason against it.
pub(crate) fn pickle_len(value: &Value) -> Result<usize, PickleFault>
    ensures len { IfOk result (λ len. len ≡ length (spelling value.now)) }
    ensures fits { OnOk result (Fits value.now) }
    ensures fault { IfErr result (λ fault. pickle_of value.now ≡ Err fault) }
{
    judged(value)
}

/// The same, by its steps.
#[tactic(auto, unfolding(crate::specs::Writing::pickle_of))]
fn judged(value: &Value) -> Result<usize, PickleFault>
    ensures len { IfOk result (λ len. len ≡ length (spelling value.now)) }
    ensures exact { MatchResult result (λ len. pickle_of value.now ≡ Ok (spelling value.now))
        (λ fault. pickle_of value.now ≡ Err fault) }
    ensures typed { OnOk result (IsTyped (tree value.now)) }
{
    let Some(left) = room_after(value, MOST_IN_ALL) else {
        return Err(PickleFault::TooBig);
    };
    judge(value, MOST_LEVELS, MOST_REFERENCES)?;
    Ok(MOST_IN_ALL - left)
}

/// What is left of so much room behind the spelling of the value: None where the spelling is
/// longer.
#[tactic(auto, using(crate::proofs::Ahead::head_and_elements))]
fn room_after(value: &Value, room: usize) -> Option<usize>
    ensures { MatchOption result (room < length (spelling value.now))
        (λ left. left + length (spelling value.now) ≡ room) }
{
    let mut left = room.checked_sub(head_len(value))?;
    for element in elements(value) {
        left = room_after(element, left)?;
    }
    Some(left)
}

/// How many bytes the value's spelling has, those of its elements aside.
fn head_len(value: &Value) -> usize
    ensures { result ≡ head_length (tree value.now) }
{
    match value {
        Value::Unit => 1,
        Value::Int(_) => 9,
        Value::Bytes(bytes) => 5 + bytes.as_slice().len(),
        Value::List(_) => 3,
        Value::Ref(_) => 11,
    }
}

/// Judges a value that may have so many levels and references: how many references are left after
/// it, or the first fault in writing order.
#[cycle(judging)]
fn judge(value: &Value, levels: u32, references: u32) -> Result<u32, PickleFault>
    ensures left { result ≡ references_left (tree value.now) levels references }
    ensures typed { OnOk result (IsTyped (tree value.now)) }
{
    if levels == 0 {
        return Err(PickleFault::Depth);
    }
    match value {
        Value::Unit => Ok(references),
        Value::Int(number) => {
            let _in_range = *number;
            Ok(references)
        }
        Value::Bytes(bytes) => {
            if bytes.as_slice().len() > MOST_BYTES {
                return Err(PickleFault::Bytes);
            }
            Ok(references)
        }
        Value::List(values) => judge_list(values.as_slice(), levels - 1, references),
        Value::Ref(rep) => judge_reference(*rep, references),
    }
}

/// The same of a list: its count, and its elements.
#[cycle(judging)]
#[tactic(auto, using(crate::proofs::Forests::count_forest))]
fn judge_list(values: &[Value], levels: u32, references: u32) -> Result<u32, PickleFault>
    ensures left { result ≡ list_left (forest values.now) levels references }
    ensures typed { OnOk result (AreTyped (forest values.now)) }
{
    if values.len() > MOST_ELEMENTS {
        return Err(PickleFault::Count);
    }
    judge_all(values, levels, references)
}

/// The same of values, one after another.
#[cycle(judging)]
fn judge_all(values: &[Value], levels: u32, references: u32) -> Result<u32, PickleFault>
    ensures left { result ≡ left_after_all (forest values.now) levels references }
    ensures typed { OnOk result (AreTyped (forest values.now)) }
{
    let mut left = references;
    for value in values {
        left = judge(value, levels, left)?;
    }
    Ok(left)
}

/// The same of a reference.
fn judge_reference(rep: WireRep, references: u32) -> Result<u32, PickleFault>
    ensures left { result ≡ (if references == 0 then Err PickleFault.TooBig else Ok
        (references - 1)) }
    ensures typed { OnOk result (IsTyped (ref rep)) }
{
    let _in_range = rep.owner.get();
    let Some(left) = references.checked_sub(1) else {
        return Err(PickleFault::TooBig);
    };
    Ok(left)
}
