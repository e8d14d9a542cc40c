//! Choices, each by the next words of a row.

ghost use Rattle.std.specs.Prelude.{◌≡◌, ◌∷◌, [], IfOk, OnOk};
ghost use Rattle.nob_pickle.specs.Shape.{forest};
ghost use Rattle.nob_pickle.specs.declared.value.Value.TheVariants as values;
ghost use Rattle.nob_rounds.specs.Choices as spec;

use crate::Words;
use nob_ids::{SpaceId, WireRep};
use nob_model_types::Outcome;
use nob_pickle::{Value, Values};
use std::alloc::{AllocError, Global};

// The number of newest objects that are mostly chosen from.
const LAST_OBJECTS: u64 = 6;

/// One of so many spaces, by one word.
pub fn random_space(words: &mut Words, n: u16) -> SpaceId
    ensures space { result ≡ spec.space_at n words.old.x }
    ensures row { words.new.x ≡ spec.later 1 words.old.x }
{
    let place = (words.below(u64::from(n)) % 32) as u16;
    match SpaceId::new(place + 1) {
        Some(space) => space,
        None => unreachable!(),
    }
}

// The agent of a space.
fn agent_of(owner: SpaceId) -> WireRep
    ensures { result ≡ spec.agent_of owner }
{
    WireRep { owner, index: 0 }
}

// The agent of the first space.
fn first_agent() -> WireRep
    ensures { result ≡ spec.agent_of 1 }
{
    match SpaceId::new(1) {
        Some(space) => agent_of(space),
        None => unreachable!(),
    }
}

// Among how many of the last objects one is chosen.
fn reach_of(count: u64, word: u64) -> u64
    ensures { result ≡ spec.reach_of count word }
{
    if word == 0 {
        return count;
    }
    if count <= LAST_OBJECTS {
        return count;
    }
    LAST_OBJECTS
}

/// One of the objects, one of the last six mostly, by two words; or the agent of the first space,
/// where there is none.
#[tactic(auto, unfolding(crate::specs::Choices::object_at))]
pub fn random_object(words: &mut Words, objects: &[WireRep]) -> WireRep
    ensures object { result ≡ spec.object_at objects.now words.old.x }
    ensures row { words.new.x ≡ spec.later 2 words.old.x }
{
    let count = objects.len() as u64;
    let first = words.below(4);
    let behind = words.below(reach_of(count, first)).saturating_add(1);
    match objects.get(count.saturating_sub(behind) as usize) {
        Some(rep) => *rep,
        None => first_agent(),
    }
}

/// A value: one reference mostly, two in a list, or none. Only memory fails it.
#[tactic(auto, unfolding(crate::specs::Choices::value_at))]
pub fn random_value(
    alloc: Global,
    words: &mut Words,
    objects: &[WireRep],
) -> Result<Value, AllocError>
    ensures value { IfOk result (λ value. value ≡ spec.value_at objects.now words.old.x) }
    ensures row { OnOk result (words.new.x
        ≡ spec.later (spec.words_of_value words.old.x) words.old.x) }
{
    let word = words.below(5);
    if word == 0 {
        return Ok(Value::Unit);
    }
    let first = random_object(words, objects);
    if word == 1 {
        let second = random_object(words, objects);
        return Ok(Value::List(pair_of(alloc, &first, &second)?));
    }
    Ok(Value::Ref(first))
}

// Two references in a list.
fn pair_of(alloc: Global, first: &WireRep, second: &WireRep) -> Result<Values, AllocError>
    ensures { IfOk result (λ pair. pair
        ≡ forest (values.Ref first.now ∷ values.Ref second.now ∷ [])) }
{
    let mut pair = Vec::new(alloc);
    pair.push(Value::Ref(*first))?;
    pair.push(Value::Ref(*second))?;
    Ok(Values::from_vec(pair))
}

/// What a job ends with. Only memory fails it.
#[tactic(auto, unfolding(crate::specs::Choices::outcome_at))]
pub fn random_outcome(
    alloc: Global,
    words: &mut Words,
    objects: &[WireRep],
) -> Result<Outcome, AllocError>
    ensures { IfOk result (λ outcome. outcome ≡ spec.outcome_at objects.now words.old.x) }
{
    let word = words.below(4);
    if word == 0 {
        return Ok(Outcome::NoMethod);
    }
    if word == 1 {
        return Ok(Outcome::Fault(random_value(alloc, words, objects)?));
    }
    Ok(Outcome::Answer(random_value(alloc, words, objects)?))
}
