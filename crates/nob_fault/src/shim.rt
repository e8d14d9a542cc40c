//! The shim.

ghost use Rattle.std.specs.Prelude.{◌≡◌, ◌≢◌, ◌≤◌, ◌<◌, ◌+◌, ◌++◌, [], ◌∷◌, ℕ, List, Some, None, IfOk, OnOk, OnErr, IfErr, MatchResult, length, slice_index_or, vec_len, vec_capacity};
ghost use Rattle.nob_link.specs.declared.parcel.Parcel.{Parcel as ParcelOf};
ghost use Rattle.nob_fault.specs.Table.{listed, given_by, kept_by};
ghost use Rattle.nob_fault.specs.Shims.{opening, outcome, passed, shim_after, output};

use crate::effect::Effect;
use nob_link::Parcel;
use std::alloc::Global;
use std::marker::Model;

/// A shim. Contracts see its words, its place among them and the parcel that it keeps back, at most
/// one.
#[derive(Debug, Drop)]
pub struct Shim {
    words: Vec<u64>,
    // how many words are used up
    place: usize,
    kept: Option<Parcel>,
}

impl Model for Shim {
    ghost use Rattle.nob_fault.specs.Shims.{Shimming};

    ghost Value = { Shimming };

    ghost view = { λ shim. record {
      words = shim.words.items;
      place = shim.place;
      kept = shim.kept;
    } };
}

impl Shim {
    /// A shim with these words, of which none is used up. It takes no memory.
    pub fn new(words: Vec<u64>) -> Shim
        ensures { result ≡ opening words.items }
    {
        Shim {
            words,
            place: 0,
            kept: None,
        }
    }

    /// What comes out where this parcel passes, the first first. A frame uses one word, and each
    /// counts as 1 once they are used up; the end uses none. The parcel comes back for want of
    /// memory, and nothing has changed then.
    pub fn pass(&mut self, parcel: Parcel) -> Result<Vec<Parcel>, Parcel>
        ensures given { MatchResult result (λ given. given.items ≡ outcome self.old parcel)
            (λ back. back ≡ parcel) }
        ensures passed { OnOk result (self.new ≡ passed self.old parcel) }
        ensures all { (words : List ℕ) (parcels : List ParcelOf)
            → self.old ≡ shim_after words parcels
            → IfOk result (λ given. (output words (parcel ∷ parcels)
            ≡ output words parcels ++ given.items)
            × (self.new ≡ shim_after words (parcel ∷ parcels))) }
        ensures err { OnErr result (self.new ≡ self.old) }
        ensures memory { OnErr result (outcome self.old parcel ≢ []) }
    {
        let alloc = *self.words.allocator();
        let Parcel::Frame { stamp, frame } = parcel else {
            return end(alloc, &mut self.kept);
        };
        let effect = Effect::of_word(self.word());
        let given = meet(
            alloc,
            effect,
            &mut self.kept,
            Parcel::Frame { stamp, frame },
        )?;
        if self.place < self.words.len() {
            self.place += 1;
        }
        Ok(given)
    }

    // The word for the next frame.
    fn word(&self) -> u64
        ensures { result ≡ slice_index_or self.now.words self.now.place 1 }
    {
        self.words.get(self.place).copied().unwrap_or(1)
    }
}

// What comes out where a frame meets an effect. The frame comes back for want of memory.
fn meet(
    alloc: Global,
    effect: Effect,
    kept: &mut Option<Parcel>,
    parcel: Parcel,
) -> Result<Vec<Parcel>, Parcel>
    ensures given { MatchResult result (λ given. given.items ≡ given_by effect kept.old parcel)
        (λ back. back ≡ parcel) }
    ensures kept { OnOk result (kept.new ≡ kept_by effect kept.old parcel) }
    ensures err { OnErr result (kept.new ≡ kept.old) }
    ensures memory { OnErr result (given_by effect kept.old parcel ≢ []) }
{
    match effect {
        Effect::Lose => Ok(Vec::new(alloc)),
        Effect::Go => go(alloc, kept, parcel),
        Effect::Twice => go_twice(alloc, kept, parcel),
        Effect::Keep => keep(alloc, kept, parcel),
    }
}

// The frame goes on, then what is kept back.
fn go(alloc: Global, kept: &mut Option<Parcel>, parcel: Parcel) -> Result<Vec<Parcel>, Parcel>
    ensures given { MatchResult result (λ given. given.items ≡ parcel ∷ listed kept.old)
        (λ back. back ≡ parcel) }
    ensures kept { OnOk result (kept.new ≡ None) }
    ensures err { OnErr result (kept.new ≡ kept.old) }
{
    let Ok(mut given) = Vec::with_capacity(alloc, 2) else {
        return Err(parcel);
    };
    given.push_reserved(parcel);
    give_kept(&mut given, kept);
    Ok(given)
}

// The frame goes on twice, then what is kept back.
fn go_twice(alloc: Global, kept: &mut Option<Parcel>, parcel: Parcel) -> Result<Vec<Parcel>, Parcel>
    ensures given { MatchResult result (λ given. given.items ≡ parcel ∷ parcel ∷ listed kept.old)
        (λ back. back ≡ parcel) }
    ensures kept { OnOk result (kept.new ≡ None) }
    ensures err { OnErr result (kept.new ≡ kept.old) }
{
    let Ok(again) = parcel.copy() else {
        return Err(parcel);
    };
    let Ok(mut given) = Vec::with_capacity(alloc, 3) else {
        return Err(parcel);
    };
    given.push_reserved(parcel);
    given.push_reserved(again);
    give_kept(&mut given, kept);
    Ok(given)
}

// The frame is kept back; what was kept back before goes on.
fn keep(alloc: Global, kept: &mut Option<Parcel>, parcel: Parcel) -> Result<Vec<Parcel>, Parcel>
    ensures given { MatchResult result (λ given. given.items ≡ listed kept.old)
        (λ back. back ≡ parcel) }
    ensures kept { OnOk result (kept.new ≡ Some parcel) }
    ensures err { OnErr result (kept.new ≡ kept.old) }
    ensures memory { OnErr result (listed kept.old ≢ []) }
{
    if kept.is_none() {
        *kept = Some(parcel);
        return Ok(Vec::new(alloc));
    }
    let Ok(mut given) = Vec::with_capacity(alloc, 1) else {
        return Err(parcel);
    };
    give_kept(&mut given, kept);
    *kept = Some(parcel);
    Ok(given)
}

// What is kept back, then the end. The end comes back for want of memory.
fn end(alloc: Global, kept: &mut Option<Parcel>) -> Result<Vec<Parcel>, Parcel>
    ensures given { MatchResult result (λ given. given.items ≡ listed kept.old ++ Parcel.End ∷ [])
        (λ back. back ≡ Parcel.End) }
    ensures kept { OnOk result (kept.new ≡ None) }
    ensures err { OnErr result (kept.new ≡ kept.old) }
{
    let Ok(mut given) = Vec::with_capacity(alloc, 2) else {
        return Err(Parcel::End);
    };
    give_kept(&mut given, kept);
    given.push_reserved(Parcel::End);
    Ok(given)
}

// Gives what is kept back, into a vector that has room for it.
fn give_kept(given: &mut Vec<Parcel>, kept: &mut Option<Parcel>)
    requires { vec_len given.old < vec_capacity given.old }
    ensures given { given.new.items ≡ given.old.items ++ listed kept.old }
    ensures len { vec_len given.new ≤ vec_len given.old + 1 }
    ensures capacity { vec_capacity given.new ≡ vec_capacity given.old }
    ensures kept { kept.new ≡ None }
{
    if let Some(parcel) = kept.take() {
        given.push_reserved(parcel);
    }
}
