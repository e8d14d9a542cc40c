//! What was asked of the owner of each reference, and answered.

ghost use Rattle.std.specs.Prelude.{◌≡◌, [], Some, IfOk};
ghost use Rattle.std.specs.List.{list_any};
ghost use Rattle.nob_ids.specs.Names.{is_same};
ghost use Rattle.nob_model_types.specs.Turns as turns_words;
ghost use Rattle.nob_check_tables.specs.Rows as words;

use crate::closed::Closed;
use indexmap::IndexMap;
use nob_ids::{SpaceId, WireRep};
use nob_item::Item;
use nob_model_types::{Here, OwnerAnswer, Turns};
use std::alloc::{AllocError, Global};
use std::marker::Model;

/// The turns of each reference that has any. Contracts see the rows, in the order in which they
/// came.
pub struct TurnRows {
    map: IndexMap<WireRep, Turns>,
}

// By hand, so that the table is taken apart here alone and not at each end of each caller.
impl Drop for TurnRows {
    fn drop(self) {
        let TurnRows { map: _ } = self;
    }
}

impl Model for TurnRows {
    ghost use Rattle.std.specs.Prelude.{List};
    ghost use Rattle.nob_ids.specs.declared.wire_rep.WireRep.{WireRep};
    ghost use Rattle.nob_model_types.specs.declared.turns.Turns.{Turns};

    ghost Value = { List (WireRep × Turns) };

    ghost view = { λ rows. rows.map.entries };
}

impl TurnRows {
    /// Nothing was asked.
    pub fn none(alloc: Global) -> TurnRows
        ensures { result ≡ [] }
    {
        TurnRows {
            map: IndexMap::new(alloc),
        }
    }

    /// The turns of a reference. Constant time on average.
    pub fn turns(&self, rep: &WireRep) -> Turns
        ensures { result ≡ words.turns_in rep.now self.now }
    {
        match self.map.get(rep) {
            Some(turns) => *turns,
            None => Turns::none(),
        }
    }

    // These with other turns of a reference.
    fn with_turns(self, rep: WireRep, turns: Turns) -> Result<TurnRows, AllocError>
        ensures { IfOk result (λ rows. rows ≡ words.with_turns rep turns self) }
    {
        let TurnRows { mut map } = self;
        map.insert(rep, turns)?;
        Ok(TurnRows { map })
    }

    /// These without those of the references that a peer owns. It takes no memory. Linear in the
    /// rows.
    pub fn without_rows(self, peer: SpaceId) -> TurnRows
        ensures { result ≡ words.without_rows peer self }
    {
        let TurnRows { map } = self;
        TurnRows {
            map: others(peer, map),
        }
    }
}

// The rows of the references that others own.
fn others(peer: SpaceId, mut map: IndexMap<WireRep, Turns>) -> IndexMap<WireRep, Turns>
    ensures { result.entries ≡ words.without_rows peer map.entries }
{
    map.retain(|rep, _| peer != rep.owner);
    map
}

// One Dirty more. No journal has so many that they can't be counted.
fn with_dirty(turns: Turns) -> Result<Turns, AllocError>
    ensures { IfOk result (λ after. after ≡ turns_words.with_dirty turns) }
{
    let Some(dirties) = turns.dirties.checked_add(1) else {
        return Err(AllocError);
    };
    Ok(Turns {
        dirties,
        answers: turns.answers,
        asks: true,
        last: turns.last,
    })
}

// One answer more. No journal has so many that they can't be counted.
fn with_answer(turns: Turns, answer: OwnerAnswer) -> Result<Turns, AllocError>
    ensures { IfOk result (λ after. after ≡ turns_words.with_answer answer turns) }
{
    let Some(answers) = turns.answers.checked_add(1) else {
        return Err(AllocError);
    };
    Ok(Turns {
        dirties: turns.dirties,
        answers,
        asks: turns.asks,
        last: answer,
    })
}

// Whether a reference with these turns gets a Dirty.
fn wants_dirty(here: &Here, rep: &WireRep, closed: &Closed, turns: Turns) -> bool
    ensures { result ≡ words.wants_dirty_by here.now.space here.now.n closed.now rep.now turns }
{
    here.is_peer(rep.owner) && !closed.has(rep.owner) && !turns.is_standing()
}

// The rows once a reference got a Dirty, if it gets one.
fn rows_with_dirty(
    here: &Here,
    rep: &WireRep,
    closed: &Closed,
    rows: TurnRows,
) -> Result<TurnRows, AllocError>
    ensures { IfOk result (λ after. after
        ≡ words.rows_with_dirty here.now.space here.now.n closed.now rep.now rows) }
{
    let turns = rows.turns(rep);
    if !wants_dirty(here, rep, closed, turns) {
        return Ok(rows);
    }
    rows.with_turns(*rep, with_dirty(turns)?)
}

// Whether a reference is among others.
fn is_in(rep: &WireRep, others: &[WireRep]) -> bool
    ensures { result ≡ list_any (is_same rep.now) others.now }
{
    others.iter().any(|other| *rep == *other)
}

// The rows once each of some references got a Dirty, if it gets one.
fn rows_with_dirties(
    here: &Here,
    reps: &[WireRep],
    closed: &Closed,
    rows: TurnRows,
) -> Result<TurnRows, AllocError>
    ensures { IfOk result (λ after. after
        ≡ words.rows_with_dirties here.now.space here.now.n closed.now reps.now rows) }
{
    match reps {
        [] => Ok(rows),
        [rep, others @ ..] => {
            let after = rows_with_dirties(here, others, closed, rows)?;
            if is_in(rep, others) {
                return Ok(after);
            }
            rows_with_dirty(here, rep, closed, after)
        }
    }
}

// The rows once the owner of a reference answered.
fn rows_with_answer(
    rep: WireRep,
    answer: OwnerAnswer,
    rows: TurnRows,
) -> Result<TurnRows, AllocError>
    ensures { IfOk result (λ after. after ≡ words.rows_with_answer rep answer rows) }
{
    let turns = rows.turns(&rep);
    rows.with_turns(rep, with_answer(turns, answer)?)
}

/// The rows once a reference was cleaned. Only memory fails it.
pub fn rows_with_clean(rep: &WireRep, rows: TurnRows) -> Result<TurnRows, AllocError>
    ensures { IfOk result (λ after. after ≡ words.rows_with_clean rep.now rows) }
{
    let before = rows.turns(rep);
    rows.with_turns(
        *rep,
        Turns {
            dirties: before.dirties,
            answers: before.answers,
            asks: false,
            last: before.last,
        },
    )
}

/// The rows once an item from a peer was acted on. Only memory fails it. It looks up each reference
/// of the item.
pub fn with_item(
    alloc: Global,
    here: &Here,
    peer: SpaceId,
    item: &Item,
    closed: &Closed,
    rows: TurnRows,
) -> Result<TurnRows, AllocError>
    ensures { IfOk result (λ after. after
        ≡ words.with_item here.now.space here.now.n peer (Some item.now) closed.now rows) }
{
    match item {
        Item::Call { .. } | Item::Reply { .. } => {
            let reps = nob_item::counted_refs(alloc, item)?;
            rows_with_dirties(here, reps.as_slice(), closed, rows)
        }
        Item::DirtyOk(index) => {
            let rep = WireRep {
                owner: peer,
                index: *index,
            };
            rows_with_answer(rep, OwnerAnswer::Granted, rows)
        }
        Item::DirtyNo(index) => {
            let rep = WireRep {
                owner: peer,
                index: *index,
            };
            rows_with_answer(rep, OwnerAnswer::Refused, rows)
        }
        Item::Settle(_) | Item::Dirty(_) | Item::Clean(_) => Ok(rows),
    }
}
