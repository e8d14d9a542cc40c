//! Cases of a pin table: its whole life in a line, since a table can't be let go while it has pins.

ghost use Rattle.std.specs.Prelude.{◌≡◌, ◌<◌, length, IfOk, false};
ghost use Rattle.nob_pins.specs.Bundles.{bundle_of, has_bundle};
ghost use Rattle.nob_pins.specs.Evidence.{AreOf, reps_of};
ghost use Rattle.nob_cases.specs.Strangers.{is_strange, strangers};

use nob_case_texts::{Answer, PinAnswer};
use nob_ids::{ItemNo, Limits, Reason, SpaceId, WireRep};
use nob_item::Item;
use nob_pins::{PinFault, PinTable, Settled, TransitPin};
use nob_session::{Closed, Session};
use std::alloc::{AllocError, Global};

/// A call on the table. Its peers are the spaces 2 and 3.
#[derive(Drop)]
pub enum PinCase {
    /// Puts a bundle of these references, one at least.
    Put(SpaceId, ItemNo, Vec<WireRep>),
    /// The peer's Settle of an item has come.
    Settle(SpaceId, ItemNo),
    /// The session with the peer has closed.
    Close(SpaceId),
    /// How often a reference is in transit.
    Count(WireRep),
}

/// What a new table answers to these calls, one after the other. Only memory fails it.
pub fn answer(alloc: Global, cases: &[PinCase]) -> Result<Answer, AllocError> {
    let (Some(two), Some(three)) = (SpaceId::new(2), SpaceId::new(3)) else {
        return Err(AllocError);
    };
    let two = closing(alloc, two)?;
    let three = closing(alloc, three)?;
    let mut table = PinTable::new(alloc);
    let answers = answer_all(alloc, &mut table, &two, &three, cases);
    end(table, &two, &three);
    Ok(Answer::Pins(answers?))
}

// The evidence that a session with the peer has closed.
fn closing(alloc: Global, peer: SpaceId) -> Result<Closed, AllocError>
    ensures { IfOk result (λ closed. closed.peer ≡ peer) }
{
    let Some(me) = SpaceId::new(1) else {
        return Err(AllocError);
    };
    let Ok(mut session) = Session::open(alloc, me, peer, Limits::default()) else {
        return Err(AllocError);
    };
    match session.close(Reason::Asked) {
        Ok(closed) if closed.peer() == peer => Ok(closed),
        _ => Err(AllocError),
    }
}

fn answer_all(
    alloc: Global,
    table: &mut PinTable,
    two: &Closed,
    three: &Closed,
    cases: &[PinCase],
) -> Result<Vec<PinAnswer>, AllocError>
    ensures { strangers table.old.bundles ≡ 0 → strangers table.new.bundles ≡ 0 }
{
    let mut answers = Vec::new(alloc);
    for case in cases {
        let answer = answer_one(alloc, table, two, three, case)?;
        answers.push(answer)?;
    }
    Ok(answers)
}

fn answer_one(
    alloc: Global,
    table: &mut PinTable,
    two: &Closed,
    three: &Closed,
    case: &PinCase,
) -> Result<PinAnswer, AllocError>
    ensures { strangers table.old.bundles ≡ 0 → strangers table.new.bundles ≡ 0 }
{
    match case {
        PinCase::Put(peer, item, reps) => put(alloc, table, *peer, *item, reps),
        PinCase::Settle(peer, item) => Ok(settle(table, *peer, *item)),
        PinCase::Close(peer) => {
            close(table, if two.peer() == *peer { two } else { three });
            Ok(PinAnswer::Done)
        }
        PinCase::Count(rep) => Ok(PinAnswer::Count(table.count(*rep))),
    }
}

// Closes the sessions with both peers, and ends the table.
fn end(table: PinTable, two: &Closed, three: &Closed)
    requires two { two.now.peer ≡ 2 }
    requires three { three.now.peer ≡ 3 }
    requires known { strangers table.bundles ≡ 0 }
{
    let mut table = table;
    table.close(two);
    table.close(three);
    table.end();
}

fn close(table: &mut PinTable, closed: &Closed)
    ensures { strangers table.old.bundles ≡ 0 → strangers table.new.bundles ≡ 0 }
{
    table.close(closed);
}

fn settle(table: &mut PinTable, peer: SpaceId, item: ItemNo) -> PinAnswer
    ensures { strangers table.old.bundles ≡ 0 → strangers table.new.bundles ≡ 0 }
{
    let Some(settled) = Settled::of_note(peer, &Item::Settle(item)) else {
        return PinAnswer::NoCall;
    };
    match table.settle(&settled) {
        Ok(()) => PinAnswer::Done,
        Err(fault) => PinAnswer::Refused(fault),
    }
}

// Whether there was a bundle of this peer and item: there is none any more.
fn clear(table: &mut PinTable, peer: SpaceId, item: ItemNo) -> bool
    ensures none { has_bundle table.new.bundles peer item ≡ false }
    ensures known { strangers table.old.bundles ≡ 0 → strangers table.new.bundles ≡ 0 }
{
    let Some(settled) = Settled::of_note(peer, &Item::Settle(item)) else {
        unreachable!();
    };
    match table.settle(&settled) {
        Ok(()) => true,
        Err(PinFault::NoBundle) => false,
    }
}

// Puts a bundle, in place of one of the same peer and item.
fn put(
    alloc: Global,
    table: &mut PinTable,
    peer: SpaceId,
    item: ItemNo,
    reps: &[WireRep],
) -> Result<PinAnswer, AllocError>
    ensures { strangers table.old.bundles ≡ 0 → strangers table.new.bundles ≡ 0 }
{
    if reps.is_empty() || peer.get() != 2 && peer.get() != 3 {
        return Ok(PinAnswer::NoCall);
    }
    let was_there = clear(table, peer, item);
    put_new(alloc, table, peer, item, reps)?;
    Ok(if was_there {
        PinAnswer::Replaced
    } else {
        PinAnswer::Done
    })
}

// Puts a bundle of a peer and item that have none.
fn put_new(
    alloc: Global,
    table: &mut PinTable,
    peer: SpaceId,
    item: ItemNo,
    reps: &[WireRep],
) -> Result<(), AllocError>
    requires some { 0 < length reps.now }
    requires peer { is_strange (bundle_of peer item reps.now) ≡ false }
    requires new { has_bundle table.old.bundles peer item ≡ false }
    ensures { strangers table.old.bundles ≡ 0 → strangers table.new.bundles ≡ 0 }
{
    table.reserve(peer, reps)?;
    let pins = pins_on(alloc, peer, item, reps)?;
    match table.put(peer, item, pins) {
        Ok(()) => Ok(()),
        Err(_failed) => unreachable!(),
    }
}

// A pin for each of the references.
fn pins_on(
    alloc: Global,
    peer: SpaceId,
    item: ItemNo,
    reps: &[WireRep],
) -> Result<Vec<TransitPin>, AllocError>
    ensures reps { IfOk result (λ pins. reps_of pins.items ≡ reps.now) }
    ensures pins { IfOk result (λ pins. AreOf peer item pins.items) }
{
    let mut pins = Vec::with_capacity(alloc, reps.len())?;
    for rep in reps {
        match pins.push(TransitPin::new(*rep, peer, item)) {
            Ok(()) => {}
            Err(_failed) => unreachable!(),
        }
    }
    Ok(pins)
}
