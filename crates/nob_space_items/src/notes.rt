//! Acting on notes: the items with which spaces keep their books of who holds what.

ghost use Rattle.std.specs.Prelude.{◌≡◌, ℕ, ◌+◌, ◌<◌, List, ◌∷◌, Ok, length, IsOk, OnOk, OnErr};
ghost use Rattle.nob_ids.specs.declared.limits.Limits.{Limits as LimitsOf};
ghost use Rattle.nob_item.specs.declared.item.Item.TheVariants as items;
ghost use Rattle.nob_dirty.specs.Sets.{ListsSame};
ghost use Rattle.nob_model_session.specs.declared.entry.EndEntry.{EndEntry};
ghost use Rattle.nob_model_session.specs.declared.entry.EndEntry.TheVariants as calls;
ghost use Rattle.nob_model_session.specs.declared.entry.Kind.TheVariants as kinds;
ghost use Rattle.nob_session.specs.Calls.{next_of};
ghost use Rattle.nob_session.specs.Stands as ends;
ghost use Rattle.nob_table_rows.specs.Standings as standings;
ghost use Rattle.nob_table.specs.Table.{standing};
ghost use Rattle.nob_model_types.specs.declared.answer.Answer.TheVariants as answers;
ghost use Rattle.nob_model_types.specs.declared.deed.Deed.{Deed};
ghost use Rattle.nob_model_types.specs.declared.deed.Deed.TheVariants as did;
ghost use Rattle.nob_model_history.specs.Ends.{payload_of};
ghost use Rattle.nob_model.specs.Right as right;
ghost use Rattle.nob_model.specs.Right.{own_ref};
ghost use Rattle.nob_space_state.specs.Stands.{StandFor, IsState, Keeps, Did, AnswersOrWants, history_for};
ghost use Rattle.nob_space_items.specs.Fronts.{IsFront};
ghost use Rattle.nob_space_items.specs.Notes.{dirty_answer, EntersIf};

use crate::grants::lend_times;
use nob_dirty::DirtySets;
use nob_ids::{ItemNo, SpaceId, WireRep};
use nob_item::Item;
use nob_model::Kind;
use nob_pins::Settled;
use nob_session::Session;
use nob_space_state::{Parts, SpaceError, encode_note, send_reserved, settle_pins, unlist};
use nob_table::State;
use std::alloc::{AllocError, Global};

// Acts on a Clean: its sender is listed no longer at the index. It takes no memory.
pub(crate) fn act_on_clean(parts: &mut Parts, peer: SpaceId, number: ItemNo, index: u64)
    requires state { IsState parts.old }
    requires front { (limits : LimitsOf) (D : List Deed)
        → StandFor limits parts.old D
        → IsFront parts.old.here.space parts.old.here.n peer number (items.Clean index) D }
    ensures stands { Did parts.old parts.new
        (did.Act peer number) }
    ensures here { parts.new.here ≡ parts.old.here }
{
    unlist(
        &mut parts.table,
        &parts.pins,
        &mut parts.dirty,
        parts.here.space,
        index,
        peer,
    );
    parts.sessions[peer.place()].take();
}

// Acts on a Settle: the pins of the item that it settles end, and what nothing outside uses any more
// isn't kept from there. It takes no memory. Linear in the pins of that item.
pub(crate) fn act_on_settle(parts: &mut Parts, number: ItemNo, settled: &Settled)
    requires state { IsState parts.old }
    requires front { (limits : LimitsOf) (D : List Deed)
        → StandFor limits parts.old D
        → IsFront parts.old.here.space parts.old.here.n settled.now.peer number
        (items.Settle settled.now.item) D }
    ensures stands { Did parts.old parts.new
        (did.Act settled.now.peer number) }
    ensures here { parts.new.here ≡ parts.old.here }
{
    let peer = settled.peer();
    let ended = settle_pins(
        &mut parts.table,
        &mut parts.pins,
        &parts.dirty,
        parts.here.space,
        settled,
    );
    match ended {
        Ok(()) => {}
        Err(_) => unreachable!(),
    }
    parts.sessions[peer.place()].take();
}

// Whether the object of an index of this space is live.
fn is_live(parts: &Parts, index: u64) -> bool
    ensures { result ≡ standings.is_live (standing parts.now.table (own_ref parts.now.here.space index)).state }
{
    let standing = parts.table.state(WireRep {
        owner: parts.here.space,
        index,
    });
    matches!(standing.state, State::Live)
}

// What a client that asks for an object is told.
fn dirty_answer(live: bool, index: u64) -> Item
    ensures { result ≡ dirty_answer live index }
{
    if live {
        Item::DirtyOk(index)
    } else {
        Item::DirtyNo(index)
    }
}

// Answers the Dirty that waits first at a session, and takes it: its sender is entered where the
// object is live. Only memory fails it.
fn answer_dirty(
    alloc: Global,
    session: &mut Session,
    dirty: &mut DirtySets,
    peer: SpaceId,
    index: u64,
    live: bool,
) -> Result<(), AllocError>
    requires next { IsOk (next_of kinds.Note session.old.end) }
    requires waits { 0 < length session.old.end.waiting }
    ensures session { (me other : ℕ) (limits : LimitsOf) (L : List EndEntry)
        → ends.Stands me other limits session.old.end L
        → OnOk result (ends.Stands me other limits session.new.end
        (calls.Take ∷ calls.Send (payload_of (dirty_answer live index)) kinds.Note
        (Ok (session.old.end.handed + 1)) ∷ L)) }
    ensures listed { OnOk result (EntersIf live dirty.old dirty.new index peer) }
    ensures err { OnErr result ((session.new.end ≡ session.old.end)
        × ListsSame dirty.old dirty.new) }
{
    let payload = encode_note(alloc, &dirty_answer(live, index))?;
    if session.reserve(1).is_err() {
        return Err(AllocError);
    }
    if live {
        dirty.dirty(index, peer)?;
    }
    send_reserved(session, payload, Kind::Note);
    session.take();
    Ok(())
}

// Acts on a Dirty: its sender is entered at the index where the object is live, and told so; else
// it is told that there is none. The Dirty stays in the inbox where its sender's session has no
// number for the answer, and for want of memory.
pub(crate) fn act_on_dirty(
    parts: &mut Parts,
    alloc: Global,
    peer: SpaceId,
    number: ItemNo,
    index: u64,
) -> Result<(), SpaceError>
    requires state { IsState parts.old }
    requires front { (limits : LimitsOf) (D : List Deed)
        → StandFor limits parts.old D
        → IsFront parts.old.here.space parts.old.here.n peer number (items.Dirty index) D }
    ensures answer { (limits : LimitsOf) (D : List Deed)
        → StandFor limits parts.old D
        → AnswersOrWants (λ _. answers.Acted number) result
        (right.right_act parts.old.here.space parts.old.here.n peer (history_for parts.old D)) }
    ensures stands { OnOk result (Did parts.old parts.new (did.Act peer number)) }
    ensures err { OnErr result (Keeps parts.old parts.new) }
    ensures here { parts.new.here ≡ parts.old.here }
{
    parts.refuse_send(peer, Kind::Note)?;
    let live = is_live(parts, index);
    let session = &mut parts.sessions[peer.place()];
    answer_dirty(alloc, session, &mut parts.dirty, peer, index, live)?;
    parts.table.keep(&WireRep {
        owner: parts.here.space,
        index,
    });
    Ok(())
}

// Acts on a DirtyNo: the reference that was asked for is refused, and lost to the messages that wait
// for it. It takes no memory. Linear in the copies of it that are due.
pub(crate) fn act_on_dirty_no(parts: &mut Parts, peer: SpaceId, number: ItemNo, index: u64)
    requires state { IsState parts.old }
    requires front { (limits : LimitsOf) (D : List Deed)
        → StandFor limits parts.old D
        → IsFront parts.old.here.space parts.old.here.n peer number (items.DirtyNo index) D }
    ensures stands { Did parts.old parts.new
        (did.Act peer number) }
    ensures here { parts.new.here ≡ parts.old.here }
{
    let rep = WireRep { owner: peer, index };
    match parts.table.refuse(rep) {
        Ok(()) => {}
        Err(_) => unreachable!(),
    }
    parts.messages.lose(&rep);
    parts.sessions[peer.place()].take();
}

// Acts on a DirtyOk: the reference that was asked for is granted, and lent to the messages that
// wait for it. It takes no memory. Linear in the copies of the messages that wait for it.
pub(crate) fn act_on_dirty_ok(parts: &mut Parts, peer: SpaceId, number: ItemNo, index: u64)
    requires state { IsState parts.old }
    requires front { (limits : LimitsOf) (D : List Deed)
        → StandFor limits parts.old D
        → IsFront parts.old.here.space parts.old.here.n peer number (items.DirtyOk index) D }
    ensures stands { Did parts.old parts.new
        (did.Act peer number) }
    ensures here { parts.new.here ≡ parts.old.here }
{
    let rep = WireRep { owner: peer, index };
    match parts.table.grant(rep) {
        Ok(()) => {}
        Err(_) => unreachable!(),
    }
    let due = parts.messages.lend(&rep);
    lend_times(&mut parts.table, &rep, due);
    parts.sessions[peer.place()].take();
}
