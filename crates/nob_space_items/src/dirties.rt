//! Dirties that are sent for references.

ghost use Rattle.std.specs.Prelude.{◌≡◌, ◌+◌, ◌-◌, ◌≤◌, [], ◌∷◌, Some, IfOk};
ghost use Rattle.nob_table_rows.specs.Standings.{pending_standing};
ghost use Rattle.nob_table.specs.Table.{Becomes, Places, SameObjects, surrogate_total};
ghost use Rattle.nob_space_items.specs.Asking.{CanAsk, AsksFor, CanSend, CanSendAll, SendsOne, SendsNext, SendsAll};

use crate::growing::place_of;
use nob_ids::WireRep;
use nob_item::Item;
use nob_model::Kind;
use nob_session::Session;
use nob_space_state::{encode_note, send_reserved};
use nob_table::ObjectTable;
use std::alloc::{AllocError, Global};
use std::marker::Model;

/// A Dirty that is about to be sent: its payload is written. Contracts see the reference that it is
/// for.
#[derive(Drop)]
pub struct NewDirty {
    rep: WireRep,
    payload: Vec<u8>,
}

impl Model for NewDirty {
    ghost use Rattle.std.specs.Prelude.{◌≡◌, ◌<◌, ◌≤◌, vec_len};
    ghost use Rattle.nob_ids.specs.declared.wire_rep.WireRep.{WireRep};
    ghost use Rattle.nob_model_history.specs.Ends.{payload_of};
    ghost use Rattle.nob_item.specs.declared.item.Item.TheVariants as items;

    ghost Value = { WireRep };

    ghost view = { λ dirty. dirty.rep };

    ghost invariant = { λ dirty. (dirty.payload.items ≡ payload_of (items.Dirty dirty.rep.index))
        × (0 < vec_len dirty.payload) × (vec_len dirty.payload ≤ 16384) };
}

impl NewDirty {
    /// The Dirty for a reference. Only memory fails it.
    pub fn new(alloc: Global, rep: WireRep) -> Result<NewDirty, AllocError>
        ensures { IfOk result (λ dirty. dirty ≡ rep) }
    {
        let payload = encode_note(alloc, &Item::Dirty(rep.index))?;
        Ok(NewDirty { rep, payload })
    }

    // The reference.
    fn rep(&self) -> WireRep
        ensures { result ≡ self.now }
    {
        self.rep
    }
}

// The Dirties for references, in order. Only memory fails it.
pub(crate) fn new_dirties(alloc: Global, reps: &[WireRep]) -> Result<Vec<NewDirty>, AllocError>
    ensures { IfOk result (λ dirties. dirties.items ≡ reps.now) }
{
    let mut dirties = Vec::with_capacity(alloc, reps.len())?;
    for rep in reps {
        dirties.push(NewDirty::new(alloc, *rep)?)?;
    }
    Ok(dirties)
}

// Sends one Dirty to the peer of a session that has a number and room for it.
fn send_dirty(session: &mut Session, dirty: NewDirty)
    requires { CanSend 1 session.old }
    ensures { SendsOne session.old session.new dirty }
{
    let NewDirty { payload, .. } = dirty;
    send_reserved(session, payload, Kind::Note);
}

// Sends one Dirty: its reference is a pending surrogate then.
fn send_next(sessions: &mut Vec<Session>, table: &mut ObjectTable, dirty: NewDirty)
    requires sessions { CanSendAll sessions.old.items (dirty ∷ []) }
    requires table { CanAsk table.old (dirty ∷ []) }
    ensures sessions { SendsNext sessions.old.items sessions.new.items dirty }
    ensures pending { Becomes table.old table.new dirty pending_standing }
    ensures place { Places table.old table.new dirty (Some table.old.dirties) }
    ensures dirties { table.new.dirties ≡ table.old.dirties + 1 }
    ensures count { surrogate_total table.new ≡ surrogate_total table.old + 1 }
    ensures room { table.old.surrogate_room ≤ table.new.surrogate_room + 1 }
    ensures left { SameObjects table.old table.new }
{
    let rep = dirty.rep();
    match table.pending(rep) {
        Ok(()) => {}
        Err(_) => unreachable!(),
    }
    let session = &mut sessions[place_of(&rep)];
    send_dirty(session, dirty);
}

// Sends Dirties, one after the other: the references are pending surrogates then.
pub(crate) fn send_dirties(
    sessions: &mut Vec<Session>,
    table: &mut ObjectTable,
    dirties: Vec<NewDirty>,
)
    requires sessions { CanSendAll sessions.old.items dirties.items }
    requires table { CanAsk table.old dirties.items }
    ensures sessions { SendsAll sessions.old.items sessions.new.items dirties.items }
    ensures table { AsksFor table.old table.new dirties.items }
{
    if dirties.is_empty() {
        return;
    }
    let mut rest = dirties;
    let dirty = rest.remove(0);
    send_next(sessions, table, dirty);
    send_dirties(sessions, table, rest);
}
