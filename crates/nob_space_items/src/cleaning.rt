//! Giving surrogates up: Clean.

ghost use Rattle.std.specs.Prelude.{◌≡◌, ◌<◌, ◌≤◌, ℕ, List, ◌∷◌, ◌+◌, vec_len, true, false, None, Ok, IsOk, IfOk, OnErr, MatchOption};
ghost use Rattle.nob_ids.specs.declared.limits.Limits.{Limits as LimitsOf};
ghost use Rattle.nob_model_types.specs.declared.answer.Answer.TheVariants as answers;
ghost use Rattle.nob_model_types.specs.declared.deed.Deed.{Deed};
ghost use Rattle.nob_model_types.specs.declared.deed.Deed.TheVariants as did;
ghost use Rattle.nob_model.specs.Right as right;
ghost use Rattle.nob_space_state.specs.Parts.{state_of};
ghost use Rattle.nob_space_state.specs.Stands.{StandFor, IsState, Keeps, Did, AnswersOrWants, history_for};
ghost use Rattle.nob_model_session.specs.declared.entry.EndEntry.{EndEntry};
ghost use Rattle.nob_model_session.specs.declared.entry.EndEntry.TheVariants.{Send};
ghost use Rattle.nob_session.specs.Calls.{next_of};
ghost use Rattle.nob_session.specs.Stands as ends;
ghost use Rattle.nob_table_rows.specs.Standings.{is_idle, unknown};
ghost use Rattle.nob_table.specs.Table.{standing, Becomes, Places, RemovalLeaves, SetsKept};
ghost use Rattle.nob_space_items.specs.Cleaning.{NoneSpareBelow, IsFirstSpare, ArePlacedApart, ArePinned};

use nob_ids::{ItemNo, WireRep};
use nob_item::Item;
use nob_model::{Kind, Refusal};
use nob_session::Session;
use nob_space_state::{Parts, SpaceError, encode_note, send_reserved};
use nob_table::ObjectTable;
use std::alloc::{AllocError, Global};

// The first surrogate, in the order of the last Dirties, that is granted and has neither holds nor
// pins. The table passes those that it keeps from outside, so it is the first that the table finds.
pub(crate) fn first_spare(parts: &Parts) -> Option<WireRep>
    requires apart { ArePlacedApart parts.now.table }
    requires pinned { ArePinned (state_of parts.now) }
    ensures { MatchOption result (NoneSpareBelow (state_of parts.now) parts.now.table.dirties)
        (λ rep. IsFirstSpare (state_of parts.now) rep) }
{
    let end = parts.table.dirty_count();
    let mut place = 0;
    while place < end {
        let Some((at, rep)) = parts.table.first_spare_surrogate(place) else {
            return None;
        };
        if !parts.is_pinned(&rep) {
            return Some(rep);
        }
        place = at + 1;
    }
    None
}

// Sends a note to the peer of a session: the number that it gets. Only memory fails it.
fn send_note(session: &mut Session, payload: Vec<u8>) -> Result<ItemNo, AllocError>
    requires payload { (0 < vec_len payload) × (vec_len payload ≤ 16384) }
    requires next { IsOk (next_of Kind.Note session.old.end) }
    ensures number { IfOk result (λ number. number ≡ session.old.end.handed + 1) }
    ensures answer { (me peer : ℕ) (limits : LimitsOf) (L : List EndEntry)
        → ends.Stands me peer limits session.old.end L
        → IfOk result (λ number. ends.Stands me peer limits session.new.end
        (Send payload.items Kind.Note (Ok number) ∷ L)) }
    ensures err { OnErr result (session.new.end ≡ session.old.end) }
{
    if session.reserve(1).is_err() {
        return Err(AllocError);
    }
    Ok(send_reserved(session, payload, Kind::Note))
}

// Takes a surrogate that can be given up out of the table.
fn forget(table: &mut ObjectTable, rep: &WireRep)
    requires { is_idle (standing table.old rep.now) ≡ true }
    ensures row { Becomes table.old table.new rep.now unknown }
    ensures place { Places table.old table.new rep.now None }
    ensures unkept { SetsKept table.old table.new rep.now false }
    ensures left { RemovalLeaves table.old table.new }
{
    match table.remove(*rep) {
        Ok(()) => {}
        Err(_) => unreachable!(),
    }
}

/// Clean: the first surrogate, in the order of the last Dirties, that is granted on an open session
/// and has neither holds nor pins is given up: its owner is told so by an item. Nothing where there
/// is none, SeqEnd where the session with its owner has no number left. A few look-ups: what is held or
/// in transit isn't passed.
pub fn clean(parts: &mut Parts, alloc: Global) -> Result<WireRep, SpaceError>
    requires { IsState parts.old }
    ensures answer { (limits : LimitsOf) (D : List Deed)
        → StandFor limits parts.old D
        → AnswersOrWants (λ rep. answers.Cleaned rep) result
        (right.right_clean parts.old.here.space parts.old.here.n (history_for parts.old D)) }
    ensures stands { IfOk result (λ rep.
        Did parts.old parts.new (did.Clean rep)) }
    ensures err { OnErr result (Keeps parts.old parts.new) }
    ensures here { parts.new.here ≡ parts.old.here }
{
    let Some(rep) = first_spare(parts) else {
        return Err(SpaceError::Refused(Refusal::Nothing));
    };
    let place = rep.owner.place();
    if parts.sessions[place].free_numbers() == 0 {
        return Err(SpaceError::Refused(Refusal::SeqEnd));
    }
    let payload = encode_note(alloc, &Item::Clean(rep.index))?;
    let session = &mut parts.sessions[place];
    send_note(session, payload)?;
    forget(&mut parts.table, &rep);
    Ok(rep)
}
