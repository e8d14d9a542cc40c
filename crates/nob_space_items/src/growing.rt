//! Room that is made before a message is acted on.

ghost use Rattle.std.specs.Prelude.{◌≡◌, ◌-◌, ◌<◌, ◌≤◌, length, OnOk};
ghost use Rattle.nob_space_state.specs.Parts.{state_of};
ghost use Rattle.nob_space_items.specs.Growing.{AreAmong, SameEnds, HaveRoom, Grows};

use nob_ids::WireRep;
use nob_session::Session;
use nob_space_state::Parts;
use std::alloc::AllocError;

// The place of the end with a reference's owner.
pub(crate) fn place_of(rep: &WireRep) -> usize
    ensures { result ≡ rep.now.owner - 1 }
{
    rep.owner.place()
}

// Makes room for so many items at the sessions with the owners of references.
fn grow_sessions(
    sessions: &mut Vec<Session>,
    reps: &[WireRep],
    count: usize,
) -> Result<(), AllocError>
    requires { AreAmong (length sessions.old.items) reps.now }
    ensures same { SameEnds sessions.old.items sessions.new.items }
    ensures room { OnOk result (HaveRoom count sessions.new.items reps.now) }
{
    match reps {
        [] => Ok(()),
        [rep, others @ ..] => {
            let session = &mut sessions[place_of(rep)];
            if session.reserve(count).is_err() {
                return Err(AllocError);
            }
            grow_sessions(sessions, others, count)
        }
    }
}

// Makes room for a message of so many copies, and for the Dirties of these references of it. Only
// memory fails it, and the parts hold the same in any case.
pub(crate) fn grow(parts: &mut Parts, reps: &[WireRep], copies: usize) -> Result<(), AllocError>
    requires { AreAmong (length parts.old.sessions.items) reps.now }
    ensures same { Grows (state_of parts.old) (state_of parts.new) }
    ensures sessions { OnOk result (HaveRoom (length reps.now) parts.new.sessions.items reps.now) }
    ensures table { OnOk result (length reps.now ≤ parts.new.table.surrogate_room) }
    ensures waiting { OnOk result (copies < parts.new.messages.waiting.room) }
    ensures ready { OnOk result (0 < parts.new.messages.jobs.ready_room) }
    ensures replies { OnOk result (0 < parts.new.calls.replies_room) }
    ensures here { parts.new.here ≡ parts.old.here }
{
    parts.table.reserve(0, reps.len())?;
    grow_sessions(&mut parts.sessions, reps, reps.len())?;
    parts.messages.reserve_waiting(copies)?;
    parts.messages.reserve_ready(1)?;
    parts.calls.reserve_replies(1)?;
    Ok(())
}
