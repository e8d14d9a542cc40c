//! Acting on a Call or a Reply once there is room for all.

ghost use Rattle.std.specs.Prelude.{◌≡◌, ◌<◌, ◌≤◌, length};
ghost use Rattle.nob_space_messages.specs.Waiting.{IsNew};
ghost use Rattle.nob_space_state.specs.Parts.{state_of};
ghost use Rattle.nob_space_items.specs.Receiving.{HasFront, Takes, CanReceive, Receives};

use crate::dirties::{NewDirty, send_dirties};
use crate::loans::lend_message;
use crate::placing::put_message;
use nob_ids::SpaceId;
use nob_model::Message;
use nob_session::Session;
use nob_space_state::Parts;

// Takes the item in front of the inbox from a peer.
fn take_front(sessions: &mut Vec<Session>, peer: SpaceId)
    requires peer { peer ≤ length sessions.old.items }
    requires front { HasFront sessions.old.items peer }
    ensures { Takes sessions.old.items sessions.new.items peer }
{
    let session = &mut sessions[peer.place()];
    session.take();
}

// Receives a message for which there is room: the Dirties are sent, its loans are made, and it is
// put where it goes.
pub(crate) fn receive(parts: &mut Parts, message: Message, dirties: Vec<NewDirty>)
    requires can { CanReceive parts.old.here.space (state_of parts.old) message dirties.items }
    requires waiting { length message.copies < parts.old.messages.waiting.room }
    requires ready { 0 < parts.old.messages.jobs.ready_room }
    requires replies { 0 < parts.old.calls.replies_room }
    requires new { IsNew parts.old.messages.waiting message }
    ensures receives { Receives parts.old.here.space (state_of parts.old)
        (state_of parts.new) message dirties.items }
    ensures here { parts.new.here ≡ parts.old.here }
{
    let peer = message.from;
    send_dirties(&mut parts.sessions, &mut parts.table, dirties);
    lend_message(&mut parts.table, parts.here.space, &message);
    put_message(parts, message);
    take_front(&mut parts.sessions, peer);
}
