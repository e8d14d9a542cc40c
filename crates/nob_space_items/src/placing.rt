//! Where a message goes that was acted on.

ghost use Rattle.std.specs.Prelude.{◌≡◌, ◌<◌, ◌||◌, [], ◌∷◌, length};
ghost use Rattle.nob_ids.specs.declared.wire_rep.WireRep.{WireRep as WireRepOf};
ghost use Rattle.nob_model_work.specs.Work.{after_message};
ghost use Rattle.nob_space_messages.specs.Waiting.{is_awaited, is_due_in, IsNew};
ghost use Rattle.nob_space_state.specs.Parts.{state_of, with_awaited, with_work};
ghost use Rattle.nob_space_items.specs.Placing.{answered_call, IsMessage};

use nob_ids::CallNo;
use nob_item::Item;
use nob_model::Message;
use nob_space_state::Parts;

// The call that a Reply answers.
fn answered_call(item: &Item) -> Option<CallNo>
    ensures { result ≡ answered_call item.now }
{
    match item {
        Item::Reply { call, .. } => Some(*call),
        Item::Call { .. }
        | Item::Settle(_)
        | Item::Dirty(_)
        | Item::DirtyOk(_)
        | Item::DirtyNo(_)
        | Item::Clean(_) => None,
    }
}

// Puts a message where it goes: without references a Call is a ready job and a Reply is ready, else
// they wait; a Reply answers its call. It takes no memory.
#[tactic(auto, unfolding(nob_model_work::specs::Work::after_message))]
pub(crate) fn put_message(parts: &mut Parts, message: Message)
    requires message { IsMessage message.item }
    requires waiting { length message.copies < parts.old.messages.waiting.room }
    requires ready { 0 < parts.old.messages.jobs.ready_room }
    requires replies { 0 < parts.old.calls.replies_room }
    requires new { IsNew parts.old.messages.waiting message }
    ensures state { state_of parts.new ≡ with_awaited parts.new.messages.waiting.awaited (with_work
        (after_message message message.item (state_of parts.old).work) (state_of parts.old).calls
        (state_of parts.old).jobs (state_of parts.old)) }
    ensures awaited { (rep : WireRepOf) → is_awaited parts.new.messages.waiting.awaited rep
        ≡ (is_awaited parts.old.messages.waiting.awaited rep || is_due_in (message ∷ []) rep) }
    ensures here { parts.new.here ≡ parts.old.here }
{
    let waits = !message.copies.as_slice().is_empty();
    let Some(call) = answered_call(&message.item) else {
        if waits {
            parts.messages.push_waiting(message);
            return;
        }
        parts.messages.push_ready(message);
        return;
    };
    parts.calls.answer(message.from, call);
    if waits {
        parts.messages.push_waiting(message);
        return;
    }
    parts.calls.push_reply(message);
}
