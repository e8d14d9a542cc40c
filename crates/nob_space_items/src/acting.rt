//! The event Act: the item at the front of an inbox is acted on.

ghost use Rattle.std.specs.Prelude.{◌≡◌, List, ◌∷◌, OnOk, OnErr, IfOk};
ghost use Rattle.nob_ids.specs.declared.limits.Limits.{Limits as LimitsOf};
ghost use Rattle.nob_model_session.specs.Right.{right_front};
ghost use Rattle.nob_model_types.specs.declared.answer.Answer.TheVariants as answers;
ghost use Rattle.nob_model_types.specs.declared.deed.Deed.{Deed};
ghost use Rattle.nob_model_types.specs.declared.deed.Deed.TheVariants as did;
ghost use Rattle.nob_model_history.specs.Ends.{calls_at};
ghost use Rattle.nob_model.specs.Right as right;
ghost use Rattle.nob_space_state.specs.Stands.{StandFor, IsState, Keeps, Did, AnswersOrWants, history_for};
ghost use Rattle.nob_space_items.specs.Acts.{ActsOrWants, act_answer, act_deed};
ghost use Rattle.nob_space_items.specs.Fronts.{IsFront};

use crate::faults::fault_of_item;
use crate::messages::act_on_message;
use crate::notes::{act_on_clean, act_on_dirty, act_on_dirty_no, act_on_dirty_ok, act_on_settle};
use nob_ids::{ItemNo, Reason, SpaceId};
use nob_item::{Item, ItemError, decode};
use nob_model::{Answer, Refusal};
use nob_pins::Settled;
use nob_space_state::{Parts, SpaceError};
use std::alloc::Global;

/// What acting on the item at the front of an inbox came to.
#[derive(Clone, Copy, Debug, PartialEq, Eq)]
pub enum ActResult {
    /// The item of this number was acted on.
    Acted(ItemNo),
    /// The item has a fault, for which the session closed.
    Closed(Reason),
}

impl ActResult {
    /// What a space answers: that the item was acted on, or that the session closed.
    pub fn to_answer(&self) -> Answer
        ensures { result ≡ act_answer self.now }
    {
        match self {
            ActResult::Acted(item) => Answer::Acted(*item),
            ActResult::Closed(reason) => Answer::Closed(*reason),
        }
    }
}

// Acts on an item without a fault.
fn act_on(
    parts: &mut Parts,
    alloc: Global,
    peer: SpaceId,
    number: ItemNo,
    item: Item,
) -> Result<(), SpaceError>
    requires state { IsState parts.old }
    requires front { (limits : LimitsOf) (D : List Deed)
        → StandFor limits parts.old D
        → IsFront parts.old.here.space parts.old.here.n peer number item D }
    ensures answer { (limits : LimitsOf) (D : List Deed)
        → StandFor limits parts.old D
        → AnswersOrWants (λ _. answers.Acted number) result
        (right.right_act parts.old.here.space parts.old.here.n peer (history_for parts.old D)) }
    ensures stands { OnOk result (Did parts.old parts.new (did.Act peer number)) }
    ensures err { OnErr result (Keeps parts.old parts.new) }
    ensures here { parts.new.here ≡ parts.old.here }
{
    match &item {
        Item::Call { .. } | Item::Reply { .. } => {}
        Item::Settle(_) => {
            let Some(settled) = Settled::of_note(peer, &item) else {
                unreachable!();
            };
            act_on_settle(parts, number, &settled);
            return Ok(());
        }
        Item::Dirty(index) => return act_on_dirty(parts, alloc, peer, number, *index),
        Item::DirtyOk(index) => {
            act_on_dirty_ok(parts, peer, number, *index);
            return Ok(());
        }
        Item::DirtyNo(index) => {
            act_on_dirty_no(parts, peer, number, *index);
            return Ok(());
        }
        Item::Clean(index) => {
            act_on_clean(parts, peer, number, *index);
            return Ok(());
        }
    }
    act_on_message(parts, alloc, peer, number, item)
}

/// Act: the item at the front of the inbox from a peer is acted on. One with a fault closes the
/// session instead. It is refused where there is no such peer, its session has closed here, or
/// nothing waits; and the item stays in the inbox where a Call or a Reply would pass a limit, or a
/// session has no number for the Dirties or the answer that it asks for. It takes memory to read a
/// Call or a Reply, for what an item leaves here, and for what is sent; a fault of what was read
/// takes none. Linear in the bytes, the pins of the item that a Settle names, and the copies of the
/// messages that wait for what a DirtyOk or a DirtyNo names, and logarithmic in the calls and the
/// listings; a fault costs what `close_for` does.
pub fn act(parts: &mut Parts, alloc: Global, peer: SpaceId) -> Result<ActResult, SpaceError>
    requires { IsState parts.old }
    ensures answer { (limits : LimitsOf) (D : List Deed)
        → StandFor limits parts.old D
        → ActsOrWants (right_front (calls_at peer (history_for parts.old D))) result
        (right.right_act parts.old.here.space parts.old.here.n peer (history_for parts.old D)) }
    ensures stands { IfOk result (λ done.
        Did parts.old parts.new
        (act_deed peer done)) }
    ensures err { OnErr result (Keeps parts.old parts.new) }
    ensures here { parts.new.here ≡ parts.old.here }
{
    if !parts.here.is_peer(peer) {
        return Err(SpaceError::Refused(Refusal::NoPeer));
    }
    if parts.has_closed(peer) {
        return Err(SpaceError::Refused(Refusal::Closed));
    }
    let Some(front) = parts.sessions[peer.place()].front() else {
        return Err(SpaceError::Refused(Refusal::Nothing));
    };
    let (number, payload) = front;
    let item = match decode(alloc, payload) {
        Ok(item) => item,
        Err(ItemError::OutOfMemory) => return Err(SpaceError::OutOfMemory),
        Err(ItemError::Fault(_)) => {
            parts.close_for(peer, Reason::BadItem);
            return Ok(ActResult::Closed(Reason::BadItem));
        }
    };
    if let Some(reason) = fault_of_item(parts, peer, &item) {
        parts.close_for(peer, reason);
        return Ok(ActResult::Closed(reason));
    }
    act_on(parts, alloc, peer, number, item)?;
    Ok(ActResult::Acted(number))
}
