//! The faults of an item, by the state. None takes memory.

ghost use Rattle.std.specs.Prelude.{◌≡◌, not};
ghost use Rattle.std.specs.List.{list_any};
ghost use Rattle.nob_item.specs.Spelling.{Fits};
ghost use Rattle.nob_model_acting.specs.Acting as words;
ghost use Rattle.nob_model.specs.Right.{own_ref};
ghost use Rattle.nob_space_state.specs.Looks.{is_gone};
ghost use Rattle.nob_space_state.specs.Parts.{state_of};
ghost use Rattle.nob_space_items.specs.Judging.{carries_none, was_never_given, awaits_answer, item_fault};

use nob_ids::{CallNo, Reason, SpaceId, WireRep};
use nob_item::{Item, counted_ref};
use nob_space_state::Parts;
use nob_table::State;

// Whether an item carries a reference to an object of this space that isn't live.
fn carries_none(parts: &Parts, item: &Item) -> bool
    requires { Fits item.now }
    ensures { result ≡ carries_none parts.now.here.space (state_of parts.now) item.now }
{
    let mut number = 0;
    while let Some(rep) = counted_ref(item, number) {
        if parts.is_gone(&rep) {
            return true;
        }
        number += 1;
    }
    false
}

// Whether an index was never given to an object of this space.
fn was_never_given(parts: &Parts, index: u64) -> bool
    ensures { result ≡ was_never_given parts.now.here.space index (state_of parts.now) }
{
    let standing = parts.table.state(WireRep {
        owner: parts.here.space,
        index,
    });
    matches!(standing.state, State::Unknown)
}

// Whether a Dirty to a peer for the object of an index waits for its answer.
fn awaits_answer(parts: &Parts, peer: SpaceId, index: u64) -> bool
    ensures { result ≡ awaits_answer peer index (state_of parts.now) }
{
    let standing = parts.table.state(WireRep { owner: peer, index });
    let state = standing.state;
    index != 0 && state.is_pending()
}

// A fault where a test holds.
fn fault_if(test: bool, reason: Reason) -> Option<Reason>
    ensures { result ≡ words.fault_if test reason }
{
    if test { Some(reason) } else { None }
}

// The fault of a Call of a target.
fn fault_of_call(parts: &Parts, target: u64, item: &Item) -> Option<Reason>
    requires { Fits item.now }
    ensures { result ≡ words.first_fault
        (words.fault_if (is_gone parts.now.here.space parts.now.table (own_ref parts.now.here.space target)) Reason.BadReference)
        (words.fault_if (carries_none parts.now.here.space (state_of parts.now) item.now) Reason.BadReference) }
{
    let rep = WireRep {
        owner: parts.here.space,
        index: target,
    };
    if parts.is_gone(&rep) {
        return Some(Reason::BadReference);
    }
    fault_if(carries_none(parts, item), Reason::BadReference)
}

// The fault of a Reply to a call.
fn fault_of_reply(parts: &Parts, peer: SpaceId, call: CallNo, item: &Item) -> Option<Reason>
    requires { Fits item.now }
    ensures { result ≡ words.first_fault
        (words.fault_if (not (list_any (words.awaits_reply peer call) parts.now.calls.calls))
        Reason.OutOfPlace) (words.fault_if
        (carries_none parts.now.here.space (state_of parts.now) item.now) Reason.BadReference) }
{
    if !parts.calls.awaits(peer, call) {
        return Some(Reason::OutOfPlace);
    }
    fault_if(carries_none(parts, item), Reason::BadReference)
}

// The first fault of an item from a peer. Linear in the item, and logarithmic in the calls.
#[tactic(auto, unfolding(crate::specs::Judging::item_fault))]
pub(crate) fn fault_of_item(parts: &Parts, peer: SpaceId, item: &Item) -> Option<Reason>
    requires { Fits item.now }
    ensures { result ≡ item_fault parts.now.here.space peer item.now (state_of parts.now) }
{
    match item {
        Item::Call { target, .. } => fault_of_call(parts, *target, item),
        Item::Reply { call, .. } => fault_of_reply(parts, peer, *call, item),
        Item::Settle(sent) => fault_if(!parts.pins.has(peer, *sent), Reason::OutOfPlace),
        Item::Dirty(index) | Item::Clean(index) => fault_if(
            was_never_given(parts, *index),
            Reason::BadReference,
        ),
        Item::DirtyOk(index) | Item::DirtyNo(index) => fault_if(
            !awaits_answer(parts, peer, *index),
            Reason::OutOfPlace,
        ),
    }
}
