//! Acting on a Call or a Reply.

ghost use Rattle.std.specs.Prelude.{◌≡◌, ◌≤◌, ◌-◌, ◌^◌, ◌&&◌, not, min, List, length, Some, None, IfOk, OnOk, OnErr, MatchResult};
ghost use Rattle.std.specs.List.{list_all, list_any};
ghost use Rattle.nob_ids.specs.Names.{is_same};
ghost use Rattle.nob_ids.specs.declared.limits.Limits.{Limits as LimitsOf};
ghost use Rattle.nob_item.specs.Kinds.{counted_in};
ghost use Rattle.nob_model_types.specs.declared.answer.Answer.TheVariants as answers;
ghost use Rattle.nob_model_types.specs.declared.deed.Deed.{Deed};
ghost use Rattle.nob_model_types.specs.declared.deed.Deed.TheVariants as did;
ghost use Rattle.nob_model.specs.Right as right;
ghost use Rattle.nob_model_acting.specs.Acting as acting;
ghost use Rattle.nob_table_rows.specs.Standings as standings;
ghost use Rattle.nob_space_state.specs.Parts.{state_of};
ghost use Rattle.nob_space_state.specs.Stands.{StandFor, IsState, Keeps, Did, AnswersOrWants, history_for};
ghost use Rattle.nob_space_items.specs.Fronts.{IsFront};
ghost use Rattle.nob_space_items.specs.Messages as specs;
ghost use Rattle.nob_space_items.specs.Messages.{KnowsSurrogates};
ghost use Rattle.nob_space_items.specs.Placing.{IsMessage};

use crate::copies::new_copies;
use crate::dirties::new_dirties;
use crate::few::FewRefs;
use crate::growing::grow;
use crate::receiving::receive;
use nob_ids::{ItemNo, SpaceId, WireRep};
use nob_item::{Item, counted_ref};
use nob_model::{Message, Refusal};
use nob_model_acting::acting::{MOST_MESSAGES, MOST_SURROGATES};
use nob_space_state::{Parts, SpaceError};
use nob_table::State;
use std::alloc::Global;

// Whether a standing is that of a surrogate on an open session.
fn is_surrogate(state: State) -> bool
    ensures { result ≡ standings.is_surrogate state }
{
    match state {
        State::Pending | State::Granted | State::Refused => true,
        State::Unknown | State::Live | State::Withdrawn | State::Lost => false,
    }
}

// Whether a reference gets a Dirty.
fn is_wanted(parts: &Parts, rep: &WireRep) -> bool
    ensures { result ≡ specs.is_wanted parts.now.here.space parts.now.here.n (state_of parts.now) rep.now }
{
    let standing = parts.table.state(*rep);
    let surrogate = is_surrogate(standing.state);
    let closed = parts.has_closed(rep.owner);
    parts.here.is_peer(rep.owner) && !closed && !surrogate
}

// Whether a reference stands among some.
fn has(reps: &[WireRep], rep: &WireRep) -> bool
    ensures { result ≡ list_any (is_same rep.now) reps.now }
{
    reps.iter().any(|other| *rep == *other)
}

// Whether a reference gets a Dirty that none of those before got.
fn is_next(parts: &Parts, before: &[WireRep], rep: &WireRep) -> bool
    ensures { result ≡ (specs.is_wanted parts.now.here.space parts.now.here.n
        (state_of parts.now) rep.now && not (list_any (is_same rep.now) before.now)) }
{
    is_wanted(parts, rep) && !has(before, rep)
}

// The references of an item that get Dirties, each once, in reading order. An item carries 32 at
// most.
fn wanted_refs(parts: &Parts, item: &Item) -> FewRefs
    requires { length (counted_in item.now) ≤ 32 }
    ensures { result ≡ specs.wanted_refs parts.now.here.space parts.now.here.n (state_of parts.now)
        (counted_in item.now) }
{
    let mut wanted = FewRefs::new(WireRep {
        owner: parts.here.space,
        index: 0,
    });
    let mut number = 0;
    while let Some(rep) = counted_ref(item, number) {
        if is_next(parts, wanted.as_slice(), &rep) {
            wanted.push(rep);
        }
        number += 1;
    }
    wanted
}

// How many messages there are, as far as that can be counted.
fn message_count(parts: &Parts) -> u64
    ensures { result ≡ min (acting.messages (state_of parts.now).work) (2 ^ 64 - 1) }
{
    let waiting = parts.messages.waiting_len() as u64;
    let ready = parts.messages.ready_len() as u64;
    let running = parts.messages.running_len() as u64;
    let replies = parts.calls.replies_len() as u64;
    waiting
        .saturating_add(ready)
        .saturating_add(running)
        .saturating_add(replies)
}

// How many of some references a space owns.
fn owner_count(owner: SpaceId, reps: &[WireRep]) -> usize
    ensures value { result ≡ specs.owner_count owner reps.now }
    ensures bound { result ≤ length reps.now }
{
    match reps {
        [] => 0,
        [rep, others @ ..] => {
            let rest = owner_count(owner, others);
            if rep.owner == owner { rest + 1 } else { rest }
        }
    }
}

// Whether the session with a reference's owner has numbers free for the Dirties of all that it owns
// among these.
fn has_numbers_for(parts: &Parts, reps: &[WireRep], rep: &WireRep) -> bool
    ensures { result ≡ specs.has_numbers_for (state_of parts.now) reps.now rep.now }
{
    match parts.sessions.get(rep.owner.place()) {
        Some(session) => owner_count(rep.owner, reps) as u64 <= session.free_numbers(),
        None => false,
    }
}

// Whether each of their sessions has.
fn have_numbers(parts: &Parts, reps: &[WireRep]) -> bool
    ensures { result ≡ list_all (specs.has_numbers_for (state_of parts.now) reps.now) reps.now }
{
    reps.iter().all(|rep| has_numbers_for(parts, reps, rep))
}

// Why a Call or a Reply stays in the inbox, where these references get Dirties. It takes no memory.
#[tactic(auto, unfolding(crate::specs::Messages::message_refusal))]
fn refuse_message(parts: &Parts, reps: &[WireRep]) -> Result<(), Refusal>
    ensures known { KnowsSurrogates parts.now.table }
    ensures refusal { MatchResult result
        (λ _. specs.message_refusal (state_of parts.now) reps.now ≡ None)
        (λ refusal. specs.message_refusal (state_of parts.now) reps.now ≡ Some refusal) }
{
    let surrogates = parts.table.surrogate_count() as u64;
    if message_count(parts) >= MOST_MESSAGES as u64 {
        return Err(Refusal::Limit);
    }
    if surrogates + reps.len() as u64 > MOST_SURROGATES as u64 {
        return Err(Refusal::Limit);
    }
    if !have_numbers(parts, reps) {
        return Err(Refusal::SeqEnd);
    }
    Ok(())
}

// The references of a Call or a Reply that get Dirties, or why it stays in the inbox. It takes no
// memory.
fn judge_message(parts: &Parts, item: &Item) -> Result<FewRefs, Refusal>
    requires few { length (counted_in item.now) ≤ 32 }
    ensures wanted { IfOk result (λ reps. reps
        ≡ specs.wanted_refs parts.now.here.space parts.now.here.n (state_of parts.now) (counted_in item.now)) }
    ensures free { IfOk result (λ reps. specs.message_refusal (state_of parts.now) reps ≡ None) }
    ensures answer { (limits : LimitsOf) (D : List Deed)
        → StandFor limits parts.now D
        → MatchResult result (λ _. acting.message_refusal parts.now.here.space parts.now.here.n item.now
        (history_for parts.now D) ≡ None)
        (λ refusal. acting.message_refusal parts.now.here.space parts.now.here.n item.now
        (history_for parts.now D) ≡ Some refusal) }
{
    let wanted = wanted_refs(parts, item);
    refuse_message(parts, wanted.as_slice())?;
    Ok(wanted)
}

/// Acts on a Call or a Reply from a peer that has no fault: its references that have no surrogate
/// get Dirties, its loans are made as far as they can be, and it waits for its references or is
/// ready. It stays in the inbox where a limit or the numbers of a session forbid it, and then
/// nothing was sent. Linear in its value times its references, of which there are 32 at most, and
/// logarithmic in the calls.
pub(crate) fn act_on_message(
    parts: &mut Parts,
    alloc: Global,
    peer: SpaceId,
    number: ItemNo,
    item: Item,
) -> Result<(), SpaceError>
    requires state { IsState parts.old }
    requires message { IsMessage item }
    requires front { (limits : LimitsOf) (D : List Deed)
        → StandFor limits parts.old D
        → IsFront parts.old.here.space parts.old.here.n peer number item D }
    ensures answer { (limits : LimitsOf) (D : List Deed)
        → StandFor limits parts.old D
        → AnswersOrWants (λ _. answers.Acted number) result
        (right.right_act parts.old.here.space parts.old.here.n peer (history_for parts.old D)) }
    ensures stands { OnOk result (Did parts.old parts.new (did.Act peer number)) }
    ensures err { OnErr result (Keeps parts.old parts.new) }
    ensures here { parts.new.here ≡ parts.old.here }
{
    // There are few spaces, and so what was ever asked of all of them can be counted.
    let _spaces = parts.here.n;
    let session = parts.number(peer);
    let wanted = judge_message(parts, &item)?;
    let dirties = new_dirties(alloc, wanted.as_slice())?;
    let copies = new_copies(parts, alloc, &item)?;
    grow(parts, wanted.as_slice(), copies.as_slice().len())?;
    let message = Message {
        from: peer,
        session,
        number,
        item,
        copies,
    };
    receive(parts, message, dirties);
    Ok(())
}
