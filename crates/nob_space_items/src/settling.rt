//! Settling the messages that wait for their references: Settle.

ghost use Rattle.std.specs.Prelude.{◌≡◌, ◌<◌, ◌≤◌, ℕ, ◌+◌, List, [], ◌∷◌, ◌++◌, if◌then◌else◌, true, false, None, Some, Ok, vec_len, find, option_map, IfOk, IfSome, OnOk, OnErr};
ghost use Rattle.nob_ids.specs.declared.limits.Limits.{Limits as LimitsOf};
ghost use Rattle.nob_item.specs.Judging.{is_call_number};
ghost use Rattle.nob_model_session.specs.End.{last_item};
ghost use Rattle.nob_model_session.specs.declared.entry.EndEntry.{EndEntry};
ghost use Rattle.nob_model_session.specs.declared.entry.EndEntry.TheVariants.{Send};
ghost use Rattle.nob_model_types.specs.declared.answer.Answer.TheVariants as answers;
ghost use Rattle.nob_model_types.specs.declared.deed.Deed.{Deed};
ghost use Rattle.nob_model_types.specs.declared.deed.Deed.TheVariants as did;
ghost use Rattle.nob_model_work.specs.Work.{after_settlement, lost_reply};
ghost use Rattle.nob_model_history.specs.Ends.{payload_of};
ghost use Rattle.nob_model_history.specs.Holds.{loans_of};
ghost use Rattle.nob_model.specs.Right as right;
ghost use Rattle.nob_session.specs.Stands as ends;
ghost use Rattle.nob_session.specs.Stands.{is_open_end};
ghost use Rattle.nob_space_state.specs.Parts.{state_of, with_table, with_work};
ghost use Rattle.nob_space_state.specs.Returns.{HasLent, GivesBack};
ghost use Rattle.nob_space_state.specs.Stands.{StandFor, IsState, Keeps, Did, AnswersOrWants, history_for};
ghost use Rattle.nob_model_types.specs.declared.message.Message.{Message as MessageOf};
ghost use Rattle.nob_space_messages.specs.Waiting.{is_settleable_in};
ghost use Rattle.nob_space_items.specs.Settling.{becomes_job, without_settled, is_denied, is_lost_here, has_lost, lost_call, reply_to_lost, given_count, with_note, loans_ended};

use nob_ids::{CallNo, ItemNo, SpaceId, WireRep};
use nob_item::Item;
use nob_model::{Kind, Message, RefCopy, Refusal};
use nob_model_types::List;
use nob_pickle::Value;
use nob_session::Session;
use nob_space_calls::Calls;
use nob_space_state::{Parts, SpaceError, encode_note, give_back_message, send_reserved};
use nob_table::{ObjectTable, State};
use std::alloc::{AllocError, Global};

/// A Call or a Reply that is settled: its references are all resolved.
#[derive(Clone, Copy, Debug, PartialEq, Eq)]
pub struct SettledItem {
    /// The space that sent it.
    pub peer: SpaceId,
    /// The number of its item.
    pub item: ItemNo,
}

// Whether it is a surrogate that its owner has refused.
fn is_denied(state: State) -> bool
    ensures { result ≡ is_denied state }
{
    match state {
        State::Refused => true,
        _ => false,
    }
}

/// Whether a reference is lost: it is of another owner, and that is none of the spaces, or their
/// session has closed, or the owner has refused it.
pub fn is_lost(parts: &Parts, rep: &WireRep) -> bool
    ensures { result ≡ is_lost_here parts.now.here.space parts.now.here.n (state_of parts.now) rep.now }
{
    if rep.owner == parts.here.space {
        return false;
    }
    if !parts.here.is_peer(rep.owner) {
        return true;
    }
    if parts.has_closed(rep.owner) {
        return true;
    }
    let standing = parts.table.state(*rep);
    is_denied(standing.state)
}

// Whether a message carries a reference that is lost.
fn has_lost(parts: &Parts, message: &Message) -> bool
    ensures { result ≡ has_lost parts.now.here.space parts.now.here.n (state_of parts.now) message.now }
{
    message
        .copies
        .as_slice()
        .iter()
        .any(|copy| is_lost(parts, &copy.rep))
}

// The number of a Call with a lost reference.
fn lost_call(item: &Item, lost: bool) -> Option<CallNo>
    ensures { result ≡ lost_call item.now lost }
{
    match item {
        Item::Call { call, .. } => {
            if lost {
                return Some(*call);
            }
            None
        }
        _ => None,
    }
}

// How many items settling gives.
fn given_count(call: &Option<CallNo>) -> u64
    ensures { result ≡ given_count call.now }
{
    match call {
        Some(_) => 2,
        None => 1,
    }
}

// The Reply to a Call with a lost reference.
fn reply_to_lost(call: CallNo) -> Item
    ensures { result ≡ reply_to_lost call }
{
    Item::Reply {
        call,
        status: 3,
        value: Value::Unit,
    }
}

// The payload that carries the Reply to a Call with a lost reference, where there is one. Only memory
// fails it.
#[tactic(auto, using(crate::proofs::Numbering::reply_spelled))]
fn payload_if(alloc: Global, call: Option<CallNo>) -> Result<Option<Vec<u8>>, AllocError>
    requires { IfSome call (λ k. is_call_number k ≡ true) }
    ensures spelled { IfOk result (λ reply. option_map (λ payload. payload.items) reply
        ≡ option_map (λ k. payload_of (reply_to_lost k)) call) }
    ensures size { IfOk result (λ reply.
        IfSome reply (λ payload. (0 < vec_len payload) × (vec_len payload ≤ 16384))) }
{
    let Some(call) = call else {
        return Ok(None);
    };
    Ok(Some(encode_note(alloc, &reply_to_lost(call))?))
}

// Sends a Settle to the peer of a session, and a Reply where there is one. Only memory fails it.
fn send_notes(
    session: &mut Session,
    settle: Vec<u8>,
    reply: Option<Vec<u8>>,
) -> Result<(), AllocError>
    requires settle { (0 < vec_len settle) × (vec_len settle ≤ 16384) }
    requires reply { IfSome reply (λ payload. (0 < vec_len payload) × (vec_len payload ≤ 16384)) }
    requires open { is_open_end session.old.end ≡ true }
    requires free { session.old.end.handed + given_count (option_map (λ payload. 0) reply)
        ≤ last_item }
    ensures answer { (me peer : ℕ) (limits : LimitsOf) (L : List EndEntry)
        → ends.Stands me peer limits session.old.end L
        → OnOk result (ends.Stands me peer limits session.new.end
        (with_note (session.old.end.handed + 2) (option_map (λ payload. payload.items) reply)
        (Send settle.items Kind.Note (Ok (session.old.end.handed + 1)) ∷ L))) }
    ensures err { OnErr result (session.new.end ≡ session.old.end) }
{
    if session.reserve(2).is_err() {
        return Err(AllocError);
    }
    send_reserved(session, settle, Kind::Note);
    if let Some(payload) = reply {
        send_reserved(session, payload, Kind::Note);
    }
    Ok(())
}

// Whether a message that is settled is a ready job from now on: a Call without a lost reference.
fn becomes_job(item: &Item, lost: bool) -> bool
    ensures { result ≡ becomes_job item.now lost }
{
    match item {
        Item::Call { .. } => !lost,
        _ => false,
    }
}

// Puts a Reply that is settled to the ready replies, or one of status 3 where a reference of it is
// lost: then what it lent is given back.
fn put_reply(
    alloc: Global,
    table: &mut ObjectTable,
    calls: &mut Calls,
    me: SpaceId,
    message: Message,
    call: CallNo,
    lost: bool,
)
    requires lent { lost ≡ true → HasLent table.old (loans_of me message) }
    requires room { 0 < calls.old.replies_room }
    ensures back { GivesBack table.old table.new (if lost then loans_of me message else []) }
    ensures replies { calls.new.replies ≡ calls.old.replies ++
        (if lost then lost_reply message call else message) ∷ [] }
    ensures calls { calls.new.calls ≡ calls.old.calls }
{
    if !lost {
        calls.push_reply(message);
        return;
    }
    give_back_message(table, me, &message);
    let reply = Message {
        from: message.from,
        session: message.session,
        number: message.number,
        item: Item::Reply {
            call,
            status: 3,
            value: Value::Unit,
        },
        copies: List::from_vec(Vec::new(alloc)),
    };
    calls.push_reply(reply);
}

// Puts a message that is settled and is no job where it goes: a Reply to the ready replies; any other is
// over, and what it lent is given back.
fn put_settled(parts: &mut Parts, alloc: Global, message: Message, lost: bool)
    requires other { becomes_job message.item lost ≡ false }
    requires lent { HasLent parts.old.table (loans_ended parts.old.here.space message message.item lost) }
    requires replies { 0 < parts.old.calls.replies_room }
    ensures back { GivesBack parts.old.table parts.new.table
        (loans_ended parts.old.here.space message message.item lost) }
    ensures put { state_of parts.new ≡ with_work
        (after_settlement message message.item lost (state_of parts.old).work) parts.old.calls_made
        parts.old.jobs_made (with_table parts.new.table (state_of parts.old)) }
    ensures here { parts.new.here ≡ parts.old.here }
{
    match &message.item {
        Item::Reply { call, .. } => {
            let call = *call;
            put_reply(
                alloc,
                &mut parts.table,
                &mut parts.calls,
                parts.here.space,
                message,
                call,
                lost,
            )
        }
        _ => give_back_message(&mut parts.table, parts.here.space, &message),
    }
}

// The first message that may be settled goes where it goes, once it is told so to its sender: a
// Call without a lost reference is a ready job, and stays where it stands.
fn put_first(parts: &mut Parts, alloc: Global, lost: bool)
    requires lent { (message : MessageOf)
        → find (is_settleable_in parts.old.messages.waiting) parts.old.messages.waiting.items
        ≡ Some message
        → HasLent parts.old.table (loans_ended parts.old.here.space message message.item lost) }
    requires ready { 0 < parts.old.messages.jobs.settled_room }
    requires replies { 0 < parts.old.calls.replies_room }
    ensures back { (message : MessageOf)
        → find (is_settleable_in parts.old.messages.waiting) parts.old.messages.waiting.items
        ≡ Some message
        → GivesBack parts.old.table parts.new.table
        (loans_ended parts.old.here.space message message.item lost) }
    ensures put { (message : MessageOf)
        → find (is_settleable_in parts.old.messages.waiting) parts.old.messages.waiting.items
        ≡ Some message
        → state_of parts.new ≡ with_work (after_settlement message message.item lost
        (without_settled parts.old.messages.waiting (state_of parts.old).work))
        parts.old.calls_made parts.old.jobs_made
        (with_table parts.new.table (state_of parts.old)) }
    ensures here { parts.new.here ≡ parts.old.here }
{
    let Some(message) = parts.messages.first_settleable() else {
        return;
    };
    if becomes_job(&message.item, lost) {
        parts.messages.settle();
        return;
    }
    let Some(message) = parts.messages.take_settleable() else {
        unreachable!();
    };
    put_settled(parts, alloc, message, lost);
}

/// Settle: the first message, in order of acting, whose references are all resolved, that is own,
/// granted on an open session, or lost, is settled: its sender is told so by an item. A Call
/// becomes a ready job and a Reply a ready reply; where a reference is lost a Call is answered by a
/// Reply of status 3 and is over, a Reply becomes one of status 3, and what they lent is given
/// back. Nothing where there is none, SeqEnd where the session has too few numbers left. A few words
/// of bits and a look for the message, however many wait, and linear in its references.
pub fn settle(parts: &mut Parts, alloc: Global) -> Result<SettledItem, SpaceError>
    requires { IsState parts.old }
    ensures answer { (limits : LimitsOf) (D : List Deed)
        → StandFor limits parts.old D
        → AnswersOrWants (λ settled. answers.Settled settled.peer settled.item) result
        (right.right_settle parts.old.here.space parts.old.here.n (history_for parts.old D)) }
    ensures stands { IfOk result (λ settled.
        Did parts.old parts.new
        (did.Settle settled.peer settled.item)) }
    ensures err { OnErr result (Keeps parts.old parts.new) }
    ensures here { parts.new.here ≡ parts.old.here }
{
    let Some(message) = parts.messages.first_settleable() else {
        return Err(SpaceError::Refused(Refusal::Nothing));
    };
    let peer = message.from;
    let item = message.number;
    let lost = has_lost(parts, message);
    let call = lost_call(&message.item, lost);
    let at = peer.place();
    if parts.sessions[at].free_numbers() < given_count(&call) {
        return Err(SpaceError::Refused(Refusal::SeqEnd));
    }
    let settle = encode_note(alloc, &Item::Settle(item))?;
    let reply = payload_if(alloc, call)?;
    parts.messages.reserve_settled(1)?;
    parts.calls.reserve_replies(1)?;
    let session = &mut parts.sessions[at];
    send_notes(session, settle, reply)?;
    put_first(parts, alloc, lost);
    Ok(SettledItem { peer, item })
}
