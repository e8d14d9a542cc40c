//! A short caller of each crate that a space stands on, as their READMEs show it.
#![tactic(auto)]

ghost use Rattle.std.specs.Prelude.{◌≡◌, ◌≢◌, ◌↔◌, ◌<◌, ◌≤◌, ◌∷◌, [], true, false, List, ℕ, length, vec_len, Ok, Err, None, Some, IsSome, IsOk, IfOk, IfErr, IfSome, OnOk, OnErr, MatchOption, MatchResult};
ghost use Rattle.byteorder.specs.Endian.{big_number};
ghost use Rattle.nob_dirty.specs.Sets.{IsEmptyAt, Leaves};
ghost use Rattle.nob_frame.specs.Streams.{Answers, Kept, Splits};
ghost use Rattle.nob_frame.specs.declared.fault.FrameError.TheVariants as frame_errors;
ghost use Rattle.nob_frame.specs.declared.frame.Frame.{Frame as FrameOf};
ghost use Rattle.nob_ids.specs.Names.{IsSpace};
ghost use Rattle.nob_item.specs.Judging.{Fails as ItemFails};
ghost use Rattle.nob_item.specs.Kinds.{counted_in, is_note};
ghost use Rattle.nob_item.specs.Reading.{item_read};
ghost use Rattle.nob_item.specs.Spelling.{Spelt as ItemSpelt};
ghost use Rattle.nob_item.specs.declared.item.Item.{Item as ItemOf};
ghost use Rattle.nob_item.specs.declared.item.Item.TheVariants.{Settle};
ghost use Rattle.nob_model_session.specs.declared.entry.Kind.TheVariants as KindOf;
ghost use Rattle.nob_pickle.specs.Limits.{Fits as PickleFits};
ghost use Rattle.nob_pickle.specs.Spelling.{spelling};
ghost use Rattle.nob_pickle.specs.Writing.{Gives as PickleGives, pickle_of};
ghost use Rattle.nob_pickle.specs.declared.fault.PickleError.TheVariants as pickle_errors;
ghost use Rattle.nob_pins.specs.Bundles.{TakesOut, Unchanged, has_bundle};
ghost use Rattle.nob_pins.specs.Evidence.{settled_by};
ghost use Rattle.nob_session.specs.Answers.{Answered};
ghost use Rattle.nob_session.specs.Calls.{next_of, with_item};
ghost use Rattle.nob_session.specs.declared.error.SessionError.TheVariants as session_errors;
ghost use Rattle.nob_table.specs.Standings.{withdrawn};
ghost use Rattle.nob_table.specs.Table.{own, Becomes, IsFirstUnheld, NeverUnheld, WithdrawalLeaves};

use nob_bytes::take_u16;
use nob_dirty::DirtySets;
use nob_frame::{Feed, Frame, FrameError};
use nob_ids::{ItemNo, SpaceId, WireRep};
use nob_item::{Item, ItemError, counted_refs};
use nob_pickle::{PickleError, Value};
use nob_pins::{PinFault, PinTable, Settled};
use nob_session::{Kind, Session, SessionError};
use nob_table::ObjectTable;
use std::alloc::Global;

/// The reference to an object of the space with this number: None where no space has it.
pub fn reference(owner: u16, index: u64) -> Option<WireRep>
    ensures space { IsSome result ↔ IsSpace owner }
    ensures rep { IfSome result (λ rep. rep ≡ record { owner = owner; index = index }) }
{
    Some(WireRep {
        owner: SpaceId::new(owner)?,
        index,
    })
}

/// The length in the first two bytes: None where there are fewer.
pub fn length_in_front(bytes: &[u8]) -> Option<u16>
    ensures { MatchOption result (length bytes.now < 2)
        (λ len. (2 ≤ length bytes.now) × (len ≡ big_number 2 bytes.now)) }
{
    match take_u16(bytes, ()) {
        Ok((len, _rest)) => Some(len),
        Err(()) => None,
    }
}

/// The value once more, by its pickle: where it has one only memory fails it, and else it is
/// refused as a pickle.
pub fn by_pickle(alloc: Global, value: &Value) -> Result<Value, PickleError>
    ensures same { IfOk result (λ copy. copy ≡ value.now) }
    ensures exact { PickleGives spelling result (pickle_of value.now) }
    ensures fits { PickleFits value.now → IfErr result (λ e. e ≡ pickle_errors.OutOfMemory) }
    ensures memory { IfErr result (λ e. e ≡ pickle_errors.OutOfMemory → PickleFits value.now) }
{
    let bytes = nob_pickle::encode(alloc, value)?;
    nob_pickle::decode(alloc, bytes.as_slice())
}

/// The frames in front of the bytes, which are the only ones that they can be, or the fault of what
/// stands behind them. An empty text takes no memory.
pub fn frames_of(alloc: Global, bytes: &[u8]) -> Result<Vec<Frame>, FrameError>
    // It is what a new Feed answers to the bytes as its first piece, whatever that leaves.
    ensures answer { (left : Kept) × Answers (λ given. given.items) (Ok []) bytes.now result left }
    ensures only { (frames : List FrameOf) (rest : List ℕ) → Splits bytes.now frames rest
        → IfOk result (λ given. given.items ≡ frames) }
    ensures memory { IfErr result (λ e. e ≡ frame_errors.OutOfMemory → bytes.now ≢ []) }
{
    let mut feed = Feed::new(alloc);
    feed.push(bytes)
}

/// The counted references of the item that the bytes spell: else they are refused as an item is.
pub fn counted_by(alloc: Global, bytes: &[u8]) -> Result<Vec<WireRep>, ItemError>
    ensures counted { IfOk result (λ refs. (item : ItemOf) × ItemSpelt bytes.now item
        × (refs.items ≡ counted_in item)) }
    ensures only { (item : ItemOf) → ItemSpelt bytes.now item
        → IfOk result (λ refs. refs.items ≡ counted_in item) }
    ensures refused { IfErr result (λ e. ItemFails e (item_read bytes.now)) }
    // A note takes no memory.
    ensures memory { (item : ItemOf) → ItemSpelt bytes.now item → is_note item ≡ true
        → IsOk result }
{
    let item = nob_item::decode(alloc, bytes)?;
    Ok(counted_refs(alloc, &item)?)
}

/// Hands a note to the end: judged first, then room, then the change, which can't fail. It takes no
/// memory where the end has room.
pub fn send_note(session: &mut Session, note: Vec<u8>) -> Result<ItemNo, SessionError>
    requires { (0 < vec_len note) × (vec_len note ≤ 16384) }
    ensures next { Answered (λ number. number) result
        (λ answer. answer ≡ next_of KindOf.Note session.old.end) }
    ensures handed { OnOk result (session.new.end ≡ with_item session.old.end note.items) }
    ensures err { OnErr result (session.new.end ≡ session.old.end) }
    ensures memory_last { result ≡ Err session_errors.OutOfMemory
        → IsOk (next_of KindOf.Note session.old.end) }
    ensures reserved { 0 < session.old.room → result ≢ Err session_errors.OutOfMemory }
{
    let _number = session.next(Kind::Note)?;
    session.reserve(1)?;
    session.send(note, Kind::Note)
}

/// Withdraws the first object from an index on that nothing holds: its index, or `None` where there
/// is none.
pub fn withdraw_first(table: &mut ObjectTable, from: u64) -> Option<u64>
    ensures first { MatchOption result (NeverUnheld table.old from)
        (λ index. IsFirstUnheld table.old from index) }
    ensures withdrawn { IfSome result (λ index.
        Becomes table.old table.new (own table.old index) withdrawn) }
    ensures none { result ≡ None → table.new ≡ table.old }
    ensures left { WithdrawalLeaves table.old table.new }
{
    let index = table.first_unheld(from)?;
    match table.withdraw(index) {
        Ok(()) => Some(index),
        Err(_) => None,
    }
}

/// Lists a client no longer: whether nobody is listed there now.
pub fn clean_last(sets: &mut DirtySets, index: u64, client: SpaceId) -> bool
    ensures leaves { Leaves sets.old sets.new index client }
    ensures nobody { (result ≡ true) ↔ IsEmptyAt sets.new index }
{
    sets.clean(index, client);
    sets.is_empty(index)
}

/// Ends the pins of the item that a note of this peer settles: false where it is no Settle, G1
/// where there are none.
pub fn settle_by(pins: &mut PinTable, peer: SpaceId, note: &Item) -> Result<bool, PinFault>
    ensures settle { (item : ℕ) → note.now ≡ Settle item → MatchResult result
        (λ done. (done ≡ true) × TakesOut pins.old.bundles pins.new.bundles peer item)
        (λ fault. (fault ≡ PinFault.NoBundle) × (has_bundle pins.old.bundles peer item ≡ false)
        × Unchanged pins.old pins.new) }
    ensures other { settled_by peer note.now ≡ None → (result ≡ Ok false) × (pins.new ≡ pins.old) }
{
    let Some(settled) = Settled::of_note(peer, note) else {
        return Ok(false);
    };
    pins.settle(&settled)?;
    Ok(true)
}
