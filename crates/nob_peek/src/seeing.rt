//! What is seen of an item.

ghost use Rattle.std.specs.Prelude.{◌≡◌};
ghost use Rattle.std.specs.Option.{option_map};
ghost use Rattle.nob_item.specs.Reading.{call_at, call_front, call_number_at, index_at, item_read, note_by, reply_at, reply_front, settle_at};
ghost use Rattle.nob_peek.specs.Seeing.{front_seen, seen_in};

use crate::walking::references_in;
use nob_bytes::{take_u16, take_u64};
use nob_ids::{CallNo, ItemNo};

/// What can be seen of an item without its value: how many references that has, repeats and agents'
/// included, but not the target of a Call.
#[derive(Clone, Copy, Debug, PartialEq, Eq)]
pub enum Seen {
    /// A call.
    Call {
        /// The number of the call among those of its sender.
        call: CallNo,
        /// The index of the object that is called.
        target: u64,
        /// The number of the method.
        method: u16,
        /// How many references its value has.
        references: u32,
    },
    /// The answer to a call.
    Reply {
        /// The number that the call came with.
        call: CallNo,
        /// 0 answered, 1 the method's fault, 2 no such method, 3 a lost reference.
        status: u8,
        /// How many references its value has.
        references: u32,
    },
    /// The references that came with the item of this number have been dealt with.
    Settle(ItemNo),
    /// The sender wants to be listed for the object of this index.
    Dirty(u64),
    /// The receiver is listed for the object of this index.
    DirtyOk(u64),
    /// The receiver isn't listed for the object of this index: there is none.
    DirtyNo(u64),
    /// The sender has no use any more for the object of this index.
    Clean(u64),
}

// A Call whose value isn't passed yet.
#[derive(Clone, Copy, Drop)]
struct CallFront<'a> {
    call: u64,
    target: u64,
    method: u16,
    pickle: &'a [u8],
}

// A Reply whose value isn't passed yet.
#[derive(Clone, Copy, Drop)]
struct ReplyFront<'a> {
    call: u64,
    status: u8,
    pickle: &'a [u8],
}

/// What is seen of the item that all of the bytes spell: nothing where they spell none. It takes no
/// memory. Linear in the bytes; it recurses once for each of at most 16 levels of a value.
#[tactic(auto, unfolding(nob_item::specs::Reading::item_by))]
pub fn peek(bytes: &[u8]) -> Option<Seen>
    ensures { result ≡ seen_in (item_read bytes.now) }
{
    let [first, rest @ ..] = bytes else {
        return None;
    };
    match *first {
        1 => call_in(rest),
        2 => reply_in(rest),
        _ => note_in(*first, rest),
    }
}

// The number of a call, and the bytes after it.
#[tactic(auto, unfolding(nob_item::specs::Reading::call_number_at))]
fn call_number_in(bytes: &[u8]) -> Option<(u64, &[u8])>
    ensures { option_map (λ x. (x.0, x.1.now)) result ≡ front_seen (call_number_at bytes.now) }
{
    let Ok((call, bytes)) = take_u64(bytes, ()) else {
        return None;
    };
    if call < 1 || call > 1 << 48 {
        return None;
    }
    Some((call, bytes))
}

// A Call up to its value, behind its first byte.
#[tactic(auto, unfolding(nob_item::specs::Reading::call_front))]
fn call_front_in<'a>(bytes: &'a [u8]) -> Option<CallFront<'a>>
    ensures { option_map (λ x. (x.call, x.target, x.method, x.pickle.now)) result
        ≡ front_seen (call_front bytes.now) }
{
    let (call, bytes) = call_number_in(bytes)?;
    let Ok((target, bytes)) = take_u64(bytes, ()) else {
        return None;
    };
    let Ok((method, pickle)) = take_u16(bytes, ()) else {
        return None;
    };
    Some(CallFront {
        call,
        target,
        method,
        pickle,
    })
}

// A Reply up to its value, behind its first byte.
#[tactic(auto, unfolding(nob_item::specs::Reading::reply_front, nob_item::specs::Reading::status_at))]
fn reply_front_in<'a>(bytes: &'a [u8]) -> Option<ReplyFront<'a>>
    ensures { option_map (λ x. (x.call, x.status, x.pickle.now)) result
        ≡ front_seen (reply_front bytes.now) }
{
    let (call, bytes) = call_number_in(bytes)?;
    let [status, pickle @ ..] = bytes else {
        return None;
    };
    if *status > 3 {
        return None;
    }
    Some(ReplyFront {
        call,
        status: *status,
        pickle,
    })
}

// A Call, behind its first byte.
#[tactic(auto, unfolding(nob_item::specs::Reading::call_at))]
fn call_in(bytes: &[u8]) -> Option<Seen>
    ensures { result ≡ seen_in (call_at bytes.now) }
{
    let front = call_front_in(bytes)?;
    let references = references_in(front.pickle)?;
    Some(Seen::Call {
        call: CallNo::new(front.call),
        target: front.target,
        method: front.method,
        references,
    })
}

// A Reply, behind its first byte.
#[tactic(auto, unfolding(nob_item::specs::Reading::reply_at))]
fn reply_in(bytes: &[u8]) -> Option<Seen>
    ensures { result ≡ seen_in (reply_at bytes.now) }
{
    let front = reply_front_in(bytes)?;
    let references = references_in(front.pickle)?;
    Some(Seen::Reply {
        call: CallNo::new(front.call),
        status: front.status,
        references,
    })
}

// The number of the item that a Settle names, behind its first byte.
#[tactic(auto, unfolding(nob_item::specs::Reading::settle_at, nob_item::specs::Reading::item_number_at))]
fn settled_in(bytes: &[u8]) -> Option<u64>
    ensures { result ≡ front_seen (settle_at bytes.now) }
{
    let Ok((number, after)) = take_u64(bytes, ()) else {
        return None;
    };
    if number < 1 || number > 1 << 40 {
        return None;
    }
    if !after.is_empty() {
        return None;
    }
    Some(number)
}

// The index that one of the other notes names, behind its first byte.
#[tactic(auto, unfolding(nob_item::specs::Reading::index_at))]
fn index_in(bytes: &[u8]) -> Option<u64>
    ensures { result ≡ front_seen (index_at bytes.now) }
{
    let Ok((index, after)) = take_u64(bytes, ()) else {
        return None;
    };
    if !after.is_empty() {
        return None;
    }
    Some(index)
}

// A note, behind this first byte.
#[tactic(auto, unfolding(nob_item::specs::Reading::note_by))]
fn note_in(first: u8, bytes: &[u8]) -> Option<Seen>
    ensures { result ≡ seen_in (note_by first bytes.now) }
{
    match first {
        3 => Some(Seen::Settle(ItemNo::new(settled_in(bytes)?))),
        4 => Some(Seen::Dirty(index_in(bytes)?)),
        5 => Some(Seen::DirtyOk(index_in(bytes)?)),
        6 => Some(Seen::DirtyNo(index_in(bytes)?)),
        7 => Some(Seen::Clean(index_in(bytes)?)),
        _ => None,
    }
}
