//! Items and frames as words.

ghost use Rattle.std.specs.Prelude.{◌≡◌, Some, IfOk};
ghost use Rattle.nob_frame.specs.declared.frame.FrameKind.{FrameKind as KindOf};
ghost use Rattle.nob_item.specs.declared.item.Item.{Item as ItemOf};
ghost use Rattle.nob_case_texts.specs.Reading.{Reads};
ghost use Rattle.nob_case_texts.specs.Words as spec;

use crate::tokens;
use crate::unanswered::Unanswered;
use crate::values::value;
use nob_bytes::Bytes;
use nob_frame::{Frame, FrameKind};
use nob_ids::{CallNo, ItemNo};
use nob_item::Item;
use std::alloc::Global;

/// The item that words say, as `text_of` writes it.
pub fn item(alloc: Global, words: &[&str]) -> Result<Item, Unanswered> {
    match words {
        ["call", call, "on", target, "method", method, argument] => Ok(Item::Call {
            call: CallNo::new(tokens::number(alloc, call)?),
            target: tokens::number(alloc, target)?,
            method: tokens::short_number(alloc, method)?,
            value: value(alloc, argument)?,
        }),
        ["reply", call, "status", status, outcome] => Ok(Item::Reply {
            call: CallNo::new(tokens::number(alloc, call)?),
            status: tokens::byte(alloc, status)?,
            value: value(alloc, outcome)?,
        }),
        [name, number] => note(name, tokens::number(alloc, number)?),
        _ => Err(Unanswered::NoCase),
    }
}

// The note of this name and number.
fn note(name: &str, number: u64) -> Result<Item, Unanswered>
    ensures found { IfOk result (λ item. spec.note_parts item ≡ Some (name.now, number)) }
    ensures only { (item : ItemOf) → spec.note_parts item ≡ Some (name.now, number)
        → Reads (λ found. found ≡ item) result }
{
    match name {
        "settle" => Ok(Item::Settle(ItemNo::new(number))),
        "dirty" => Ok(Item::Dirty(number)),
        "dirtyok" => Ok(Item::DirtyOk(number)),
        "dirtyno" => Ok(Item::DirtyNo(number)),
        "clean" => Ok(Item::Clean(number)),
        _ => Err(Unanswered::NoCase),
    }
}

/// The frame that words say, as `text_of` writes it.
pub fn frame(alloc: Global, words: &[&str]) -> Result<Frame, Unanswered> {
    let [
        kind,
        from,
        "to",
        to,
        "session",
        session,
        "seq",
        seq,
        "ack",
        ack,
        payload,
    ] = words
    else {
        return Err(Unanswered::NoCase);
    };
    Ok(Frame {
        kind: kind_of(kind)?,
        from: tokens::space(alloc, from)?,
        to: tokens::space(alloc, to)?,
        session: tokens::session(alloc, session)?,
        seq: tokens::number(alloc, seq)?,
        ack: tokens::number(alloc, ack)?,
        payload: Bytes::from_vec(tokens::bytes(alloc, payload)?),
    })
}

// The kind of a frame that a word says.
fn kind_of(word: &str) -> Result<FrameKind, Unanswered>
    ensures found { IfOk result (λ kind. word.now ≡ spec.kind_word kind) }
    ensures only { (kind : KindOf) → word.now ≡ spec.kind_word kind
        → Reads (λ found. found ≡ kind) result }
{
    match word {
        "data" => Ok(FrameKind::Data),
        "ack" => Ok(FrameKind::Ack),
        "close" => Ok(FrameKind::Close),
        _ => Err(Unanswered::NoCase),
    }
}
