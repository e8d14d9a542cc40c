//! Cases, and the lines that spell them.

use crate::codecs::CodecCase;
use crate::ends::EndCase;
use crate::sets::SetCase;
use crate::shims::{Asked, ShimCase};
use crate::tables::TableCase;
use crate::transit::PinCase;
use nob_case_texts::{Unanswered, deep_value, items, tokens, value};
use nob_ids::{ItemNo, SpaceId, WireRep};
use nob_pickle::Value;
use nob_session::Kind;
use nob_table::Part;
use std::alloc::Global;

/// What a line asks.
#[derive(Drop)]
pub enum Case {
    /// Something of the formats.
    Codec(CodecCase),
    /// A call on an end of a session.
    End(EndCase),
    /// A call on an end of a session by the plain program of the definitions.
    Plain(EndCase),
    /// A call on an object table.
    Table(TableCase),
    /// A call on dirty sets.
    Set(SetCase),
    /// A question about the shim of a link.
    Shim(ShimCase),
    /// The calls on a pin table from its beginning to its end.
    Pins(Vec<PinCase>),
}

/// A case, and how often it is to be made.
pub struct RepeatedCase {
    /// The case.
    pub case: Case,
    /// How often it is to be made: once where the line doesn't say it.
    pub count: u64,
}

// By hand, so that the case is taken apart here alone and not at each end of each caller.
impl Drop for RepeatedCase {
    fn drop(self) {
        let RepeatedCase { case: _, count: _ } = self;
    }
}

/// The case that a line spells, and how often it is to be made.
pub fn case_of(alloc: Global, line: &str) -> Result<RepeatedCase, Unanswered> {
    if let Some(calls) = line.strip_prefix("pins ") {
        let case = Case::Pins(pin_cases(alloc, calls)?);
        return Ok(RepeatedCase { case, count: 1 });
    }
    let words: Vec<&str> = line.split(' ').collect(alloc)?;
    repeated_case(alloc, &words)
}

fn repeated_case(alloc: Global, words: &[&str]) -> Result<RepeatedCase, Unanswered> {
    let (count, words) = match words {
        ["times", count, words @ ..] => (tokens::times(alloc, count)?, words),
        words => (1, words),
    };
    let case = lone_case(alloc, words)?;
    Ok(RepeatedCase { case, count })
}

fn lone_case(alloc: Global, words: &[&str]) -> Result<Case, Unanswered> {
    match words {
        ["session", words @ ..] => Ok(Case::End(end_case(alloc, words)?)),
        ["plain", words @ ..] => Ok(Case::Plain(end_case(alloc, words)?)),
        ["table", words @ ..] => Ok(Case::Table(table_case(alloc, words)?)),
        ["dirty", words @ ..] => Ok(Case::Set(set_case(alloc, words)?)),
        ["shim", words @ ..] => Ok(Case::Shim(shim_case(alloc, words)?)),
        ["encode", words @ ..] => Ok(Case::Codec(writing_case(alloc, words)?)),
        _ => Ok(Case::Codec(codec_case(alloc, words)?)),
    }
}

fn codec_case(alloc: Global, words: &[&str]) -> Result<CodecCase, Unanswered> {
    match words {
        ["feed", words @ ..] => feed_case(alloc, words),
        ["counted", words @ ..] => counted_case(alloc, words),
        ["note", words @ ..] => Ok(CodecCase::IsNote(items::item(alloc, words)?)),
        ["references", words @ ..] => Ok(CodecCase::References(value_in(alloc, words)?)),
        ["fits", words @ ..] => Ok(CodecCase::Fits(value_in(alloc, words)?)),
        ["version", "1", "frame", bytes] => Ok(CodecCase::ReadFrameV1(tokens::bytes(
            alloc, bytes,
        )?)),
        [format, bytes] => reading_case(format, tokens::bytes(alloc, bytes)?),
        _ => Err(Unanswered::NoCase),
    }
}

fn reading_case(format: &str, bytes: Vec<u8>) -> Result<CodecCase, Unanswered> {
    match format {
        "value" => Ok(CodecCase::ReadValue(bytes)),
        "item" => Ok(CodecCase::ReadItem(bytes)),
        "frame" => Ok(CodecCase::ReadFrame(bytes)),
        _ => Err(Unanswered::NoCase),
    }
}

fn feed_case(alloc: Global, words: &[&str]) -> Result<CodecCase, Unanswered> {
    match words {
        ["each", count, bytes] => Ok(CodecCase::FeedEach(
            tokens::times(alloc, count)?,
            tokens::bytes(alloc, bytes)?,
        )),
        pieces => Ok(CodecCase::Feed(pieces_of(alloc, pieces)?)),
    }
}

fn counted_case(alloc: Global, words: &[&str]) -> Result<CodecCase, Unanswered> {
    match words {
        ["behind", place, words @ ..] => Ok(CodecCase::CountedOne(
            tokens::short_number(alloc, place)? as usize,
            items::item(alloc, words)?,
        )),
        words => Ok(CodecCase::Counted(items::item(alloc, words)?)),
    }
}

fn writing_case(alloc: Global, words: &[&str]) -> Result<CodecCase, Unanswered> {
    match words {
        ["value", words @ ..] => Ok(CodecCase::WriteValue(value_in(alloc, words)?)),
        ["parts", words @ ..] => Ok(CodecCase::WriteParts(items::item(alloc, words)?)),
        ["item", words @ ..] => Ok(CodecCase::WriteItem(items::item(alloc, words)?)),
        ["frame", words @ ..] => Ok(CodecCase::WriteFrame(items::frame(alloc, words)?)),
        ["version", "1", "frame", words @ ..] => {
            Ok(CodecCase::WriteFrameV1(items::frame(alloc, words)?))
        }
        _ => Err(Unanswered::NoCase),
    }
}

// A value, or one inside of so many lists.
fn value_in(alloc: Global, words: &[&str]) -> Result<Value, Unanswered> {
    match words {
        [word] => value(alloc, word),
        ["deep", lists, innermost] => {
            deep_value(
                alloc,
                tokens::times(alloc, lists)?,
                value(alloc, innermost)?,
            )
        }
        _ => Err(Unanswered::NoCase),
    }
}

fn pieces_of(alloc: Global, words: &[&str]) -> Result<Vec<Vec<u8>>, Unanswered> {
    let mut pieces = Vec::new(alloc);
    for word in words {
        pieces.push(tokens::bytes(alloc, word)?)?;
    }
    Ok(pieces)
}

fn end_case(alloc: Global, words: &[&str]) -> Result<EndCase, Unanswered> {
    match words {
        [call] => bare_end_case(call),
        ["open", me, peer, "window", window, "retry", retry] => Ok(EndCase::Open(
            tokens::space(alloc, me)?,
            tokens::space(alloc, peer)?,
            tokens::limits(alloc, window, retry)?,
        )),
        ["send", kind, bytes] => Ok(EndCase::Send(kind_of(kind)?, tokens::bytes(alloc, bytes)?)),
        ["next", kind] => Ok(EndCase::Next(kind_of(kind)?)),
        ["reserve", count] => Ok(EndCase::Reserve(tokens::times(alloc, count)? as usize)),
        ["arrive", bytes] => Ok(EndCase::Arrive(tokens::bytes(alloc, bytes)?)),
        ["close", reason] => Ok(EndCase::Close(tokens::reason(alloc, reason)?)),
        ["reopen", number] => Ok(EndCase::Reopen(tokens::session(alloc, number)?)),
        ["has", "frames"] => Ok(EndCase::HasFrames),
        ["is", "open"] => Ok(EndCase::IsOpen),
        _ => Err(Unanswered::NoCase),
    }
}

fn bare_end_case(call: &str) -> Result<EndCase, Unanswered> {
    match call {
        "numbers" => Ok(EndCase::FreeNumbers),
        "number" => Ok(EndCase::Number),
        "seen" => Ok(EndCase::Seen),
        "frames" => Ok(EndCase::Frames),
        "transmit" => Ok(EndCase::Transmit),
        "front" => Ok(EndCase::Front),
        "take" => Ok(EndCase::Take),
        "tick" => Ok(EndCase::Tick),
        _ => Err(Unanswered::NoCase),
    }
}

fn kind_of(kind: &str) -> Result<Kind, Unanswered> {
    match kind {
        "limited" => Ok(Kind::Limited),
        "note" => Ok(Kind::Note),
        _ => Err(Unanswered::NoCase),
    }
}

fn table_case(alloc: Global, words: &[&str]) -> Result<TableCase, Unanswered> {
    match words {
        ["new", me] => Ok(TableCase::New(tokens::space(alloc, me)?)),
        ["reserve", exports, surrogates] => Ok(TableCase::Reserve(
            tokens::times(alloc, exports)? as usize,
            tokens::times(alloc, surrogates)? as usize,
        )),
        [call] => bare_table_case(call),
        ["withdraw", index] => Ok(TableCase::Withdraw(tokens::number(alloc, index)?)),
        ["unheld", index] => Ok(TableCase::Unheld(tokens::number(alloc, index)?)),
        ["idle", place] => Ok(TableCase::Idle(tokens::number(alloc, place)?)),
        ["close", owner] => Ok(TableCase::Close(tokens::space(alloc, owner)?)),
        [call, rep] => surrogate_case(call, tokens::reference(alloc, rep)?),
        [call, rep, part] => hold_case(call, tokens::reference(alloc, rep)?, part),
        _ => Err(Unanswered::NoCase),
    }
}

fn bare_table_case(call: &str) -> Result<TableCase, Unanswered> {
    match call {
        "export" => Ok(TableCase::Export),
        "counts" => Ok(TableCase::Counts),
        _ => Err(Unanswered::NoCase),
    }
}

fn surrogate_case(call: &str, rep: WireRep) -> Result<TableCase, Unanswered> {
    match call {
        "state" => Ok(TableCase::State(rep)),
        "pending" => Ok(TableCase::Pending(rep)),
        "grant" => Ok(TableCase::Grant(rep)),
        "refuse" => Ok(TableCase::Refuse(rep)),
        "remove" => Ok(TableCase::Remove(rep)),
        _ => Err(Unanswered::NoCase),
    }
}

fn hold_case(call: &str, rep: WireRep, part: &str) -> Result<TableCase, Unanswered> {
    let part = match part {
        "hand" => Part::Hand,
        "lent" => Part::Lent,
        _ => return Err(Unanswered::NoCase),
    };
    match call {
        "hold" => Ok(TableCase::Hold(rep, part)),
        "release" => Ok(TableCase::Release(rep, part)),
        _ => Err(Unanswered::NoCase),
    }
}

fn set_case(alloc: Global, words: &[&str]) -> Result<SetCase, Unanswered> {
    match words {
        ["new"] => Ok(SetCase::New),
        ["close", client] => Ok(SetCase::Close(tokens::space(alloc, client)?)),
        ["empty", index] => Ok(SetCase::IsEmpty(tokens::number(alloc, index)?)),
        ["clients", index] => Ok(SetCase::Clients(tokens::number(alloc, index)?)),
        [call, index, client] => listing_case(
            call,
            tokens::number(alloc, index)?,
            tokens::space(alloc, client)?,
        ),
        _ => Err(Unanswered::NoCase),
    }
}

fn listing_case(call: &str, index: u64, client: SpaceId) -> Result<SetCase, Unanswered> {
    match call {
        "dirty" => Ok(SetCase::Dirty(index, client)),
        "clean" => Ok(SetCase::Clean(index, client)),
        "lists" => Ok(SetCase::Lists(index, client)),
        _ => Err(Unanswered::NoCase),
    }
}

fn shim_case(alloc: Global, words: &[&str]) -> Result<ShimCase, Unanswered> {
    let [asked, "seed", seed, "from", from, "to", to, "loss", loss] = words else {
        return Err(Unanswered::NoCase);
    };
    Ok(ShimCase {
        asked: asked_of(asked)?,
        seed: tokens::number(alloc, seed)?,
        from: tokens::space(alloc, from)?,
        to: tokens::space(alloc, to)?,
        loss: tokens::number(alloc, loss)?,
    })
}

fn asked_of(asked: &str) -> Result<Asked, Unanswered> {
    match asked {
        "words" => Ok(Asked::Words),
        "parcels" => Ok(Asked::Parcels),
        "output" => Ok(Asked::Output),
        _ => Err(Unanswered::NoCase),
    }
}

// The calls on a pin table, parted by semicolons.
fn pin_cases(alloc: Global, calls: &str) -> Result<Vec<PinCase>, Unanswered> {
    let mut cases = Vec::new(alloc);
    for call in calls.split(';') {
        let words: Vec<&str> = call.trim().split(' ').collect(alloc)?;
        cases.push(pin_case(alloc, &words)?)?;
    }
    Ok(cases)
}

fn pin_case(alloc: Global, words: &[&str]) -> Result<PinCase, Unanswered> {
    match words {
        ["put", peer, item, reps @ ..] => Ok(PinCase::Put(
            tokens::space(alloc, peer)?,
            ItemNo::new(tokens::number(alloc, item)?),
            tokens::references(alloc, reps)?,
        )),
        ["settle", peer, item] => Ok(PinCase::Settle(
            tokens::space(alloc, peer)?,
            ItemNo::new(tokens::number(alloc, item)?),
        )),
        ["close", peer] => Ok(PinCase::Close(tokens::space(alloc, peer)?)),
        ["count", rep] => Ok(PinCase::Count(tokens::reference(alloc, rep)?)),
        _ => Err(Unanswered::NoCase),
    }
}
