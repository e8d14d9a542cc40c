//! What each space has heard of each other one.

ghost use Rattle.std.specs.Prelude.{◌≡◌, ◌<◌, ◌∷◌, [], List, IfOk, length};
ghost use Rattle.nob_ids.specs.Names.{IsSpace};
ghost use Rattle.nob_model_types.specs.declared.entry.Entry.{Entry as EntryOf};
ghost use Rattle.nob_recall.specs.Hearing as hearing;
ghost use Rattle.nob_recall.specs.Tables as words;

use crate::{Heard, heard_by, no_word};
use nob_ids::SpaceId;
use nob_model::{Entry, Event};
use std::alloc::{AllocError, Global};

/// The number of rows in the table: one for each pair of spaces that there may be.
const ROWS: usize = 1024;

// The place of what a space has heard of another.
fn row_of(from: SpaceId, to: SpaceId) -> usize
    ensures value { result ≡ words.row_of from to }
    ensures within { result < words.rows }
    ensures from { IsSpace from }
    ensures to { IsSpace to }
{
    from.place() * 32 + to.place()
}

/// Nothing was heard yet. Only memory fails it.
pub fn new_table(alloc: Global) -> Result<Vec<Heard>, AllocError>
    ensures { IfOk result (λ table. words.TableStands table.items []) }
{
    let mut table = Vec::new(alloc);
    while table.len() < ROWS {
        table.push(no_word())?;
    }
    Ok(table)
}

/// What a space has heard of another. Constant time.
pub fn heard_in(table: &[Heard], from: SpaceId, to: SpaceId) -> Heard
    ensures { (J : List EntryOf) → words.TableStands table.now J → result ≡ hearing.heard from to J }
{
    match table.get(row_of(from, to)) {
        Some(heard) => *heard,
        None => no_word(),
    }
}

// Hears what an entry says of a space.
fn hear_of(table: &mut Vec<Heard>, from: SpaceId, entry: &Entry)
    ensures { (J : List EntryOf) → words.IsAbout from entry.now.event
        → words.TableStands table.old.items J
        → words.TableStands table.new.items (entry.now ∷ J) }
{
    let row = row_of(from, entry.space);
    if row < table.len() {
        table[row] = heard_by(from, &entry.event, &entry.result, table[row]);
    }
}

/// Hears what an entry says. Constant time, and no memory.
pub fn hear(table: &mut Vec<Heard>, entry: &Entry)
    ensures { (J : List EntryOf) → words.TableStands table.old.items J
        → words.TableStands table.new.items (entry.now ∷ J) }
{
    match &entry.event {
        Event::Arrive(frame) => hear_of(table, frame.from, entry),
        Event::Open(peer) => hear_of(table, *peer, entry),
        _ => {}
    }
}
