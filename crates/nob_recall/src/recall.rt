//! The frames that are remembered.

ghost use Rattle.std.specs.Prelude.{◌≡◌, ◌↔◌, ◌≤◌, ◌+◌, ◌∷◌, ◌++◌, [], List, true, not, filter, length, IfOk, OnOk};
ghost use Rattle.std.specs.List.{Contains};
ghost use Rattle.std.specs.Vec.{vec_len, vec_capacity};
ghost use Rattle.nob_model_types.specs.Deeds.{deed_in};
ghost use Rattle.nob_model_types.specs.declared.entry.Entry.{Entry as EntryOf};
ghost use Rattle.nob_model_journal.specs.Journals.{frames_of};
ghost use Rattle.nob_recall.specs.Remembering as remembering;
ghost use Rattle.nob_recall.specs.Recalls as words;
ghost use Rattle.nob_recall.specs.Tables as tables;

use crate::table::{hear, heard_in, new_table};
use crate::{Heard, is_past};
use nob_frame::Frame;
use nob_model::{Entry, same_frame};
use std::alloc::{AllocError, Global};
use std::marker::Model;
use std::mem;

/// The frames that may still arrive, and what each space has heard of each other one.
#[derive(Drop)]
pub struct Recall {
    // A turn comes each time that so many frames were noted.
    span: usize,
    // Those that were noted before the last turn.
    older: Vec<Frame>,
    // Those that were noted since, behind those that were kept at it.
    newer: Vec<Frame>,
    // How many were kept at it.
    kept: usize,
    table: Vec<Heard>,
}

impl Model for Recall {
    ghost use Rattle.std.specs.Prelude.{◌-◌, length, vec_capacity};
    ghost use Rattle.nob_recall.specs.Recalls.{Recalled};

    ghost Value = { Recalled };

    ghost view = { λ recall. record {
      span = recall.span;
      memory = record {
        older = recall.older.items;
        newer = recall.newer.items;
        kept = recall.kept;
      };
      table = recall.table.items;
      room = vec_capacity recall.newer - length recall.newer.items;
    } };
}

impl Recall {
    /// No frames yet. A frame that can bring nothing more is forgotten at the second turn behind it; a
    /// turn comes each time that `span` frames were noted. Only memory fails it.
    pub fn new(alloc: Global, span: usize) -> Result<Recall, AllocError>
        ensures recalls { IfOk result (λ recall. words.Recalls [] recall) }
        ensures span { IfOk result (λ recall. recall.span ≡ span) }
    {
        Ok(Recall {
            span,
            older: Vec::new(alloc),
            newer: Vec::new(alloc),
            kept: 0,
            table: new_table(alloc)?,
        })
    }

    /// Whether a frame is remembered. It looks at the frames that were noted last first: at as many as
    /// were noted since this one.
    pub fn has(&self, frame: &Frame) -> bool
        ensures { (result ≡ true) ↔ remembering.IsIn frame.now self.now.memory }
    {
        is_among(frame, self.newer.as_slice()) || is_among(frame, self.older.as_slice())
    }

    /// Whether a frame can bring nothing more to the space that it goes to. Constant time.
    pub fn is_past(&self, frame: &Frame) -> bool
        ensures { (J : List EntryOf) → tables.TableStands self.now.table J
            → result ≡ remembering.is_past_in J frame.now }
    {
        is_past_by(self.table.as_slice(), frame)
    }

    /// Room for so many frames more. Only memory fails it.
    pub fn reserve(&mut self, count: usize) -> Result<(), AllocError>
        ensures same { words.IsSame self.old self.new }
        ensures room { OnOk result (count ≤ self.new.room) }
    {
        self.newer.reserve(count)
    }

    /// Notes an entry, and the frames that it transmitted, for which there is room. It takes no
    /// memory. Constant time for each frame on average, where those that can still bring something
    /// are no more than a span.
    pub fn note(&mut self, entry: &Entry, frames: Vec<Frame>)
        requires room { length frames.items ≤ self.old.room }
        ensures recalls { (J : List EntryOf) → frames.items ≡ frames_of (deed_in entry.now)
            → words.Recalls J self.old → words.Recalls (entry.now ∷ J) self.new }
        ensures span { self.new.span ≡ self.old.span }
    {
        hear(&mut self.table, entry);
        put_frames(&mut self.newer, frames);
        if self.span <= self.newer.len().saturating_sub(self.kept) {
            self.kept = turn(self.table.as_slice(), &mut self.older, &mut self.newer);
        }
    }
}

// Puts frames behind others, for which there is room. It takes no memory.
fn put_frames(frames: &mut Vec<Frame>, mut more: Vec<Frame>)
    requires room { vec_len frames.old + vec_len more ≤ vec_capacity frames.old }
    ensures { frames.new.items ≡ frames.old.items ++ more.items }
{
    match frames.append(&mut more) {
        Ok(()) => {}
        Err(_error) => unreachable!(),
    }
}

// The newer ones are the older ones now, and of those that were older the past ones are forgotten:
// how many are left of these.
fn turn(table: &[Heard], older: &mut Vec<Frame>, newer: &mut Vec<Frame>) -> usize
    ensures older { older.new.items ≡ newer.old.items }
    ensures newer { (J : List EntryOf) → tables.TableStands table.now J → newer.new.items
        ≡ filter (λ frame. not (remembering.is_past_in J frame)) older.old.items }
    ensures kept { result ≡ length newer.new.items }
{
    mem::swap(older, newer);
    forget(table, newer);
    newer.len()
}

// Whether a frame is one of these. It looks at the last ones first.
fn is_among(frame: &Frame, frames: &[Frame]) -> bool
    ensures { (result ≡ true) ↔ Contains frames.now frame.now }
{
    let mut place = frames.len();
    while place > 0 {
        place -= 1;
        if same_frame(&frames[place], frame) {
            return true;
        }
    }
    false
}

// Whether a frame can bring nothing more to the space that it goes to.
fn is_past_by(table: &[Heard], frame: &Frame) -> bool
    ensures { (J : List EntryOf) → tables.TableStands table.now J
        → result ≡ remembering.is_past_in J frame.now }
{
    is_past(frame, heard_in(table, frame.from, frame.to))
}

// Forgets those of the frames that are past.
fn forget(table: &[Heard], frames: &mut Vec<Frame>)
    ensures { (J : List EntryOf) → tables.TableStands table.now J
        → frames.new.items
        ≡ filter (λ frame. not (remembering.is_past_in J frame)) frames.old.items }
{
    frames.retain(|frame| !is_past_by(table, frame));
}
