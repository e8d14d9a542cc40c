//! All frames that were ever transmitted: a payload stands once, however many frames carry it.

ghost use Rattle.std.specs.Prelude.{◌≡◌, ◌++◌, ◌∷◌, ◌+◌, ◌-◌, ◌<◌, ◌≤◌, ◌^◌, ℕ, List, true, [], length, take, drop, slice_get, vec_len, vec_capacity, IfOk, IfSome, IsSome, OnOk, OnErr, MatchOption};
ghost use Rattle.nob_frame.specs.declared.frame.FrameKind.TheVariants as kinds;
ghost use Rattle.nob_model_session.specs.Right.{data_frames};
ghost use Rattle.nob_demo_scripts.specs.Run.{frame_numbered};
ghost use Rattle.nob_demo_scripts.specs.Log.{AreCounted, IsThere, all_frames, frames_in, items_of};

use crate::batch::{Batch, ItemRun, Row};
use crate::step::Side;
use nob_bytes::Bytes;
use nob_frame::{Frame, FrameKind};
use nob_model_session::Frames;
use std::alloc::{AllocError, Global};
use std::marker::Model;

/// All frames that were ever transmitted, in order, with a row or two for each transmit. Contracts
/// see the frames, and how many more can be added at once without memory.
#[derive(Debug, Drop)]
pub struct FrameLog {
    // the items of space 1 and those of space 2, the first first
    first: Vec<Bytes>,
    second: Vec<Bytes>,
    rows: Vec<Row>,
    // how many frames there are
    count: u64,
}

impl Model for FrameLog {
    ghost use Rattle.std.specs.Prelude.{◌≡◌, ◌-◌, length, vec_len, vec_capacity};
    ghost use Rattle.nob_demo_scripts.specs.Log.{Log, AreCounted, all_frames, room_of};

    ghost Value = { Log };

    ghost view = { λ log. record {
      frames = all_frames log.first.items log.second.items
          log.rows.items;
      room = room_of (vec_capacity log.rows - vec_len log.rows) log.count;
    } };

    ghost invariant = { λ log. AreCounted log.first.items log.second.items 0 log.rows.items
        × (log.count ≡ length (all_frames log.first.items log.second.items log.rows.items)) };
}

impl FrameLog {
    /// No frames.
    pub fn new(alloc: Global) -> FrameLog
        ensures { result.frames ≡ [] }
    {
        FrameLog {
            first: Vec::new(alloc),
            second: Vec::new(alloc),
            rows: Vec::new(alloc),
            count: 0,
        }
    }

    /// How many frames there are.
    pub fn len(&self) -> u64
        ensures { result ≡ length self.now.frames }
    {
        self.count
    }

    /// Keeps the next item of an end, for the frames that will carry it. Only memory fails it.
    pub fn add_item(&mut self, side: Side, item: Bytes) -> Result<(), AllocError>
        ensures { self.new.frames ≡ self.old.frames }
    {
        match side {
            Side::First => {
                self.first.push(item)?;
                Ok(())
            }
            Side::Second => {
                self.second.push(item)?;
                Ok(())
            }
        }
    }

    /// Makes room for so many frames at once. Only memory fails it, or that frames have no more
    /// numbers.
    pub fn reserve(&mut self, count: u64) -> Result<(), AllocError>
        ensures frames { self.new.frames ≡ self.old.frames }
        ensures room { OnOk result (count ≤ self.new.room) }
        ensures numbers { OnOk result (length self.new.frames + count < 2 ^ 64) }
    {
        if u64::MAX - self.count < count {
            return Err(AllocError);
        }
        self.rows.reserve(2)
    }

    /// Adds the frames of a transmit, for which there is room. It takes no memory.
    pub fn add(&mut self, frames: Vec<Frame>)
        requires some { 0 < self.old.room }
        requires room { length frames.items ≤ self.old.room }
        ensures { self.new.frames ≡ self.old.frames ++ frames.items }
    {
        let before = self.count;
        let count = frames.len() as u64;
        add_rows(&self.first, &self.second, before, frames, &mut self.rows);
        self.count += count;
    }

    /// The frame of this number, counted from 1. Only memory fails it, where there is one.
    pub fn frame(&self, number: u64) -> Result<Option<Frame>, AllocError>
        ensures frame { IfOk result (λ frame. frame ≡ frame_numbered number self.now.frames) }
        ensures memory { OnErr result (IsSome (frame_numbered number self.now.frames)) }
    {
        if number == 0 {
            return Ok(None);
        }
        let Some(row) = row_of(&self.rows, number) else {
            return Ok(None);
        };
        frame_in(
            &self.first,
            &self.second,
            &row.batch,
            number - row.before - 1,
        )
    }
}

// The row in which the frame of this number stands, if there is such a frame: the last one before
// which fewer stand.
fn row_of(rows: &[Row], number: u64) -> Option<&Row>
    ensures { (first second : List (List ℕ)) (n : ℕ) → AreCounted first second n rows.now
        → n < number →
        MatchOption result (rows.now ≡ [])
        (λ row. (row.now.before < number) × IsThere first second row.now.batch
        × (slice_get (all_frames first second rows.now) (number - n - 1)
        ≡ slice_get (frames_in first second row.now.batch) (number - row.now.before - 1))) }
{
    if rows.len() <= 1 {
        return rows.first();
    }
    let (front, back) = rows.split_at(rows.len() / 2);
    if number <= back[0].before {
        return row_of(front, number);
    }
    row_of(back, number)
}

// The frame at this place of a batch.
fn frame_in(
    first: &[Bytes],
    second: &[Bytes],
    batch: &Batch,
    place: u64,
) -> Result<Option<Frame>, AllocError>
    requires { IsThere first.now second.now batch.now }
    ensures frame { IfOk result (λ frame. frame
        ≡ slice_get (frames_in first.now second.now batch.now) place) }
    ensures memory { OnErr result (IsSome
        (slice_get (frames_in first.now second.now batch.now) place)) }
{
    match batch {
        Batch::Run(run) => {
            let items = if run.from.get() == 1 { first } else { second };
            frame_of_run(items, *run, place)
        }
        Batch::Whole(frames) => match frames.as_slice().get(place as usize) {
            Some(frame) => Ok(Some(frame.copy()?)),
            None => Ok(None),
        },
    }
}

// The frame at this place of a run of these items.
fn frame_of_run(items: &[Bytes], run: ItemRun, place: u64) -> Result<Option<Frame>, AllocError>
    requires first { 1 ≤ run.first }
    requires there { run.first - 1 + run.count ≤ length items.now }
    ensures frame { IfOk result (λ frame. frame
        ≡ slice_get (data_frames run.from run.to run.session run.ack run.first
        (take run.count (drop (run.first - 1) items.now))) place) }
    ensures memory { OnErr result (IsSome
        (slice_get (data_frames run.from run.to run.session run.ack run.first
        (take run.count (drop (run.first - 1) items.now))) place)) }
{
    if place >= run.count {
        return Ok(None);
    }
    let item = run.first - 1 + place;
    Ok(Some(Frame {
        kind: FrameKind::Data,
        from: run.from,
        to: run.to,
        session: run.session,
        seq: item + 1,
        ack: run.ack,
        payload: items[item as usize].copy()?,
    }))
}

// Adds rows for the frames of a transmit, before which so many stand: one for a run of items, two
// for the first item and a run of later ones. It takes no memory.
fn add_rows(first: &[Bytes], second: &[Bytes], before: u64, frames: Vec<Frame>, rows: &mut Vec<Row>)
    requires room { vec_len rows.old + 1 < vec_capacity rows.old }
    requires numbers { before + length frames.items < 2 ^ 64 }
    requires counted { AreCounted first.now second.now 0 rows.old.items }
    requires before { before ≡ length (all_frames first.now second.now rows.old.items) }
    ensures counted { AreCounted first.now second.now 0 rows.new.items }
    ensures frames { all_frames first.now second.now rows.new.items
        ≡ all_frames first.now second.now rows.old.items ++ frames.items }
{
    if let Some(run) = run_of(first, second, &frames) {
        push_row(rows, before, Batch::Run(run));
        return;
    }
    if let Some((head, rest)) = runs_of(first, second, &frames) {
        push_row(rows, before, Batch::Run(head));
        push_row(rows, before + 1, Batch::Run(rest));
        return;
    }
    push_row(rows, before, Batch::Whole(Frames::from_vec(frames)));
}

// Adds a row for which there is room. It takes no memory.
fn push_row(rows: &mut Vec<Row>, before: u64, batch: Batch)
    requires room { vec_len rows.old < vec_capacity rows.old }
    ensures items { rows.new.items
        ≡ rows.old.items ++ record { before = before; batch = batch } ∷ [] }
    ensures capacity { vec_capacity rows.new ≡ vec_capacity rows.old }
{
    rows.push_reserved(Row { before, batch });
}

// The run of the first frame's item and that of the others', if the others' are one.
fn runs_of(first: &[Bytes], second: &[Bytes], frames: &[Frame]) -> Option<(ItemRun, ItemRun)>
    ensures { IfSome result (λ runs. IsThere first.now second.now (Batch.Run runs.0)
        × IsThere first.now second.now (Batch.Run runs.1)
        × (length (frames_in first.now second.now (Batch.Run runs.0)) ≡ 1)
        × (frames.now ≡ frames_in first.now second.now (Batch.Run runs.0)
        ++ frames_in first.now second.now (Batch.Run runs.1))) }
{
    if frames.is_empty() {
        return None;
    }
    let (head, rest) = frames.split_at(1);
    Some((run_of(first, second, head)?, run_of(first, second, rest)?))
}

// The run of items that these frames carry, if they are one.
fn run_of(first: &[Bytes], second: &[Bytes], frames: &[Frame]) -> Option<ItemRun>
    ensures { IfSome result (λ run. IsThere first.now second.now (Batch.Run run)
        × (frames.now ≡ frames_in first.now second.now (Batch.Run run))) }
{
    let head = frames.first()?;
    let items = if head.from.get() == 1 { first } else { second };
    if head.seq == 0 || head.seq > items.len() as u64 {
        return None;
    }
    let left = items.split_at(head.seq as usize - 1).1;
    if !carry(head, head.seq, frames, left) {
        return None;
    }
    Some(ItemRun {
        from: head.from,
        to: head.to,
        session: head.session,
        ack: head.ack,
        first: head.seq,
        count: frames.len() as u64,
    })
}

// Whether the frames carry the first of these items, from this number on, and are like the first
// frame beside that.
fn carry(head: &Frame, number: u64, frames: &[Frame], items: &[Bytes]) -> bool
    ensures { result ≡ true → (length frames.now ≤ length items.now)
        × (frames.now ≡ data_frames head.now.from head.now.to head.now.session head.now.ack number
        (take (length frames.now) items.now)) }
{
    match frames {
        [] => true,
        [frame, frames @ ..] => match items {
            [] => false,
            [item, items @ ..] => {
                number < u64::MAX
                    && carries(head, number, frame, item)
                    && carry(head, number + 1, frames, items)
            }
        },
    }
}

// Whether the frame carries the item of this number, and is like another beside that.
fn carries(head: &Frame, number: u64, frame: &Frame, item: &Bytes) -> bool
    ensures { result ≡ true → frame.now ≡ record {
      kind = kinds.Data;
      from = head.now.from;
      to = head.now.to;
      session = head.now.session;
      seq = number;
      ack = head.now.ack;
      payload = item.now;
    } }
{
    frame.kind.is_data()
        && frame.from == head.from
        && frame.to == head.to
        && frame.session == head.session
        && frame.seq == number
        && frame.ack == head.ack
        && frame.payload.as_slice() == item.as_slice()
}
