//! What the next entry makes of the spaces, and of what is kept of them.

ghost use Rattle.std.specs.Prelude.{◌≡◌, ◌≤◌, ◌<◌, ◌^◌, ◌-◌, ◌++◌, ◌∷◌, [], ℕ, List, Some, None, Ok, Err, length, slice_get, IfOk, OnErr, OnOk};
ghost use Rattle.nob_ids.specs.declared.limits.Limits.{Limits as LimitsOf};
ghost use Rattle.nob_model_types.specs.Deeds.{deed_in};
ghost use Rattle.nob_model_types.specs.declared.entry.Entry.{Entry as EntryOf};
ghost use Rattle.nob_model_journal.specs.Journals.{frames_of as frames_in};
ghost use Rattle.nob_recall.specs.Next as next;
ghost use Rattle.nob_recall.specs.Recalls as recalls;
ghost use Rattle.nob_watch.specs.Members as members;
ghost use Rattle.nob_watch.specs.Reruns as words;

use crate::members::is_answered;
use crate::sealing::is_right_seal;
use nob_frame::Frame;
use nob_model_types::Entry;
use nob_past::Past;
use nob_plain_traces::origins::{frame_in, frames_of};
use nob_recall::{Dated, Recall, WatchError, WatchFault};
use nob_space::Space;
use std::alloc::{AllocError, Global};

/// Equal frames to those that an entry transmitted. Only memory fails it.
fn copies_of(alloc: Global, entry: &Entry) -> Result<Vec<Frame>, AllocError>
    ensures { IfOk result (λ frames. frames.items ≡ frames_in (deed_in entry.now)) }
{
    let mut copies = Vec::new(alloc);
    let frames = frames_of(entry);
    for frame in frames {
        copies.push(frame.copy()?)?;
    }
    Ok(copies)
}

// What is wrong with the arrival of a frame by the next entry of its space, which is at this place.
fn frame_fault(recall: &Recall, frame: &Frame, entry: &Entry, place: u64) -> Option<WatchFault>
    ensures { (J : List EntryOf) → recalls.Recalls J recall.now
        → next.IsArrivalFault recall.now.span frame.now J entry.now.space place result }
{
    if recall.has(frame) {
        return None;
    }
    if recall.is_past(frame) {
        return Some(WatchFault::Late(entry.space, place));
    }
    Some(WatchFault::NoOrigin(entry.space, place))
}

// The same by an entry, by which a frame arrives or none.
fn origin_fault(recall: &Recall, entry: &Entry, place: u64) -> Option<WatchFault>
    ensures { (J : List EntryOf) → recalls.Recalls J recall.now
        → words.IsOriginFault recall.now.span entry.now J place result }
{
    match frame_in(entry) {
        Some(frame) => frame_fault(recall, frame, entry, place),
        None => None,
    }
}

// What is wrong with the seal behind an entry that its space answered so.
fn seal_fault(spaces: &[Space], dated: &Dated) -> Option<WatchFault>
    requires here { dated.now.entry.space ≤ length spaces.now }
    ensures { (n : ℕ) (list : List LimitsOf) (J : List EntryOf)
        → members.AreMembers n list J spaces.now → words.IsSealFault n dated.now J result }
{
    let Some(own) = &dated.seal else {
        return None;
    };
    if is_right_seal(&spaces[dated.entry.space.place()], dated.stamp, &own.seal) {
        return None;
    }
    Some(WatchFault::Seal(dated.entry.space, own.number))
}

// What is wrong with the next entry, once its space was asked: the space changed, and nothing else.
// Only memory fails it, and then the space is as it was.
fn judge(
    spaces: &mut Vec<Space>,
    places: &[u64],
    recall: &Recall,
    dated: &Dated,
) -> Result<Option<WatchFault>, AllocError>
    requires here { dated.now.entry.space ≤ length spaces.old.items }
    requires places { dated.now.entry.space ≤ length places.now }
    ensures space { 1 ≤ dated.now.entry.space }
    ensures judged { (n : ℕ) (list : List LimitsOf) (J : List EntryOf)
        → words.IsLive n list J spaces.old.items places.now recall.now
        → words.IsJudged n list J spaces.new.items recall.now dated.now result }
{
    let place = places[dated.entry.space.place()];
    let same = match is_answered(spaces, &dated.entry) {
        Ok(same) => same,
        Err(error) => return Err(error),
    };
    if !same {
        return Ok(Some(WatchFault::NotARun(dated.entry.space, place)));
    }
    if let Some(fault) = origin_fault(recall, &dated.entry, place) {
        return Ok(Some(fault));
    }
    Ok(seal_fault(spaces.as_slice(), dated))
}

// Enters an entry that its space answered so, and the frames that it transmitted, for which there is
// room. It takes no memory.
fn enter(
    places: &mut Vec<u64>,
    recall: &mut Recall,
    passed: &mut Past<Dated>,
    dated: &Dated,
    frames: Vec<Frame>,
)
    requires here { dated.now.entry.space ≤ length places.old.items }
    requires few { (place : ℕ) → slice_get places.old.items (dated.now.entry.space - 1)
        ≡ Some place → place < 2 ^ 63 }
    requires short { length passed.old.items < 2 ^ 62 }
    requires room { length frames.items ≤ recall.old.room }
    ensures passed { passed.new.items ≡ passed.old.items ++ dated.now ∷ [] }
    ensures places { (n : ℕ) (J : List EntryOf) → members.ArePlaces n J places.old.items
        → members.ArePlaces n (dated.now.entry ∷ J) places.new.items }
    ensures recalls { (J : List EntryOf) → frames.items ≡ frames_in (deed_in dated.now.entry)
        → recalls.Recalls J recall.old → recalls.Recalls (dated.now.entry ∷ J) recall.new }
    ensures span { recall.new.span ≡ recall.old.span }
{
    let at = dated.entry.space.place();
    places[at] += 1;
    recall.note(&dated.entry, frames);
    passed.pass(dated);
}

// Room for the next entry: equal frames to those that it transmitted. Only memory fails it.
fn prepare(
    alloc: Global,
    recall: &mut Recall,
    passed: &mut Past<Dated>,
    entry: &Entry,
) -> Result<Vec<Frame>, AllocError>
    ensures frames { IfOk result (λ frames. frames.items ≡ frames_in (deed_in entry.now)) }
    ensures room { IfOk result (λ frames. length frames.items ≤ recall.new.room) }
    ensures short { OnOk result (length passed.new.items < 2 ^ 62) }
    ensures same { recalls.IsSame recall.old recall.new }
    ensures passed { passed.new.items ≡ passed.old.items }
{
    let frames = copies_of(alloc, entry)?;
    passed.reserve()?;
    recall.reserve(frames.len())?;
    Ok(frames)
}

/// The next entry is judged, and entered where nothing is wrong with it. All growth is made first.
pub(crate) fn take(
    alloc: Global,
    spaces: &mut Vec<Space>,
    places: &mut Vec<u64>,
    recall: &mut Recall,
    passed: &mut Past<Dated>,
    dated: &Dated,
) -> Result<(), WatchError>
    requires { (n : ℕ) × (list : List LimitsOf) × (dated.now.entry.space ≤ n)
        × words.IsLive n list (words.journal_of passed.old.items) spaces.old.items
        places.old.items recall.old }
    ensures taken { (n : ℕ) (list : List LimitsOf) → dated.now.entry.space ≤ n
        → words.IsLive n list (words.journal_of passed.old.items) spaces.old.items
        places.old.items recall.old
        → words.IsRun n list (words.journal_of passed.old.items)
        → words.HasTaken n list (words.journal_of passed.old.items) recall.old.span dated.now
        spaces.new.items places.new.items recall.new result }
    ensures ok { OnOk result (passed.new.items ≡ passed.old.items ++ dated.now ∷ []) }
    ensures err { OnErr result (passed.new.items ≡ passed.old.items) }
    ensures span { recall.new.span ≡ recall.old.span }
{
    let Ok(frames) = prepare(alloc, recall, passed, &dated.entry) else {
        return Err(WatchError::OutOfMemory);
    };
    match judge(spaces, places.as_slice(), recall, dated) {
        Ok(None) => {
            enter(places, recall, passed, dated, frames);
            Ok(())
        }
        Ok(Some(fault)) => Err(WatchError::Fault(fault)),
        Err(_error) => Err(WatchError::OutOfMemory),
    }
}
