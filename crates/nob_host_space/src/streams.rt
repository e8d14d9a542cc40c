//! Streams of frames that come in pieces.

ghost use Rattle.std.specs.Prelude.{◌≡◌, [], ◌∷◌, List, Ok};
ghost use Rattle.nob_ids.specs.Names.{IsSpace};
ghost use Rattle.nob_frame.specs.declared.frame.Frame.{Frame as FrameOf};
ghost use Rattle.nob_host_space.specs.Feeds.{feed_at, SameButOf};
ghost use Rattle.nob_host_space.specs.Numbers.{is_done};
ghost use Rattle.nob_host_space.specs.Asked.{Unasked};
ghost use Rattle.std.specs.List.{list_all};
ghost use Rattle.nob_host_space.specs.Streams.{is_between, Pushed, BroughtOrWants};

use crate::asking::untold;
use crate::bringing::bring;
use crate::bytes::spelled;
use crate::host::Host;
use crate::numbers::{
    DONE, NONE_WAITS, OF_OTHERS, OUT_OF_RANGE, STILL_WAITING, WANTED, frame_number,
};
use crate::told::Told;
use crate::waiting::Waiting;
use nob_frame::Frame;
use nob_ids::SpaceId;
use nob_pickle::Bytes;
use std::alloc::Global;

// Whether a frame is from a peer to a space.
fn is_between(frame: &Frame, peer: SpaceId, space: SpaceId) -> bool
    ensures { result ≡ is_between peer space frame.now }
{
    frame.from == peer && frame.to == space
}

// Whether all frames are from a peer to a space.
fn are_between(frames: &[Frame], peer: SpaceId, space: SpaceId) -> bool
    ensures { result ≡ list_all (is_between peer space) frames.now }
{
    frames.iter().all(|frame| is_between(frame, peer, space))
}

impl Host {
    // The next piece of the stream from a peer, while no frame waits.
    fn push_for(&mut self, peer: SpaceId, piece: &[u8], told: &mut Told) -> u32
        requires { self.old.waiting ≡ [] }
        ensures pushed { Pushed peer self.old.space.id (is_done result)
            (feed_at self.old.feeds peer) piece.now self.new.waiting (feed_at self.new.feeds peer)
            told.new result }
        ensures others { SameButOf peer self.old.feeds self.new.feeds }
        ensures space { self.new.space ≡ self.old.space }
        ensures value { self.new.value ≡ self.old.value }
        ensures answer { self.new.answer ≡ self.old.answer }
    {
        let frames = match self.feeds.push(peer, piece) {
            Ok(frames) => frames,
            Err(error) => return untold(told, frame_number(error)),
        };
        if !are_between(frames.as_slice(), peer, self.space.id()) {
            return untold(told, OF_OTHERS);
        }
        *told = Told::numbered(16, frames.len() as u64);
        self.waiting = Waiting::of(frames);
        DONE
    }

    /// The next piece of the stream from a peer: the frames that are whole now wait, each of them
    /// from this peer to this space. 60 where the peer is outside 1 to 32, then 61 while frames
    /// still wait; then the number of the stream's fault, or 14 for want of memory; then 64 where
    /// one of the frames is from another space or for another. No frame of the piece waits then,
    /// and the stream goes on behind the piece.
    pub fn push(&mut self, peer: u16, piece: &[u8], told: &mut Told) -> u32
        ensures pushed { IsSpace peer → self.old.waiting ≡ [] → Pushed peer self.old.space.id
            (is_done result) (feed_at self.old.feeds peer) piece.now self.new.waiting
            (feed_at self.new.feeds peer) told.new result }
        ensures others { SameButOf peer self.old.feeds self.new.feeds }
        ensures space { self.new.space ≡ self.old.space }
        ensures value { self.new.value ≡ self.old.value }
        ensures answer { self.new.answer ≡ self.old.answer }
        ensures waits { IsSpace peer → (frame : FrameOf) (rest : List FrameOf)
            → self.old.waiting ≡ frame ∷ rest → Unasked self.old self.new told.new result 61 }
        ensures range { (IsSpace peer → ⊥) → Unasked self.old self.new told.new result 60 }
    {
        let Some(peer) = SpaceId::new(peer) else {
            return untold(told, OUT_OF_RANGE);
        };
        if !self.waiting.is_empty() {
            return untold(told, STILL_WAITING);
        }
        self.push_for(peer, piece, told)
    }

    /// The first frame that waits comes to the space: the status, and what is told of what it
    /// brought. Its bytes become the answer, and it waits no more. 62 where none waits. Where
    /// memory is wanted nothing has changed.
    pub fn next(&mut self, alloc: Global, told: &mut Told) -> u32
        ensures brought { (frame : FrameOf) (rest : List FrameOf) → self.old.waiting ≡ frame ∷ rest
            → BroughtOrWants self.old frame rest self.new told.new result }
        ensures none { self.old.waiting ≡ [] → Unasked self.old self.new told.new result 62 }
    {
        let Some(frame) = self.waiting.first() else {
            return untold(told, NONE_WAITS);
        };
        let Ok(bytes) = spelled(alloc, frame) else {
            return untold(told, WANTED);
        };
        let status = bring(&mut self.space, frame, told);
        if status != WANTED {
            self.waiting.drop_first();
            self.answer = Bytes::from_vec(bytes);
        }
        status
    }

    /// A new stream from a peer: what was kept of the one before is forgotten, its fault too. What
    /// waits stays. 60 where the peer is outside 1 to 32.
    pub fn restart(&mut self, alloc: Global, peer: u16) -> u32
        ensures fresh { IsSpace peer → (result ≡ 0) × (feed_at self.new.feeds peer ≡ Ok []) }
        ensures others { SameButOf peer self.old.feeds self.new.feeds }
        ensures space { self.new.space ≡ self.old.space }
        ensures value { self.new.value ≡ self.old.value }
        ensures answer { self.new.answer ≡ self.old.answer }
        ensures waiting { self.new.waiting ≡ self.old.waiting }
        ensures range { (IsSpace peer → ⊥) → (result ≡ 60) × (self.new ≡ self.old) }
    {
        let Some(peer) = SpaceId::new(peer) else {
            return OUT_OF_RANGE;
        };
        self.feeds.restart(alloc, peer);
        DONE
    }
}
