//! The streams from the peers.

ghost use Rattle.std.specs.Prelude.{◌≡◌, [], Ok, IfOk, replicate};
ghost use Rattle.nob_frame.specs.Streams.{Answers};
ghost use Rattle.nob_host_space.specs.Feeds.{feed_at, fresh_feeds, SameButOf};

use nob_frame::{Feed, Frame, FrameError};
use nob_ids::SpaceId;
use std::alloc::{AllocError, Global};
use std::marker::Model;

// A fresh stream for each of so many peers. Only memory fails it.
fn fresh(alloc: Global, count: u16) -> Result<Vec<Feed>, AllocError>
    ensures { IfOk result (λ feeds. feeds.items ≡ replicate count (Ok [])) }
{
    if count == 0 {
        return Ok(Vec::new(alloc));
    }
    let mut feeds = fresh(alloc, count - 1)?;
    feeds.insert(0, Feed::new(alloc))?;
    Ok(feeds)
}

/// A stream of frames from each peer. Contracts see what is kept of each, in the order of the
/// peers.
#[derive(Drop)]
pub struct Feeds {
    feeds: Vec<Feed>,
}

impl Model for Feeds {
    ghost use Rattle.std.specs.Prelude.{◌≡◌, List, length};
    ghost use Rattle.nob_frame.specs.Streams.{Kept};

    ghost Value = { List Kept };

    ghost view = { λ feeds. feeds.feeds.items };

    ghost invariant = { λ feeds. length feeds.feeds.items ≡ 32 };
}

impl Feeds {
    /// Streams of which nothing came yet. Only memory fails it.
    pub fn new(alloc: Global) -> Result<Feeds, AllocError>
        ensures { IfOk result (λ feeds. feeds ≡ fresh_feeds) }
    {
        Ok(Feeds {
            feeds: fresh(alloc, SpaceId::MOST)?,
        })
    }

    /// The next piece of the stream from a peer: the frames that are whole now, as a `Feed` gives
    /// them.
    pub fn push(&mut self, peer: SpaceId, piece: &[u8]) -> Result<Vec<Frame>, FrameError>
        ensures answer { Answers (λ given. given.items) (feed_at self.old peer) piece.now result
            (feed_at self.new peer) }
        ensures others { SameButOf peer self.old self.new }
    {
        let place = peer.place();
        self.feeds[place].push(piece)
    }

    /// A new stream from a peer: nothing is kept of the one before.
    pub fn restart(&mut self, alloc: Global, peer: SpaceId)
        ensures fresh { feed_at self.new peer ≡ Ok [] }
        ensures others { SameButOf peer self.old self.new }
    {
        let place = peer.place();
        self.feeds[place] = Feed::new(alloc);
    }
}
