//! What a thread looks for that waits for a reply.

ghost use Rattle.std.specs.Prelude.{◌≡◌};
ghost use Rattle.nob_node_parts.specs.Coming as coming;

use crossbeam_utils::CachePadded;
use nob_model_types::{Answer, Event};
use std::sync::atomic::{AtomicU64, Ordering};

/// The longest note, in bytes: a note is an item that is no call and no reply.
const MAX_NOTE: usize = 9;

/// Counts of the items that came to a node and may be replies: all but notes.
#[derive(Drop)]
pub struct Replies {
    // How many have come.
    arrived: CachePadded<AtomicU64>,
    // How many of them had come when an item was acted on last.
    acted: CachePadded<AtomicU64>,
    // How many these were when a call was made last.
    asked: CachePadded<AtomicU64>,
}

/// What an answered event was for who waits for a reply.
#[derive(Clone, Copy, Debug, PartialEq, Eq)]
pub enum Coming {
    /// A call was made.
    Called,
    /// An item came that may be a reply.
    Came,
    /// An item was acted on.
    Acted,
    /// Nothing of these.
    Nothing,
}

impl Replies {
    /// None has come.
    pub fn new() -> Replies {
        Replies {
            arrived: CachePadded::new(AtomicU64::new(0)),
            acted: CachePadded::new(AtomicU64::new(0)),
            asked: CachePadded::new(AtomicU64::new(0)),
        }
    }

    /// Counts an answered event. Who makes it counts it, before he goes on.
    pub fn count(&self, event: &Event, answer: &Answer) {
        match coming_by(event, answer) {
            Coming::Called => {
                let acted = self.acted.load(Ordering::SeqCst);
                self.asked.store(acted, Ordering::SeqCst);
            }
            Coming::Came => {
                self.arrived.fetch_add(1, Ordering::SeqCst);
            }
            Coming::Acted => {
                let arrived = self.arrived.load(Ordering::SeqCst);
                self.acted.store(arrived, Ordering::SeqCst);
            }
            Coming::Nothing => {}
        }
    }

    /// How many had been acted on when a call was made last.
    pub fn asked(&self) -> u64 {
        self.asked.load(Ordering::SeqCst)
    }

    /// Whether one was acted on beside so many.
    pub fn is_beside(&self, asked: u64) -> bool {
        self.acted.load(Ordering::SeqCst) != asked
    }
}

/// What an answered event was for who waits for a reply.
pub fn coming_by(event: &Event, answer: &Answer) -> Coming
    ensures { result ≡ coming.coming_by event.now answer.now }
{
    match event {
        Event::Call { .. } => Coming::Called,
        Event::Arrive(frame) => {
            if has_accepted(answer) && frame.payload.len() > MAX_NOTE {
                return Coming::Came;
            }
            Coming::Nothing
        }
        Event::Act(_) => Coming::Acted,
        _ => Coming::Nothing,
    }
}

/// Whether an answer says that items were accepted, on which whoever had them arrive acts next.
pub fn has_accepted(answer: &Answer) -> bool
    ensures { result ≡ coming.has_accepted answer.now }
{
    match answer {
        Answer::Took(count) => *count > 0,
        _ => false,
    }
}
