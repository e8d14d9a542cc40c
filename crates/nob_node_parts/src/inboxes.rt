//! What comes over all links of a node, and who takes it.

use crate::inbox::{Inbox, Taken};
use crate::lookout::Lookout;
use crate::pace::Pace;
use crate::patience::Patience;
use crate::search::{LookStep, Manner, Search};
use crossbeam_utils::{Backoff, CachePadded};
use nob_agents::Calls;
use std::sync::atomic::{AtomicU64, Ordering};
use std::sync::{Mutex, Wait};
use std::thread;

/// How often a thread looks at most before it sleeps, whatever else comes meanwhile.
const MAX_LOOKS: u32 = 20_000;

/// If this many threads came to look since the turn before (after a usual rest, after a longer one),
/// others come soon.
const MANY_COMES: (u64, u64) = (2, 8);

/// What comes over each link of a node. A thread for each takes it, and while threads without work look at the
/// links these take it in its place.
#[derive(Drop)]
pub struct Inboxes {
    // The link's own thread has the lock while it sleeps in the link.
    inboxes: Vec<Mutex<Inbox>>,
    // How often a thread without work looked for a parcel.
    turns: CachePadded<AtomicU64>,
    lookout: Lookout,
    patience: Patience,
}

impl Inboxes {
    /// Nothing has come; the node runs on so many processors.
    pub fn new(inboxes: Vec<Mutex<Inbox>>, processors: usize) -> Inboxes {
        Inboxes {
            inboxes,
            turns: CachePadded::new(AtomicU64::new(0)),
            lookout: Lookout::new(),
            patience: Patience::new(processors),
        }
    }

    /// Those of each link, once all threads are done with them.
    pub fn into_inboxes(self) -> Vec<Mutex<Inbox>> {
        let Inboxes { inboxes, .. } = self;
        inboxes
    }

    /// How many links there are.
    pub fn links(&self) -> usize {
        self.inboxes.len()
    }

    /// Takes what comes over the link of a place, until nothing comes any more. It sleeps in the link,
    /// and rests while others look at the links.
    pub fn take<C: Calls, R: Wait>(&self, rt: &R, calls: &C, place: usize) {
        let Some(inbox) = self.inboxes.get(place) else {
            return;
        };
        let mut comes = self.lookout.comes();
        let mut pace = Pace::new(MANY_COMES.0, MANY_COMES.1);
        for _ in rt.forever() {
            let bell = self.lookout.bell();
            if !self.take_turns(rt, calls, inbox, comes) {
                return;
            }
            comes = self.lookout.comes();
            let is_long = pace.is_much_at(comes);
            self.lookout.rest(rt, bell, is_long);
        }
    }

    // Takes what comes over a link, until others look at the links, of whom so many had begun before.
    // False where nothing comes any more.
    fn take_turns<C: Calls, R: Wait>(
        &self,
        rt: &R,
        calls: &C,
        inbox: &Mutex<Inbox>,
        comes: u64,
    ) -> bool {
        let mut inbox = inbox.lock(rt);
        for _ in rt.forever() {
            match inbox.turn(rt, calls) {
                Taken::Some => {}
                Taken::Nothing if self.lookout.is_kept(comes) => return true,
                Taken::Nothing => inbox.wait(rt),
                Taken::NoMemory => thread::yield_now(),
                Taken::End => return false,
            }
        }
        unreachable!()
    }

    /// Looks for a moment for what is sought, and has what comes over the links meanwhile arrive:
    /// whether it is there. Else whoever sleeps in a link takes what comes over it again.
    pub fn look_for<C: Calls, R: Wait, F: Fn() -> bool>(
        &self,
        rt: &R,
        calls: &C,
        is_there: F,
    ) -> bool
        requires { F.IsAlwaysCallable is_there }
    {
        self.lookout.come();
        let found = self.look_on(rt, calls, self.patience.manner(), is_there);
        self.lookout.leave(found.is_some());
        found.is_some()
    }

    /// The same for a reply. Where replies took long lately others want the processor, most likely: it
    /// looks less often, and rests between its looks.
    pub fn look_for_reply<C: Calls, R: Wait, F: Fn() -> bool>(
        &self,
        rt: &R,
        calls: &C,
        is_there: F,
    ) -> bool
        requires { F.IsAlwaysCallable is_there }
    {
        self.lookout.come();
        let wariness = self.patience.wariness();
        let manner = self.patience.manner_for_reply(wariness);
        let found = self.look_on(rt, calls, manner, is_there);
        self.patience.note(wariness, &found);
        self.lookout.leave(found.is_some());
        found.is_some()
    }

    // Looks in some manner, and with more patience once something else has come: the search that found
    // what is sought, if one did.
    fn look_on<C: Calls, R: Wait, F: Fn() -> bool>(
        &self,
        rt: &R,
        calls: &C,
        manner: Manner,
        is_there: F,
    ) -> Option<Search>
        requires { F.IsAlwaysCallable is_there }
    {
        let mut search = Search::new(manner);
        for _ in 0..MAX_LOOKS {
            if is_there() {
                return Some(search);
            }
            if self.take_next(rt, calls) {
                if !is_there() {
                    search = Search::new(self.patience.manner());
                }
                continue;
            }
            match search.next() {
                LookStep::Look => look_away(),
                LookStep::Yield => thread::yield_now(),
                LookStep::Rest(micros) => self.lookout.pause(rt, micros),
                LookStep::Sleep => return None,
            }
        }
        None
    }

    // Takes a parcel from a link, if there is one at a link whose inbox nobody else works on:
    // whether there was. Each time another link comes first.
    fn take_next<C: Calls, R: Wait>(&self, rt: &R, calls: &C) -> bool {
        let turn = self.turns.fetch_add(1, Ordering::SeqCst);
        let Some(first) = turn.checked_rem(self.inboxes.len() as u64) else {
            return false;
        };
        let first = first as usize;
        for inbox in self.inboxes.iter().skip(first) {
            if has_taken(rt, calls, inbox) {
                return true;
            }
        }
        for inbox in self.inboxes.iter().take(first) {
            if has_taken(rt, calls, inbox) {
                return true;
            }
        }
        false
    }
}

// Leaves what threads share alone for a moment.
fn look_away() {
    let backoff = Backoff::new();
    backoff.spin();
    backoff.spin();
}

// A turn of an inbox, if nobody else works on it: whether it did something.
fn has_taken<C: Calls, R: Wait>(rt: &R, calls: &C, inbox: &Mutex<Inbox>) -> bool {
    match inbox.try_lock() {
        Some(mut inbox) => inbox.turn(rt, calls) == Taken::Some,
        None => false,
    }
}
