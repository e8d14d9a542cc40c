//! Where players wait for one another.

ghost use Rattle.std.specs.Prelude.{◌≡◌};

use nob_ids::SpaceId;
use std::sync::{Condvar, Mutex, Wait};

/// Who is there, and who has come to the meeting that is next.
#[derive(Drop)]
struct Come {
    // How many players haven't left.
    present: u64,
    // How many of them have come to the next meeting.
    came: u64,
    // How many meetings are over.
    meetings: u64,
    // Whether nobody has left.
    is_whole: bool,
}

impl Come {
    // The next meeting is over if all that are there have come to it.
    fn end_if_all(&mut self) {
        if self.came >= self.present {
            self.came = 0;
            self.meetings = self.meetings.saturating_add(1);
        }
    }
}

/// Where the players of a program wait for one another. Who leaves is waited for no more.
#[derive(Drop)]
pub struct Meeting {
    come: Mutex<Come>,
    changed: Condvar,
}

impl Meeting {
    /// That of so many players, of whom nobody has come.
    pub fn new(players: u64) -> Meeting {
        Meeting {
            come: Mutex::new(Come {
                present: players,
                came: 0,
                meetings: 0,
                is_whole: true,
            }),
            changed: Condvar::new(),
        }
    }

    // One comes to the next meeting, and waits until all that are there have come: whether nobody
    // has left. The last that comes wakes it, or the last for whom it waits that leaves.
    fn come<R: Wait>(&self, rt: &R) -> bool {
        let mut come = self.come.lock(rt);
        let meetings = come.meetings;
        come.came = come.came.saturating_add(1);
        come.end_if_all();
        drop(come);
        self.changed.notify_all();
        let come = self
            .changed
            .wait_while(rt, self.come.lock(rt), |come| come.meetings == meetings);
        come.is_whole
    }

    // One leaves.
    pub(crate) fn leave<R: Wait>(&self, rt: &R) {
        let mut come = self.come.lock(rt);
        come.present = come.present.saturating_sub(1);
        come.is_whole = false;
        come.end_if_all();
        drop(come);
        self.changed.notify_all();
    }

    /// Waits until so many meetings are over, or nobody is left. Each meeting that ends wakes it,
    /// and each that leaves.
    pub fn wait_for<R: Wait>(&self, rt: &R, meetings: u64) {
        let come = self.changed.wait_while(rt, self.come.lock(rt), |come| {
            come.meetings < meetings && come.present > 0
        });
        drop(come);
    }

    /// Waits until all have left. The last that leaves wakes it.
    pub fn wait_left<R: Wait>(&self, rt: &R) {
        let come = self
            .changed
            .wait_while(rt, self.come.lock(rt), |come| come.present > 0);
        drop(come);
    }

    /// Whether all have left.
    pub fn is_over<R: Wait>(&self, rt: &R) -> bool {
        let come = self.come.lock(rt);
        come.present == 0
    }
}

/// The other players, as one of them sees them.
#[derive(Clone, Copy)]
pub struct Company<'m> {
    meeting: &'m Meeting,
    // The space of its node.
    space: SpaceId,
    // How many spaces there are.
    spaces: u16,
}

impl<'m> Company<'m> {
    // Those of the player at the node of a space, one of so many.
    pub(crate) fn new(meeting: &'m Meeting, space: SpaceId, spaces: u16) -> Company<'m>
        ensures space { result.space ≡ space }
        ensures spaces { result.spaces ≡ spaces }
    {
        Company {
            meeting,
            space,
            spaces,
        }
    }

    /// The space of the player's own node.
    pub fn space(&self) -> SpaceId
        ensures { result ≡ self.now.space }
    {
        self.space
    }

    /// How many spaces there are: 1 to this, a player at each.
    pub fn spaces(&self) -> u16
        ensures { result ≡ self.now.spaces }
    {
        self.spaces
    }

    /// Waits until all others that haven't returned come to a meeting too: whether nobody has
    /// returned. The last that comes wakes it, or the last for whom it waits that returns, and even
    /// one whose node couldn't be made.
    pub fn meet<R: Wait>(&self, rt: &R) -> bool {
        self.meeting.come(rt)
    }

    // Is waited for no more.
    pub(crate) fn leave<R: Wait>(&self, rt: &R) {
        self.meeting.leave(rt);
    }

    // Waits until all have left.
    pub(crate) fn wait_left<R: Wait>(&self, rt: &R) {
        self.meeting.wait_left(rt);
    }
}
