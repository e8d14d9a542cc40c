//! A script that goes on whatever it is answered, with a close at one place, behind which the
//! session may be opened anew.

ghost use Rattle.std.specs.Prelude.{◌≡◌, ◌&&◌, not, false};

use crate::asking::answer_of;
use crate::script::Move;
use nob_ids::SpaceId;
use nob_model::{Answer, Event, WorldStep};
use nob_rounds::MOST_REPEATS;
use nob_world::World;
use std::alloc::AllocError;

/// A close at a place of a script: where, and of which session.
#[derive(Clone, Copy)]
pub struct SessionCut {
    /// How many steps of the script stand before it.
    pub place: usize,
    /// The space that is asked to close.
    pub space: SpaceId,
    /// The peer with which it closes the session.
    pub peer: SpaceId,
}

/// Which ends have opened the session anew.
#[derive(Clone, Copy)]
pub struct Opened {
    /// The one that was closed.
    pub here: bool,
    /// The other one.
    pub there: bool,
}

/// How far a script has come.
#[derive(Drop)]
pub struct Course {
    /// How many steps were made, the close and what comes of it aside.
    pub made: usize,
    /// Whether the close was made, and the session was open before it.
    pub is_cut: bool,
    /// The close, if there is one.
    pub cut: Option<SessionCut>,
    /// Whether the session is to be opened anew behind the close.
    pub opens: bool,
    /// Where it was.
    pub opened: Opened,
}

impl Course {
    /// A script that hasn't begun, with this close, behind which the session is to be opened anew
    /// or not.
    pub fn new(cut: Option<SessionCut>, opens: bool) -> Course
        ensures { result ≡ record {
          made = 0;
          is_cut = false;
          cut = cut;
          opens = opens;
          opened = record { here = false; there = false };
        } }
    {
        Course {
            made: 0,
            is_cut: false,
            cut,
            opens,
            opened: Opened {
                here: false,
                there: false,
            },
        }
    }

    /// Makes all that the lines of a script say, whatever it is answered, and the close in its
    /// place. Only memory fails it.
    pub fn run(&mut self, world: &mut World, moves: &[Move]) -> Result<(), AllocError> {
        for next in moves {
            match next {
                Move::Make(step) => {
                    self.make(world, step)?;
                }
                Move::Bring(from, to) => self.bring(world, *from, *to)?,
            }
        }
        self.close_where_due(world)
    }

    // Closes the session, where this is the place.
    fn close_where_due(&mut self, world: &mut World) -> Result<(), AllocError> {
        let Some(cut) = self.cut else {
            return Ok(());
        };
        if cut.place == self.made {
            let step = WorldStep::Do(cut.space, Event::Close(cut.peer));
            self.is_cut = answer_of(world, &step)?.is_some();
            return self.open_where_due(world, &cut);
        }
        Ok(())
    }

    // Whether an end is to be asked to open the session anew: behind the close, until it has done
    // so.
    fn is_to_open(&self, has_opened: bool) -> bool
        ensures { result ≡ ((self.now.opens && self.now.is_cut) && not has_opened) }
    {
        self.opens && self.is_cut && !has_opened
    }

    // Asks both ends of a close to open the session anew, each as long as it hasn't.
    fn open_where_due(&mut self, world: &mut World, cut: &SessionCut) -> Result<(), AllocError> {
        if self.is_to_open(self.opened.here) {
            self.opened.here = opens(world, cut.space, cut.peer)?;
        }
        if self.is_to_open(self.opened.there) {
            self.opened.there = opens(world, cut.peer, cut.space)?;
        }
        Ok(())
    }

    // Makes a step of the script, behind the close where this is its place. Then both ends of that
    // are asked to open the session anew.
    fn make(&mut self, world: &mut World, step: &WorldStep) -> Result<Option<Answer>, AllocError> {
        self.close_where_due(world)?;
        self.made = self.made.saturating_add(1);
        let answer = answer_of(world, step)?;
        if let Some(cut) = self.cut {
            self.open_where_due(world, &cut)?;
        }
        Ok(answer)
    }

    // Brings what a space has to send to another.
    fn bring(&mut self, world: &mut World, from: SpaceId, to: SpaceId) -> Result<(), AllocError> {
        let before = world.frames().len() as u64;
        self.make(world, &WorldStep::Do(from, Event::Transmit(to)))?;
        let after = world.frames().len() as u64;
        for place in before..after {
            self.make(world, &WorldStep::Deliver(place.saturating_add(1)))?;
        }
        for _ in 0..MOST_REPEATS {
            let answer = self.make(world, &WorldStep::Do(to, Event::Act(from)))?;
            if !matches!(&answer, Some(Answer::Acted(_))) {
                return Ok(());
            }
        }
        Ok(())
    }
}

// Asks a space to open the session with a peer anew: whether it did.
fn opens(world: &mut World, space: SpaceId, peer: SpaceId) -> Result<bool, AllocError> {
    let answer = answer_of(world, &WorldStep::Do(space, Event::Open(peer)))?;
    Ok(answer.is_some())
}
