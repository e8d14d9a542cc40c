//! The agent that takes what comes over one link.

ghost use Rattle.std.specs.Prelude.{◌≡◌, ◌≢◌, [], None, OnOk};
ghost use Rattle.nob_agents.specs.Taking.{IsTied};

use crate::calls::Calls;
use crate::due_event::DueEvent;
use crate::parcels::TakeParcel;
use crate::turn::Turn;
use nob_ids::SpaceId;
use nob_keeper::{KeeperError, Receipt, Seat};
use nob_link::{Parcel, TryTakeError};
use nob_model_types::{Answer, Event};
use std::marker::Model;
use std::sync::Wait;

/// The maximum number of items that are acted on in a turn.
const MAX_ACTS: u32 = 64;

/// The agent that takes what comes over the link from one peer: it has each frame arrive, and acts
/// on what was accepted. Contracts see the peer, the parcels that its end took, its receipts and
/// what it is to ask; these are tied.
#[derive(Drop)]
pub struct Taker<T: TakeParcel + Drop> {
    seat: Seat,
    peer: SpaceId,
    end: T,
    due: Option<DueEvent>,
    // How many accepted items it hasn't tried to act on.
    accepted: u64,
    has_ended: bool,
}

impl<T: TakeParcel + Drop> Model for Taker<T> {
    ghost use Rattle.nob_agents.specs.Taking.{Taking};

    ghost Value = { Taking };

    ghost use Rattle.std.specs.Coded.{codes};
    ghost use Rattle.nob_pickle.specs.Marks.{trees_code};

    ghost coded = { Prim.hlevel (codes, trees_code) };

    ghost use Rattle.nob_agents.specs.Taking.{IsTied};

    ghost view = { λ taker. record {
      peer = taker.peer;
      taken = T.taken taker.end;
      receipts = taker.seat;
      due = taker.due;
    } };

    ghost invariant = { λ taker. IsTied (record {
      peer = taker.peer;
      taken = T.taken taker.end;
      receipts = taker.seat;
      due = taker.due;
    }) };
}

impl<T: TakeParcel + Drop> Taker<T> {
    /// The agent for the link from a peer. The caller's condition: the seat and the end are unused.
    pub fn new(seat: Seat, peer: SpaceId, end: T) -> Taker<T>
        requires seat { seat ≡ [] }
        requires end { T.taken end ≡ [] }
        ensures { result ≡ record { peer = peer; taken = []; receipts = []; due = None } }
    {
        Taker {
            seat,
            peer,
            end,
            due: None,
            accepted: 0,
            has_ended: false,
        }
    }

    // Takes the next parcel, if there is one now.
    fn take<R: Wait>(&mut self, rt: &R)
        requires { self.old.due ≡ None }
    {
        match self.end.try_take(rt) {
            Ok(Parcel::Frame { stamp, frame }) => {
                self.due = Some(DueEvent {
                    seen: stamp,
                    event: Event::Arrive(frame),
                });
            }
            Ok(Parcel::End) => self.has_ended = true,
            Err(TryTakeError::Empty) => {}
            Err(TryTakeError::Gone) => {
                self.has_ended = true;
                self.due = Some(DueEvent {
                    seen: 0,
                    event: Event::Close(self.peer),
                });
            }
        }
    }

    /// Waits for the next parcel, which the next turn asks the keeper of; it doesn't wait where
    /// something is due, or nothing comes any more. Whoever puts a parcel at the link's other end
    /// wakes it, and so does the one who lets that end go.
    pub fn wait<R: Wait>(&mut self, rt: &R)
        ensures due { self.old.due ≢ None → self.new ≡ self.old }
        ensures receipts { self.new.receipts ≡ self.old.receipts }
    {
        if self.due.is_some() || self.has_ended {
            return;
        }
        match self.end.take(rt) {
            Some(Parcel::Frame { stamp, frame }) => {
                self.due = Some(DueEvent {
                    seen: stamp,
                    event: Event::Arrive(frame),
                });
            }
            Some(Parcel::End) => self.has_ended = true,
            None => {
                self.has_ended = true;
                self.due = Some(DueEvent {
                    seen: 0,
                    event: Event::Close(self.peer),
                });
            }
        }
    }

    // Asks what is due, if something is: how many events that was.
    fn answer<R: Wait, C: Calls>(&mut self, rt: &R, keeper: &C) -> Result<u64, KeeperError>
        ensures { OnOk result (self.new.due ≡ None) }
    {
        let Some(due) = &self.due else {
            return Ok(0);
        };
        keeper.call(rt, &mut self.seat, &due.event, due.seen)?;
        self.due = None;
        let more = accepted_by(self.seat.newest());
        self.accepted = self.accepted.saturating_add(more);
        Ok(1)
    }

    // Acts on one item that was accepted, if there is one left: how many events that was.
    fn act<R: Wait, C: Calls>(&mut self, rt: &R, keeper: &C) -> Result<u64, KeeperError>
        ensures { self.new.due ≡ self.old.due }
    {
        if self.accepted == 0 {
            return Ok(0);
        }
        keeper.call(rt, &mut self.seat, &Event::Act(self.peer), 0)?;
        self.accepted -= 1;
        Ok(1)
    }

    /// One turn: the next parcel is taken, if there is one now, its frame arrives, and what was
    /// accepted is acted on. Where the other end is gone the session with the peer is closed. It
    /// doesn't wait for a parcel. After K2, or another error of the keeper, the next turn goes on
    /// where this one stood: nothing is lost.
    pub fn turn<R: Wait, C: Calls>(&mut self, rt: &R, keeper: &C) -> Result<Turn, KeeperError> {
        if self.due.is_none() && !self.has_ended {
            self.take(rt);
        }
        let mut count = self.answer(rt, keeper)?;
        for _ in 0..MAX_ACTS {
            let acted = self.act(rt, keeper)?;
            if acted == 0 {
                break;
            }
            count = count.saturating_add(acted);
        }
        Ok(if count > 0 {
            Turn::Did(count)
        } else if self.has_ended {
            Turn::End
        } else {
            Turn::Idle
        })
    }

    /// Its parts, which are tied: what its end took is what arrived by its receipts, but for at
    /// most one frame, and what it asked besides is about its peer.
    pub fn end(self) -> (Seat, T, Option<DueEvent>)
        ensures parts { self ≡ record {
          peer = self.peer;
          taken = T.taken result.1;
          receipts = result.0;
          due = result.2;
        } }
        ensures tied { IsTied self }
    {
        let Taker { seat, end, due, .. } = self;
        (seat, end, due)
    }
}

// How many items an arrival accepted.
fn accepted_by(receipt: Option<&Receipt>) -> u64 {
    match receipt {
        Some(receipt) => match &receipt.result {
            Ok(Answer::Took(count)) => *count as u64,
            _ => 0,
        },
        None => 0,
    }
}
