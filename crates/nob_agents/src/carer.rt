//! The agent that acts, settles, cleans and withdraws.

ghost use Rattle.std.specs.Prelude.{◌≡◌, []};
ghost use Rattle.nob_agents.specs.Caring.{IsCare, AreCares};

use crate::calls::Calls;
use crate::turn::Turn;
use nob_ids::SpaceId;
use nob_keeper::{KeeperError, Seat};
use nob_model_types::Event;
use std::marker::Model;
use std::sync::Wait;

/// The agent that acts on what others have left, settles, cleans and withdraws. Contracts see its
/// receipts, each of which is of one of these.
#[derive(Drop)]
pub struct Carer {
    seat: Seat,
}

impl Model for Carer {
    ghost use Rattle.nob_agents.specs.Caring.{Caring};

    ghost Value = { Caring };

    ghost use Rattle.std.specs.Coded.{codes};
    ghost use Rattle.nob_pickle.specs.Marks.{trees_code};

    ghost coded = { Prim.hlevel (codes, trees_code) };

    ghost use Rattle.nob_agents.specs.Caring.{AreCares};

    ghost view = { λ carer. record { receipts = carer.seat } };

    ghost invariant = { λ carer. AreCares carer.seat };
}

impl Carer {
    /// The agent of a seat. The caller's condition: the seat is unused.
    pub fn new(seat: Seat) -> Carer
        requires seat { seat ≡ [] }
        ensures { result.receipts ≡ seat }
    {
        Carer { seat }
    }

    // Asks the keeper for something that is to be cared for.
    fn ask<R: Wait, C: Calls>(
        &mut self,
        rt: &R,
        keeper: &C,
        event: &Event,
    ) -> Result<(), KeeperError>
        requires { IsCare event.now }
    {
        keeper.call(rt, &mut self.seat, event, 0)
    }

    /// One turn: whatever the space could do of these, once each: an item from each peer is acted
    /// on, a message settled, a surrogate given up, an object withdrawn. It is idle only where
    /// there was nothing of these to do.
    pub fn turn<R: Wait, C: Calls>(&mut self, rt: &R, keeper: &C) -> Result<Turn, KeeperError> {
        let work = keeper.look(rt).work;
        let mut count: u64 = 0;
        for (place, may_act) in work.act.iter().enumerate() {
            if *may_act && let Some(peer) = SpaceId::new(place as u16 + 1) {
                self.ask(rt, keeper, &Event::Act(peer))?;
                count = count.saturating_add(1);
            }
        }
        if work.settle {
            self.ask(rt, keeper, &Event::Settle)?;
            count = count.saturating_add(1);
        }
        if work.clean {
            self.ask(rt, keeper, &Event::Clean)?;
            count = count.saturating_add(1);
        }
        if let Some(index) = work.withdraw {
            self.ask(rt, keeper, &Event::Withdraw(index))?;
            count = count.saturating_add(1);
        }
        Ok(if count > 0 {
            Turn::Did(count)
        } else {
            Turn::Idle
        })
    }

    /// Its receipts.
    pub fn seat(&self) -> &Seat
        ensures { result.now ≡ self.now.receipts }
    {
        &self.seat
    }

    /// Its seat, whose receipts are of what it cares for.
    pub fn end(self) -> Seat
        ensures receipts { result ≡ self.receipts }
        ensures cares { AreCares self.receipts }
    {
        self.seat
    }
}
