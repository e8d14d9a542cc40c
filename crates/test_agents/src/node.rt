//! One of two spaces, with its keeper and its agents.

ghost use Rattle.std.specs.Prelude.{◌≡◌, [], IfSome};
ghost use Rattle.std.specs.List.{AllByRecursion};
ghost use Rattle.nob_agents.specs.Ways.{IsTied};
ghost use Rattle.nob_agents.specs.Sending.{AreApart};

use nob_agents::{Carer, Sender, Taker, Turn, Way};
use nob_fault::{Shim, words_between};
use nob_ids::{Limits, SpaceId};
use nob_keeper::{Keeper, KeeperError, Seat, Space};
use nob_link::{PutEnd, TakeEnd, link};
use nob_model_types::{Answer, Event, Outcome};
use nob_pickle::Value;
use std::alloc::Global;
use std::sync::Wait;

/// The agents of one space, and a seat for whoever else asks.
#[derive(Drop)]
pub(crate) struct Agents {
    taker: Taker<TakeEnd>,
    sender: Sender<PutEnd>,
    carer: Carer,
    pub(crate) seat: Seat,
    // How many turns running its Sender was idle where there was something to send.
    idle_turns: u32,
    pub(crate) carer_idled_rightly: bool,
    pub(crate) sender_idled_rightly: bool,
}

/// A keeper of a new space, one of two.
pub(crate) fn keeper_of(alloc: Global, space: SpaceId) -> Option<Keeper> {
    let Ok(space) = Space::new(alloc, space, 2, Limits::default()) else {
        return None;
    };
    match Keeper::new(alloc, space) {
        Ok(keeper) => Some(keeper),
        Err(space) => {
            space.shut();
            None
        }
    }
}

/// The new ends of the links to a peer and from it, and the words of the shim before the first.
#[derive(Drop)]
pub(crate) struct Ends {
    pub(crate) alloc: Global,
    put: PutEnd,
    take: TakeEnd,
    words: Vec<u64>,
    ghost new_put: { put.put ≡ [] },
    ghost new_take: { take.taken ≡ [] },
}

/// The ends of the first space and of the second, of a link each way. Of ten frames so many are to
/// be lost, and others repeated or kept back.
pub(crate) fn ends_of_both(alloc: Global, loss: u64) -> Option<(Ends, Ends)> {
    let first = SpaceId::new(1)?;
    let second = SpaceId::new(2)?;
    let there = words_of(alloc, first, second, loss)?;
    let back = words_of(alloc, second, first, loss)?;
    let (put_there, take_there) = link(alloc, 64).ok()?;
    let (put_back, take_back) = link(alloc, 64).ok()?;
    let ours = Ends {
        alloc,
        put: put_there,
        take: take_back,
        words: there,
    };
    let theirs = Ends {
        alloc,
        put: put_back,
        take: take_there,
        words: back,
    };
    Some((ours, theirs))
}

// The words of the shim from one space to another: none where nothing is to be lost.
fn words_of(alloc: Global, from: SpaceId, to: SpaceId, loss: u64) -> Option<Vec<u64>> {
    if loss == 0 {
        return Some(Vec::new(alloc));
    }
    words_between(alloc, 7, from, to, loss).ok()
}

/// The agents of a keeper, between the ends of its links to and from its peer.
pub(crate) fn agents_of(keeper: &Keeper, peer: SpaceId, ends: Ends) -> Option<Agents> {
    let Ends {
        alloc,
        put,
        take,
        words,
    } = ends;
    let ways = ways_of(alloc, peer, put, words)?;
    Some(Agents {
        taker: Taker::new(keeper.seat(), peer, take),
        sender: Sender::new(keeper.seat(), ways, 3, 0),
        carer: Carer::new(keeper.seat()),
        seat: keeper.seat(),
        idle_turns: 0,
        carer_idled_rightly: true,
        sender_idled_rightly: true,
    })
}

// The one way to the peer.
fn ways_of(alloc: Global, peer: SpaceId, put: PutEnd, words: Vec<u64>) -> Option<Vec<Way<PutEnd>>>
    requires { put.put ≡ [] }
    ensures tied { IfSome result (λ ways. AllByRecursion (IsTied []) ways.items) }
    ensures apart { IfSome result (λ ways. AreApart ways.items) }
{
    let mut ways = Vec::new(alloc);
    let Ok(()) = ways.push(Way::new(peer, Shim::new(words), put, Vec::new(alloc))) else {
        return None;
    };
    Some(ways)
}

// What a turn came to. For want of memory it did nothing, and the next one goes on. `None` where an
// agent's call failed.
fn unless_failed(turn: Result<Turn, KeeperError>) -> Option<Turn> {
    match turn {
        Ok(turn) => Some(turn),
        Err(KeeperError::OutOfMemory) => Some(Turn::Did(0)),
        Err(_) => None,
    }
}

impl Agents {
    /// A round: a turn of the Carer and of the Sender, and turns of the Taker until it has nothing
    /// to do. `None` where an agent's call failed.
    pub(crate) fn round<R: Wait>(&mut self, rt: &R, keeper: &Keeper) -> Option<()> {
        let work = keeper.look(rt).work;
        let may_care = work.settle
            || work.clean
            || work.withdraw.is_some()
            || work.act.iter().any(|act| *act);
        let turn = unless_failed(self.carer.turn(rt, keeper))?;
        if turn == Turn::Idle && may_care {
            self.carer_idled_rightly = false;
        }
        self.send(rt, keeper)?;
        for _ in 0..256 {
            match unless_failed(self.taker.turn(rt, keeper))? {
                Turn::Did(_) => {}
                Turn::Idle | Turn::End => return Some(()),
            }
        }
        Some(())
    }

    // A turn of the Sender.
    fn send<R: Wait>(&mut self, rt: &R, keeper: &Keeper) -> Option<()> {
        let may_send = keeper.look(rt).work.send.iter().any(|send| *send);
        let turn = unless_failed(self.sender.turn(rt, keeper))?;
        if turn == Turn::Idle && may_send {
            self.idle_turns = self.idle_turns.saturating_add(1);
        } else {
            self.idle_turns = 0;
        }
        if self.idle_turns > 3 {
            self.sender_idled_rightly = false;
        }
        Some(())
    }

    /// Claims a job, if there is one, and ends it with unit.
    pub(crate) fn work<R: Wait>(&mut self, rt: &R, keeper: &Keeper) -> Option<()> {
        if !keeper.look(rt).work.claim {
            return Some(());
        }
        self.ask(rt, keeper, &Event::Claim)?;
        let job = match &self.seat.newest()?.result {
            Ok(Answer::Job(job)) => job.job,
            _ => return None,
        };
        self.ask(
            rt,
            keeper,
            &Event::Finish(job, Outcome::Answer(Value::Unit)),
        )
    }

    /// A call of the seat that no agent has; once more where memory was wanted.
    pub(crate) fn ask<R: Wait>(&mut self, rt: &R, keeper: &Keeper, event: &Event) -> Option<()> {
        match keeper.call(rt, &mut self.seat, event, 0) {
            Err(KeeperError::OutOfMemory) => keeper.call(rt, &mut self.seat, event, 0).ok(),
            result => result.ok(),
        }
    }

    /// Whether its Carer has withdrawn an object.
    pub(crate) fn has_withdrawn(&self) -> bool {
        self.carer.seat().receipts().iter().any(|receipt| {
            match &receipt.result {
                Ok(Answer::Withdrawn) => true,
                _ => false,
            }
        })
    }
}
