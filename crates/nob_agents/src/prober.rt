//! The agent that asks a peer of whom nothing is heard.

ghost use Rattle.std.specs.Prelude.{◌≡◌, ◌⊎◌, ◌-◌, [], None, Some, false, slice_get, IfOk, IfSome, OnErr, MatchOption};
ghost use Rattle.std.specs.List.{AllByRecursion};
ghost use Rattle.nob_keeper.specs.Seats.{newest};
ghost use Rattle.nob_agents.specs.Probing as probing;

use crate::calls::Calls;
use crate::turn::Turn;
use nob_ids::{CallNo, SpaceId, WireRep};
use nob_keeper::{Keeper, KeeperError, Receipt, Seat, Tally};
use nob_model_types::{Answer, Event};
use nob_pickle::Value;
use std::marker::Model;
use std::sync::Wait;

/// The agent's method that says nothing: what a node calls so that its peer hears of its session.
const GREET: u16 = 19;

/// How often the time between two probes doubles at most.
const MAX_DOUBLINGS: u32 = 9;

/// What a keeper says of sessions, as an agent that probes sees it.
pub trait Tallies: Calls {
    /// What went each way on the session with a peer, and how it ended: none where it is no peer.
    fn tally<R: Wait>(&self, rt: &R, peer: SpaceId) -> Option<Tally>;
}

impl Tallies for Keeper {
    fn tally<R: Wait>(&self, rt: &R, peer: SpaceId) -> Option<Tally> {
        Keeper::tally(self, rt, peer)
    }
}

/// The agent that asks a peer of whom nothing is heard. A Close is given once: where the link loses
/// it the other end of the session stays open, and never learns of it where it has nothing out. So
/// who has an open session in which something went, and in which nothing happens, calls the peer's
/// agent from time to time: an end that has closed answers by a Close, and one that was opened anew
/// by what closes the older. Contracts see its receipts, and which probes' replies weren't taken;
/// these are tied.
#[derive(Drop)]
pub struct Prober {
    seat: Seat,
    // How many spaces there are.
    spaces: u16,
    // After so many looks that found the same the first probe is made.
    patience: u32,
    // At place p - 1: for how long nothing happened in the session with space p.
    quiet: [Quiet; 32],
    // At place p - 1: the probe of space p whose reply wasn't taken.
    untaken: [Option<CallNo>; 32],
    // The space whose session was looked at last.
    last: u16,
}

impl Model for Prober {
    ghost use Rattle.nob_agents.specs.Probing.{Probing};

    ghost Value = { Probing };

    ghost use Rattle.std.specs.Coded.{codes};
    ghost use Rattle.nob_pickle.specs.Marks.{trees_code};

    ghost coded = { Prim.hlevel (codes, trees_code) };

    ghost use Rattle.nob_agents.specs.Probing.{AreTied};

    ghost view = { λ prober. record {
      receipts = prober.seat;
      untaken = prober.untaken;
    } };

    ghost invariant = { λ prober. AreTied (record {
      receipts = prober.seat;
      untaken = prober.untaken;
    }) };
}

impl Prober {
    /// The agent of a seat, one of so many spaces, which looks at one session a turn. It probes a
    /// session first after so many looks in which nothing happened there, and after twice as many
    /// each time a probe found that too, 512 times as many at most. The caller's condition: the seat
    /// is unused.
    pub fn new(seat: Seat, spaces: u16, patience: u32) -> Prober
        requires seat { seat ≡ [] }
        ensures receipts { result.receipts ≡ [] }
        ensures untaken { AllByRecursion (λ one. one ≡ None) result.untaken }
    {
        Prober {
            seat,
            spaces,
            patience,
            quiet: [Quiet::new(); 32],
            untaken: [None; 32],
            last: 0,
        }
    }

    // The space whose session is looked at next, if it is one.
    fn next_peer(&mut self) -> Option<SpaceId>
        ensures { self.new ≡ self.old }
    {
        self.last = if self.last < self.spaces {
            self.last + 1
        } else {
            1
        };
        SpaceId::new(self.last)
    }

    /// One turn, which looks at the session with one space: the reply to its probe is taken where
    /// something happened there since, or a probe is made where it is time for one. It asks at most
    /// one thing, and never waits. After an error of the keeper nothing has changed, and a later
    /// turn tries again.
    pub fn turn<R: Wait, C: Tallies>(&mut self, rt: &R, keeper: &C) -> Result<Turn, KeeperError>
        ensures turned { IfOk result (λ turn. probing.HasTurned turn self.old self.new) }
        ensures err { OnErr result (self.new ≡ self.old) }
    {
        let Some(peer) = self.next_peer() else {
            return Ok(Turn::Idle);
        };
        let Some(tally) = keeper.tally(rt, peer) else {
            return Ok(Turn::Idle);
        };
        match untaken_at(&self.untaken, peer.place()) {
            Some(call) => self.take(rt, keeper, peer, call, tally),
            None => self.probe(rt, keeper, peer, tally),
        }
    }

    // Tries to take the reply to the probe of a peer, where something happened in its session since
    // that was tried.
    fn take<R: Wait, C: Tallies>(
        &mut self,
        rt: &R,
        keeper: &C,
        peer: SpaceId,
        call: CallNo,
        tally: Tally,
    ) -> Result<Turn, KeeperError>
        requires { slice_get self.old.untaken (peer - 1) ≡ Some (Some call) }
        ensures turned { IfOk result (λ turn. probing.HasTurned turn self.old self.new) }
        ensures err { OnErr result (self.new ≡ self.old) }
    {
        let place = peer.place();
        if self.quiet[place].tally == Some(tally) {
            return Ok(Turn::Idle);
        }
        keeper.call(rt, &mut self.seat, &Event::TakeReply(call), 0)?;
        self.untaken[place] = still_untaken(&self.seat, call);
        self.quiet[place] = self.quiet[place].after_reply(tally);
        Ok(Turn::Did(1))
    }

    // Probes a peer, where nothing happened in its session for long enough.
    fn probe<R: Wait, C: Tallies>(
        &mut self,
        rt: &R,
        keeper: &C,
        peer: SpaceId,
        tally: Tally,
    ) -> Result<Turn, KeeperError>
        ensures turned { IfOk result (λ turn. probing.HasTurned turn self.old self.new) }
        ensures err { OnErr result (self.new ≡ self.old) }
    {
        let place = peer.place();
        let quiet = self.quiet[place].after_look(tally);
        self.quiet[place] = quiet;
        let Some(event) = next(self.patience, quiet.looks, quiet.probes, tally, peer) else {
            return Ok(Turn::Idle);
        };
        keeper.call(rt, &mut self.seat, &event, 0)?;
        let called = called_in(&self.seat);
        self.untaken[place] = called;
        self.quiet[place] = quiet.after_probe(tally, called.is_some());
        Ok(Turn::Did(1))
    }

    /// Its receipts.
    pub fn seat(&self) -> &Seat
        ensures { result.now ≡ self.now.receipts }
    {
        &self.seat
    }

    /// Its seat, whose receipts are of probes and of the taking of their replies.
    pub fn end(self) -> Seat
        ensures receipts { result ≡ self.receipts }
        ensures tied { probing.AreTied self }
    {
        self.seat
    }
}

// The probe whose reply wasn't taken, at the place of its peer, if there is one.
fn untaken_at(untaken: &[Option<CallNo>; 32], place: usize) -> Option<CallNo>
    ensures { IfSome result (λ call. slice_get untaken.now place ≡ Some (Some call)) }
{
    match untaken.get(place) {
        Some(Some(call)) => Some(*call),
        _ => None,
    }
}

// A probe whose reply the newest receipt was to take, unless it was taken.
fn still_untaken(seat: &Seat, call: CallNo) -> Option<CallNo>
    ensures { (result ≡ None) ⊎ (result ≡ Some call) }
{
    let Some(receipt) = seat.newest() else {
        return Some(call);
    };
    if receipt.result.is_ok() {
        None
    } else {
        Some(call)
    }
}

// The number under which the newest receipt says that a call was made, if it says so.
fn called_in(seat: &Seat) -> Option<CallNo>
    ensures { result ≡ probing.called_in (newest seat.now) }
{
    match seat.newest() {
        Some(receipt) => called_by(receipt),
        None => None,
    }
}

// The number under which a receipt says that a call was made, if it says so.
fn called_by(receipt: &Receipt) -> Option<CallNo>
    ensures { result ≡ probing.called_by receipt.now.result }
{
    match &receipt.result {
        Ok(Answer::Called(call)) => Some(*call),
        _ => None,
    }
}

// Whether something went over a session that is open: then there may be one who waits.
fn is_used(tally: Tally) -> bool
    ensures { result ≡ probing.is_used tally }
{
    tally.closed.is_none() && (tally.sent >= 1 || tally.acted >= 1)
}

// How many pauses pass before a probe, where so many probes found that nothing had happened.
fn pauses_after(probes: u32) -> u32
    ensures { result ≡ probing.pauses_after probes }
{
    1 << probes.min(MAX_DOUBLINGS)
}

// Whether it is time for a probe, where so many looks and so many probes found that nothing had
// happened.
fn is_time(patience: u32, looks: u32, probes: u32, tally: Tally) -> bool
    ensures { result ≡ probing.is_time patience looks probes tally }
{
    is_used(tally) && looks >= patience.saturating_mul(pauses_after(probes))
}

// What is asked of a peer, where so many looks and so many probes found that nothing had happened:
// a probe, if it is time for one.
fn next(patience: u32, looks: u32, probes: u32, tally: Tally, peer: SpaceId) -> Option<Event>
    ensures { MatchOption result (probing.is_time patience looks probes tally ≡ false)
        (λ event. probing.IsNext patience looks probes tally peer event) }
{
    if is_time(patience, looks, probes, tally) {
        Some(probe_of(peer))
    } else {
        None
    }
}

// A probe of a peer.
fn probe_of(peer: SpaceId) -> Event
    ensures { probing.IsProbeOf peer result }
{
    let agent = WireRep {
        owner: peer,
        index: 0,
    };
    Event::Call {
        target: agent,
        method: GREET,
        value: Value::Unit,
    }
}

/// For how long nothing happened in a session.
#[derive(Clone, Copy, Debug)]
struct Quiet {
    // What had gone each way at the last look.
    tally: Option<Tally>,
    // How many looks found the same.
    looks: u32,
    // How many probes found the same.
    probes: u32,
}

impl Quiet {
    // Before the first look.
    fn new() -> Quiet {
        Quiet {
            tally: None,
            looks: 0,
            probes: 0,
        }
    }

    // The same after a look that found this.
    fn after_look(self, tally: Tally) -> Quiet {
        if self.tally == Some(tally) {
            return Quiet {
                tally: self.tally,
                looks: self.looks.saturating_add(1),
                probes: self.probes,
            };
        }
        Quiet {
            tally: Some(tally),
            looks: 0,
            probes: if self.is_probed(tally) {
                self.probes
            } else {
                0
            },
        }
    }

    // Whether this is what a probe of the peer's leaves behind the last look: an item came, and one
    // went.
    fn is_probed(self, tally: Tally) -> bool {
        match self.tally {
            Some(last) => tally == with_one_acted(with_one_sent(last)),
            None => false,
        }
    }

    // The same after a probe, which was made where the last look found this.
    fn after_probe(self, tally: Tally, is_made: bool) -> Quiet {
        let found = if is_made { with_one_sent(tally) } else { tally };
        Quiet {
            tally: Some(found),
            looks: 0,
            probes: self.probes.saturating_add(1),
        }
    }

    // The same after a try to take the reply to a probe, which found this.
    fn after_reply(self, tally: Tally) -> Quiet {
        Quiet {
            tally: Some(tally),
            looks: 0,
            probes: self.probes,
        }
    }
}

// What went each way on a session, and one item more to the peer.
fn with_one_sent(tally: Tally) -> Tally {
    Tally {
        session: tally.session,
        sent: tally.sent.saturating_add(1),
        acted: tally.acted,
        closed: tally.closed,
    }
}

// What went each way on a session, and one item more of the peer's.
fn with_one_acted(tally: Tally) -> Tally {
    Tally {
        session: tally.session,
        sent: tally.sent,
        acted: tally.acted.saturating_add(1),
        closed: tally.closed,
    }
}
