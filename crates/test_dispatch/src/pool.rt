//! A pool of a desk and one hand, and what is left in its lanes once both have ended.

ghost use Rattle.std.specs.Prelude.{◌≡◌, [], ◌∷◌, IfSome};
ghost use Rattle.nob_dispatch_lanes.specs.Ends.{stake_of, given_by, got_by};
ghost use Rattle.test_dispatch.specs.Wholes.{AreWhole, AreOnePool};

use crate::node::{Polled, Staff, keeper_of, relay};
use crate::objects::Thing;
use crate::rows::{ask, close_all, reference};
use nob_dispatch::{Desk, Errand, Hand, OpenGate, Return, carry_out};
use nob_dispatch_lanes::{LanePut, LaneTake, gather, lane};
use nob_ids::SpaceId;
use nob_keeper::Seat;
use nob_model_types::Event;
use nob_pickle::Value;
use std::alloc::Global;
use std::sync::Wait;

/// How many errands, or objects on their way back, a lane holds.
const LANE: usize = 4;

/// How much a pool left in its lanes when it ended.
#[derive(Clone, Copy, Debug, PartialEq, Eq)]
pub(crate) struct LeftOver {
    /// Errands that were given and that no hand got.
    pub(crate) errands: usize,
    /// Objects that were on their way back.
    pub(crate) objects: usize,
    // Whether each entry of both spaces has its receipt.
    pub(crate) is_whole: bool,
}

/// Two calls of one object: the first is carried out, and the pool ends when the second is in the lane.
pub(crate) fn run<R: Wait>(rt: &R, alloc: Global) -> Option<LeftOver> {
    let first = SpaceId::new(1)?;
    let second = SpaceId::new(2)?;
    let one = keeper_of(alloc, first)?;
    let Some(other) = keeper_of(alloc, second) else {
        one.shut();
        return None;
    };
    let mut ours = Staff::new(alloc, &one, second);
    let mut theirs = Staff::new(alloc, &other, first);
    let mut seats = Vec::new(alloc);
    let left = calls(rt, &one, &mut ours, &other, &mut theirs).and_then(|_| pool(
        rt, alloc, &other, &mut seats,
    ));
    let is_whole = close_all(one, ours, Vec::new(alloc));
    let is_other_whole = close_all(other, theirs, seats);
    let (errands, objects) = left?;
    Some(LeftOver {
        errands,
        objects,
        is_whole: is_whole && is_other_whole,
    })
}

// Two calls of the second space's object at index 0, which it acts on.
fn calls<R: Wait>(
    rt: &R,
    one: &Polled,
    ours: &mut Staff,
    other: &Polled,
    theirs: &mut Staff,
) -> Option<()> {
    for _ in 0..2 {
        ask(rt, one, ours, reference(2, 0)?, 0, Value::Unit)?;
    }
    relay(rt, one, ours, other, theirs)?;
    for _ in 0..2 {
        let act = Event::Act(theirs.peer);
        other.keeper.call(rt, &mut theirs.seat, &act, 0).ok()?;
    }
    Some(())
}

// The pool works, and ends: how many errands and how many objects are left in its lanes.
fn pool<R: Wait>(
    rt: &R,
    alloc: Global,
    other: &Polled,
    seats: &mut Vec<Seat>,
) -> Option<(usize, usize)> {
    let (give, take) = ends::<Errand<Thing>>(alloc)?;
    let (give_back, take_back) = ends::<Return<Thing>>(alloc)?;
    let mut desk = Desk::new(alloc, other.keeper.seat(), give, take_back);
    let mut hand = Hand::new(other.keeper.seat(), take, give_back);
    let is_worked = work(rt, other, &mut desk, &mut hand);
    let (errands, objects) = end(rt, alloc, desk, hand, seats)?;
    if is_worked {
        return Some((errands, objects));
    }
    None
}

// A lane with one end of each kind.
fn ends<T: Drop>(alloc: Global) -> Option<(LanePut<T>, LaneTake<T>)>
    ensures whole { IfSome result (λ ends. AreWhole (stake_of ends.0.pass) (stake_of ends.1.pass)) }
    ensures given { IfSome result (λ ends. given_by ends.0.pass ≡ []) }
    ensures got { IfSome result (λ ends. got_by ends.1.pass ≡ []) }
{
    let Ok((mut puts, mut takes)) = lane::<T>(alloc, LANE, 1, 1) else {
        return None;
    };
    Some((puts.remove(0), takes.remove(0)))
}

// The first job is carried out, and the errand of the second given: whether all went so.
fn work<R: Wait>(rt: &R, other: &Polled, desk: &mut Desk<Thing>, hand: &mut Hand<Thing>) -> bool
    ensures desk { desk.new.stakes ≡ desk.old.stakes }
    ensures hand { hand.new.stakes ≡ hand.old.stakes }
{
    let is_there = desk.add(0, Thing::Counter(0)).is_ok();
    let is_given = turns(rt, other, desk);
    if !hand.try_get(rt) {
        return false;
    }
    carry_out(rt, other, &OpenGate, hand);
    turns(rt, other, desk) && is_given && is_there
}

// Some turns of a desk, which claims the jobs, and hands on the next: whether the keeper allowed all.
fn turns<R: Wait>(rt: &R, other: &Polled, desk: &mut Desk<Thing>) -> bool
    ensures { desk.new.stakes ≡ desk.old.stakes }
{
    let is_first = desk.turn(rt, other).is_ok();
    let is_second = desk.turn(rt, other).is_ok();
    let is_third = desk.turn(rt, other).is_ok();
    is_first && is_second && is_third
}

// The pool ends: how many errands and how many objects are left in its lanes.
fn end<R: Wait>(
    rt: &R,
    alloc: Global,
    desk: Desk<Thing>,
    hand: Hand<Thing>,
    seats: &mut Vec<Seat>,
) -> Option<(usize, usize)>
    requires { AreOnePool desk.stakes hand.stakes }
{
    let (remaining, _unsent, give, take_back) = desk.end();
    let (seat, _errand, take, give_back) = hand.end();
    seats.push(remaining.seat).ok()?;
    seats.push(seat).ok()?;
    let errands = left_in(rt, alloc, give, take)?;
    let objects = left_in(rt, alloc, give_back, take_back)?;
    Some((errands, objects))
}

// How many are left in a lane of which these are all ends.
fn left_in<T: Drop, R: Wait>(
    rt: &R,
    alloc: Global,
    give: LanePut<T>,
    take: LaneTake<T>,
) -> Option<usize>
    requires { AreWhole (stake_of give.pass) (stake_of take.pass) }
{
    let mut puts = Vec::new(alloc);
    let mut takes = Vec::new(alloc);
    puts.push(give).ok()?;
    takes.push(take).ok()?;
    match gather(rt, alloc, puts, takes) {
        Ok(rest) => Some(rest.len()),
        Err(_) => None,
    }
}
