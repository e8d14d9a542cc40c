//! The rows of the run.

use crate::node::{Polled, Staff, keeper_of, relay};
use crate::objects::Thing;
use nob_dispatch::Handing;
use nob_dispatch_objects::Agent;
use nob_ids::{CallNo, SpaceId, WireRep};
use nob_keeper::Seat;
use nob_model_types::{Answer, Event};
use nob_pickle::{Bytes, Value, Values};
use std::alloc::Global;
use std::sync::Wait;

/// How many rounds are made for replies.
const ROUNDS: u32 = 40;

/// How many turns a dispatcher has for the job that it can't end yet: it is claimed in the first, and its
/// object looked for in the second.
const TURNS: u32 = 5;

/// In so many turns a dispatcher claims a job, keeps it, since its object is away, and claims another.
const TURNS_TO_CLAIM: u32 = 3;

/// More calls than a session has room for.
const MAX_CALLS: u32 = 5000;

/// The staff of both spaces.
#[derive(Drop)]
struct Both {
    ours: Staff,
    theirs: Staff,
}

/// A reply: its status, and the number that its value is, or has last in a list.
#[derive(Clone, Copy, Debug, PartialEq, Eq)]
pub(crate) struct Told {
    pub(crate) row: &'static str,
    pub(crate) status: u8,
    pub(crate) number: Option<i64>,
}

/// How often a dispatcher said that the end of a job is tried again: while there was no room for it, and
/// once there was.
#[derive(Clone, Copy, Debug, PartialEq, Eq)]
pub(crate) struct Laters {
    pub(crate) full: u32,
    pub(crate) free: u32,
    // Whether the dispatcher kept no job in the end.
    pub(crate) has_ended: bool,
}

/// What came of the run.
#[derive(Drop)]
pub(crate) struct Ran {
    pub(crate) told: Vec<Told>,
    pub(crate) laters: Laters,
    // Whether each entry of both spaces has its receipt.
    pub(crate) is_whole: bool,
}

/// Runs all rows.
pub(crate) fn run<R: Wait>(rt: &R, alloc: Global) -> Option<Ran> {
    let first = SpaceId::new(1)?;
    let second = SpaceId::new(2)?;
    let one = keeper_of(alloc, first)?;
    let Some(other) = keeper_of(alloc, second) else {
        one.shut();
        return None;
    };
    let mut both = Both {
        ours: Staff::new(alloc, &one, second),
        theirs: Staff::new(alloc, &other, first),
    };
    let told = both.rows(rt, alloc, &one, &other);
    let laters = both.no_room(rt, &one, &other);
    let Both { ours, theirs } = both;
    let is_whole = close(alloc, one, ours);
    let is_other_whole = close(alloc, other, theirs);
    Some(Ran {
        told: told?,
        laters: laters?,
        is_whole: is_whole && is_other_whole,
    })
}

// Ends a space. Whether each entry of its trace has its receipt.
fn close(alloc: Global, polled: Polled, staff: Staff) -> bool {
    close_all(polled, staff, Vec::new(alloc))
}

/// Ends a space, with more seats than those of its staff. Whether each entry of its trace has its
/// receipt.
pub(crate) fn close_all(polled: Polled, staff: Staff, mut seats: Vec<Seat>) -> bool {
    let is_ended = staff.end(&mut seats).is_some();
    let Polled { keeper } = polled;
    match keeper.close_with(seats) {
        Ok(_) => is_ended,
        Err((_, keeper, _)) => {
            keeper.shut();
            false
        }
    }
}

impl Both {
    // Rounds of both spaces.
    fn rounds<R: Wait>(&mut self, rt: &R, one: &Polled, other: &Polled) -> Option<()> {
        for _ in 0..ROUNDS {
            self.ours.round(rt, one)?;
            self.theirs.round(rt, other)?;
            relay(rt, one, &mut self.ours, other, &mut self.theirs)?;
            relay(rt, other, &mut self.theirs, one, &mut self.ours)?;
        }
        Some(())
    }

    // All rows.
    fn rows<R: Wait>(
        &mut self,
        rt: &R,
        alloc: Global,
        one: &Polled,
        other: &Polled,
    ) -> Option<Vec<Told>> {
        let mut told = Vec::new(alloc);
        self.set_up(rt, alloc, one, other)?;
        for (index, name) in [(1, b"a"), (2, b"b"), (3, b"c"), (4, b"d")] {
            let argument = named(alloc, name, reference(2, index)?)?;
            let call = ask(rt, other, &mut self.theirs, reference(1, 0)?, 0, argument)?;
            self.rounds(rt, one, other)?;
            told.push(reply(rt, other, &mut self.theirs, "put", call)?)
                .ok()?;
        }
        self.objects(rt, one, other, &mut told)?;
        for (row, index, method) in [
            ("fault", 3, 0),
            ("answer of an object that isn't there", 3, 1),
            ("answer of a reference that isn't held", 3, 2),
            ("answer that has no pickle", 3, 3),
            ("no such method", 3, 4),
            ("no such object", 4, 0),
        ] {
            let target = reference(2, index)?;
            let call = ask(rt, one, &mut self.ours, target, method, Value::Unit)?;
            self.rounds(rt, one, other)?;
            told.push(reply(rt, one, &mut self.ours, row, call)?).ok()?;
        }
        Some(told)
    }

    // The objects: of the first space its agent and a counter, of the second a counter, a caller,
    // an odd one, and one that is exported and not there.
    fn set_up<R: Wait>(
        &mut self,
        rt: &R,
        alloc: Global,
        one: &Polled,
        other: &Polled,
    ) -> Option<()> {
        let ours = &mut self.ours;
        let theirs = &mut self.theirs;
        let owner = ours.peer;
        ours.dispatcher
            .add(0, Thing::Agent(Agent::new(alloc)))
            .ok()?;
        ours.dispatcher.add(1, Thing::Counter(0)).ok()?;
        one.keeper.call(rt, &mut ours.seat, &Event::Export, 0).ok()?;
        theirs.dispatcher.add(1, Thing::Counter(0)).ok()?;
        theirs.dispatcher.add(2, Thing::Caller(alloc)).ok()?;
        theirs.dispatcher.add(3, Thing::Odd(alloc, owner)).ok()?;
        for _ in 0..4 {
            other
                .keeper
                .call(rt, &mut theirs.seat, &Event::Export, 0)
                .ok()?;
        }
        Some(())
    }

    // Calls of more than one object.
    fn objects<R: Wait>(
        &mut self,
        rt: &R,
        one: &Polled,
        other: &Polled,
        told: &mut Vec<Told>,
    ) -> Option<()> {
        self.two_objects(rt, one, other, told)?;
        self.nested(rt, one, other, told)?;
        self.object_gone(rt, one, other, told)
    }

    // A job waits for its object, another job is claimed, and then the object is taken out: the first
    // job is ended, and the other is handed on all the same.
    fn object_gone<R: Wait>(
        &mut self,
        rt: &R,
        one: &Polled,
        other: &Polled,
        told: &mut Vec<Told>,
    ) -> Option<()> {
        let lent = self.theirs.dispatcher.lend(1)?;
        let first = ask(rt, one, &mut self.ours, reference(2, 1)?, 0, Value::Unit)?;
        let second = ask(rt, one, &mut self.ours, reference(2, 3)?, 0, Value::Unit)?;
        relay(rt, one, &mut self.ours, other, &mut self.theirs)?;
        self.act_all(rt, other)?;
        for _ in 0..TURNS_TO_CLAIM {
            drop(self.theirs.dispatcher.turn(rt, other).ok()?);
        }
        drop(self.theirs.dispatcher.remove(1));
        drop(lent);
        self.rounds(rt, one, other)?;
        for (row, call) in [
            ("job whose object was taken out", first),
            ("job that was claimed before that", second),
        ] {
            told.push(reply(rt, one, &mut self.ours, row, call)?).ok()?;
        }
        Some(())
    }

    // What has arrived at the second space is acted on.
    fn act_all<R: Wait>(&mut self, rt: &R, other: &Polled) -> Option<()> {
        for _ in 0..ROUNDS {
            if other.keeper.work(rt).act.iter().any(|act| *act) {
                let act = Event::Act(self.theirs.peer);
                other.keeper.call(rt, &mut self.theirs.seat, &act, 0).ok()?;
            }
        }
        Some(())
    }

    // Two objects are called before either answers, and one of them twice.
    fn two_objects<R: Wait>(
        &mut self,
        rt: &R,
        one: &Polled,
        other: &Polled,
        told: &mut Vec<Told>,
    ) -> Option<()> {
        let counter = reference(2, 1)?;
        let odd = reference(2, 3)?;
        let first = ask(rt, one, &mut self.ours, counter, 0, Value::Unit)?;
        let second = ask(rt, one, &mut self.ours, odd, 0, Value::Unit)?;
        let third = ask(rt, one, &mut self.ours, counter, 0, Value::Unit)?;
        self.rounds(rt, one, other)?;
        for (row, call) in [
            ("first object", first),
            ("second object", second),
            ("first object again", third),
        ] {
            told.push(reply(rt, one, &mut self.ours, row, call)?).ok()?;
        }
        Some(())
    }

    // A job of the second space whose object isn't there, while the session has no room for its end,
    // since nothing that was handed on has been transmitted; and then some of that is.
    fn no_room<R: Wait>(&mut self, rt: &R, one: &Polled, other: &Polled) -> Option<Laters> {
        ask(rt, one, &mut self.ours, reference(2, 4)?, 0, Value::Unit)?;
        fill(rt, other, &mut self.theirs);
        relay(rt, one, &mut self.ours, other, &mut self.theirs)?;
        let act = Event::Act(self.theirs.peer);
        other.keeper.call(rt, &mut self.theirs.seat, &act, 0).ok()?;
        let full = self.laters(rt, other)?;
        relay(rt, other, &mut self.theirs, one, &mut self.ours)?;
        relay(rt, one, &mut self.ours, other, &mut self.theirs)?;
        let free = self.laters(rt, other)?;
        Some(Laters {
            full,
            free,
            has_ended: self.theirs.dispatcher.is_at_rest(),
        })
    }

    // Some turns of the second space's dispatcher: how many said that something is tried again.
    fn laters<R: Wait>(&mut self, rt: &R, other: &Polled) -> Option<u32> {
        let mut laters: u32 = 0;
        for _ in 0..TURNS {
            if let Handing::Later = self.theirs.dispatcher.turn(rt, other).ok()? {
                laters = laters.saturating_add(1);
            }
        }
        Some(laters)
    }

    // A method calls an object of its caller's space.
    fn nested<R: Wait>(
        &mut self,
        rt: &R,
        one: &Polled,
        other: &Polled,
        told: &mut Vec<Told>,
    ) -> Option<()> {
        for _ in 0..2 {
            let argument = Value::Ref(reference(1, 1)?);
            let call = ask(rt, one, &mut self.ours, reference(2, 2)?, 0, argument)?;
            self.rounds(rt, one, other)?;
            told.push(reply(rt, one, &mut self.ours, "nested call", call)?)
                .ok()?;
        }
        Some(())
    }
}

/// A reference.
pub(crate) fn reference(owner: u16, index: u64) -> Option<WireRep> {
    let owner = SpaceId::new(owner)?;
    Some(WireRep { owner, index })
}

// A list of a name and a reference.
fn named(alloc: Global, name: &[u8; 1], rep: WireRep) -> Option<Value> {
    let mut values = Vec::new(alloc);
    let bytes = name.to_vec(alloc).ok()?;
    values.push(Value::Bytes(Bytes::from_vec(bytes))).ok()?;
    values.push(Value::Ref(rep)).ok()?;
    Some(Value::List(Values::from_vec(values)))
}

/// Makes a call: its number.
pub(crate) fn ask<R: Wait>(
    rt: &R,
    polled: &Polled,
    staff: &mut Staff,
    target: WireRep,
    method: u16,
    value: Value,
) -> Option<CallNo> {
    let event = Event::Call {
        target,
        method,
        value,
    };
    polled.keeper.call(rt, &mut staff.seat, &event, 0).ok()?;
    match &staff.seat.newest()?.result {
        Ok(Answer::Called(call)) => Some(*call),
        _ => None,
    }
}

// Makes calls of the first space's agent until one is refused: the session has no room for another.
fn fill<R: Wait>(rt: &R, polled: &Polled, staff: &mut Staff) {
    for _ in 0..MAX_CALLS {
        let Some(target) = reference(1, 0) else {
            return;
        };
        if ask(rt, polled, staff, target, 0, Value::Unit).is_none() {
            return;
        }
    }
}

// Takes the reply to a call.
fn reply<R: Wait>(
    rt: &R,
    polled: &Polled,
    staff: &mut Staff,
    row: &'static str,
    call: CallNo,
) -> Option<Told> {
    let event = Event::TakeReply(call);
    polled.keeper.call(rt, &mut staff.seat, &event, 0).ok()?;
    match &staff.seat.newest()?.result {
        Ok(Answer::Replied(status, value)) => Some(Told {
            row,
            status: *status,
            number: number_in(value),
        }),
        _ => None,
    }
}

// The number that a value is, or has last in its list.
fn number_in(value: &Value) -> Option<i64> {
    match value {
        Value::Int(number) => Some(*number),
        Value::List(values) => match values.as_slice().last() {
            Some(Value::Int(number)) => Some(*number),
            _ => None,
        },
        _ => None,
    }
}
