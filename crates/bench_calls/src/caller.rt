//! What an application does that calls.

use crate::owner::{NAME, give_back};
use crate::task::Kind;
use crate::thing::Thing;
use crate::timer::{Timer, Waited};
use nob_ids::SpaceId;
use nob_nodes::{Hold, Node, Returned};
use nob_pickle::{Value, Values};
use std::alloc::Global;
use std::sync::Wait;
use std::sync::atomic::AtomicU64;
use std::time::{Clock, Duration};

/// Who is called, and through whom.
pub(crate) struct Called {
    server: Hold,
    // Who passes on what it is given.
    relay: Hold,
}

impl Called {
    // Looks both up at their spaces, the first by this name.
    pub(crate) fn find<R: Wait>(
        rt: &R,
        node: &mut Node<Thing>,
        server: SpaceId,
        name: &[u8],
        relay: SpaceId,
    ) -> Option<Called> {
        let server = look_up(rt, node, server, name)?;
        match look_up(rt, node, relay, NAME) {
            Some(relay) => Some(Called { server, relay }),
            None => {
                give_back(rt, node, server);
                None
            }
        }
    }

    // Makes so many calls: how many were answered. Or it does nothing for so many milliseconds.
    pub(crate) fn call_all<R: Wait>(
        &self,
        rt: &R,
        alloc: Global,
        node: &mut Node<Thing>,
        kind: Kind,
        calls: u64,
    ) -> u64 {
        if kind == Kind::Idle {
            let nothing = AtomicU64::new(0);
            nothing.park_timeout(rt, 0, Duration::from_millis(calls));
            return 0;
        }
        let mut answered: u64 = 0;
        for _ in 0..calls {
            if self.call(rt, alloc, node, kind).is_some() {
                answered = answered.saturating_add(1);
            }
        }
        answered
    }

    // Makes so many calls without an argument, and says how each was waited for: how many were
    // answered.
    pub(crate) fn time_all<R: Wait, C: Clock>(
        &self,
        rt: &R,
        timer: &Timer<C>,
        node: &mut Node<Thing>,
        calls: u64,
        waits: &mut Vec<Waited>,
    ) -> u64 {
        let mut answered: u64 = 0;
        for _ in 0..calls {
            let began = timer.begin();
            if ask(rt, node, &self.server, Value::Unit).is_none() {
                continue;
            }
            answered = answered.saturating_add(1);
            if let Some(wait) = timer.end(began) {
                let _ = waits.push(wait);
            }
        }
        answered
    }

    // One call, if it is answered.
    fn call<R: Wait>(
        &self,
        rt: &R,
        alloc: Global,
        node: &mut Node<Thing>,
        kind: Kind,
    ) -> Option<()> {
        if kind == Kind::Null || kind == Kind::Apart {
            return ask(rt, node, &self.server, Value::Unit);
        }
        let Ok(fresh) = node.export(rt, Thing::Answers) else {
            return None;
        };
        let index = fresh.rep().index;
        let answered = self.pass(rt, alloc, node, kind, &fresh);
        give_back(rt, node, fresh);
        if kind == Kind::Life {
            node.wait_withdrawn(rt, index);
        }
        answered
    }

    // A call that passes a reference.
    fn pass<R: Wait>(
        &self,
        rt: &R,
        alloc: Global,
        node: &mut Node<Thing>,
        kind: Kind,
        fresh: &Hold,
    ) -> Option<()> {
        let passed = Value::Ref(fresh.rep());
        if kind != Kind::Handoff {
            return ask(rt, node, &self.server, passed);
        }
        let pair = pair_of(alloc, Value::Ref(self.server.rep()), passed)?;
        ask(rt, node, &self.relay, pair)
    }

    // Gives both back.
    pub(crate) fn give_back<R: Wait>(self, rt: &R, node: &mut Node<Thing>) {
        let Called { server, relay } = self;
        give_back(rt, node, server);
        give_back(rt, node, relay);
    }
}

// The object of a space's name.
fn look_up<R: Wait>(rt: &R, node: &mut Node<Thing>, space: SpaceId, name: &[u8]) -> Option<Hold> {
    let Ok(returned) = node.lookup(rt, space, name) else {
        return None;
    };
    match returned.into_hold() {
        Ok(hold) => Some(hold),
        Err(returned) => {
            returned.forget();
            None
        }
    }
}

// Calls method 0 of an object, if it is answered.
fn ask<R: Wait>(rt: &R, node: &mut Node<Thing>, hold: &Hold, value: Value) -> Option<()> {
    let Ok(returned) = node.call(rt, hold, 0, value) else {
        return None;
    };
    let is_answered = is_answer(&returned);
    returned.forget();
    if is_answered { Some(()) } else { None }
}

// Whether it is an answer.
fn is_answer(returned: &Returned) -> bool {
    match returned {
        Returned::Replied { status, .. } => *status == 0,
        Returned::Ended => false,
    }
}

// A list of two values. Only memory fails it.
fn pair_of(alloc: Global, first: Value, second: Value) -> Option<Value> {
    let mut values = Vec::with_capacity(alloc, 2).ok()?;
    values.push(first).ok()?;
    values.push(second).ok()?;
    Some(Value::List(Values::from_vec(values)))
}
