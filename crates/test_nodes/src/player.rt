//! The applications of the scenes of two or three nodes that a gate holds up, or whose links are
//! let go.

use crate::calling::{Refusals, Said, found, give_back, offer, said_by};
use crate::shared::Shared;
use crate::thing::Thing;
use nob_ids::SpaceId;
use nob_nodes::{Company, Hold, Node};
use nob_pickle::Value;
use std::sync::Wait;
use std::sync::atomic::AtomicU64;
use std::time::Duration;

/// What an application does.
#[derive(Clone, Copy, Debug, PartialEq, Eq)]
pub(crate) enum Part {
    /// Has objects for the others, until all are done.
    Owns,
    /// Has objects for the others, and leaves while a method of one is held up.
    OwnsAndLeaves,
    /// Has objects for the other, and closes the session while a method of one is held up.
    OwnsAndCloses,
    /// The same, and opens it anew at once.
    OwnsAndReopens,
    /// Has an object for the other, and waits until nobody holds it.
    OwnsUntilWithdrawn,
    /// Holds the object of the other, and closes the session.
    HoldsAndCloses,
    /// Calls an object whose method is held up.
    CallsHeld,
    /// Calls another object meanwhile, and then has the method go on.
    CallsOther,
    /// Has the method go on once the application that has the objects has left.
    LetsGoOn,
    /// Has an object of the other space call one of its own, twice.
    CallsBack,
    /// Does nothing: nobody carries what is sent to it.
    Idles,
    /// Calls a space to which nobody carries what is sent.
    CallsNobody,
}

/// An application.
#[derive(Drop)]
pub(crate) struct Player<'m> {
    shared: &'m Shared,
    part: Part,
    pub(crate) said: Said,
    pub(crate) refusals: Refusals,
}

impl<'m> Player<'m> {
    pub(crate) fn new(shared: &'m Shared, part: Part) -> Player<'m> {
        Player {
            shared,
            part,
            said: Said::Other,
            refusals: Refusals::new(),
        }
    }

    // The object that a name of the first space stands for.
    fn found<R: Wait>(&mut self, rt: &R, node: &mut Node<Thing>, name: &[u8]) -> Option<Hold> {
        let first = SpaceId::new(1)?;
        found(rt, node, &mut self.refusals, first, name).ok()
    }

    // What a call of method 0 of an object comes to.
    fn said_by<R: Wait>(
        &mut self,
        rt: &R,
        node: &mut Node<Thing>,
        hold: &Option<Hold>,
        value: Value,
    ) -> Said {
        said_by(rt, node, &mut self.refusals, hold, 0, value)
    }

    // Gives a hold back, if there is one.
    fn give_back<R: Wait>(&mut self, rt: &R, node: &mut Node<Thing>, hold: Option<Hold>) {
        give_back(rt, node, &mut self.refusals, hold);
    }

    // Has objects for the others.
    fn own<R: Wait>(&mut self, rt: &R, node: &mut Node<Thing>, company: &Company) {
        let refusals = &mut self.refusals;
        let one = offer(rt, node, refusals, b"one", Thing::Counter(0));
        let other = offer(rt, node, refusals, b"other", Thing::Counter(0));
        let caller = offer(rt, node, refusals, b"caller", Thing::Caller);
        let _ = company.meet(rt);
        let _ = company.meet(rt);
        match self.part {
            Part::OwnsAndLeaves => {
                self.shared.wait_held(rt);
                self.said = running_at(rt, node);
                self.shared.note_left();
            }
            Part::OwnsAndCloses | Part::OwnsAndReopens => {
                self.shared.wait_held(rt);
                self.close_with(rt, node, 2);
            }
            _ => {
                let _ = company.meet(rt);
            }
        }
        self.give_back(rt, node, one);
        self.give_back(rt, node, other);
        self.give_back(rt, node, caller);
    }

    // Calls an object whose method is held up.
    fn call_held<R: Wait>(&mut self, rt: &R, node: &mut Node<Thing>, company: &Company) {
        let _ = company.meet(rt);
        let hold = self.found(rt, node, b"one");
        let _ = company.meet(rt);
        self.shared.hold_next();
        self.said = self.said_by(rt, node, &hold, Value::Unit);
        self.shared.end_holding();
        self.give_back(rt, node, hold);
    }

    // Closes the session with a space, once nothing is out, and may open it anew at once.
    fn close_with<R: Wait>(&mut self, rt: &R, node: &mut Node<Thing>, space: u16) {
        let Some(peer) = SpaceId::new(space) else {
            return;
        };
        rest(rt);
        let _ = self.refusals.answered(node.close(rt, peer));
        if self.part == Part::OwnsAndReopens {
            let _ = self.refusals.answered(node.open(rt, peer));
        }
    }

    // Has an object for the other, which alone holds it then, and waits until it is withdrawn. It says
    // how many objects are live then, if one was before.
    fn own_until_withdrawn<R: Wait>(&mut self, rt: &R, node: &mut Node<Thing>, company: &Company) {
        let Some(one) = offer(rt, node, &mut self.refusals, b"one", Thing::Counter(0)) else {
            return;
        };
        let index = one.rep().index;
        let _ = company.meet(rt);
        let _ = company.meet(rt);
        let unbound = self.refusals.answered(node.unbind(rt, b"one"));
        self.give_back(rt, node, Some(one));
        let held = node.live(rt);
        let _ = company.meet(rt);
        if unbound.is_some() {
            node.wait_withdrawn(rt, index);
        }
        if held == 1 {
            self.said = live_at(rt, node);
        }
    }

    // Calls the object of the first space, and closes the session while it holds it.
    fn hold_and_close<R: Wait>(&mut self, rt: &R, node: &mut Node<Thing>, company: &Company) {
        let _ = company.meet(rt);
        let hold = self.found(rt, node, b"one");
        self.said = self.said_by(rt, node, &hold, Value::Unit);
        let _ = company.meet(rt);
        let _ = company.meet(rt);
        self.close_with(rt, node, 1);
        self.give_back(rt, node, hold);
    }

    // Calls another object meanwhile, or waits for the owner to leave; then the method goes on.
    fn let_go_on<R: Wait>(&mut self, rt: &R, node: &mut Node<Thing>, company: &Company) {
        let _ = company.meet(rt);
        let hold = self.found(rt, node, b"other");
        let _ = company.meet(rt);
        self.shared.wait_held(rt);
        if self.part == Part::CallsOther {
            self.said = self.said_by(rt, node, &hold, Value::Unit);
        } else {
            self.shared.wait_left(rt);
        }
        self.shared.open();
        self.give_back(rt, node, hold);
    }

    // Has an object of the other space call one of its own, twice: the second time by another hold
    // on it.
    fn call_back<R: Wait>(&mut self, rt: &R, node: &mut Node<Thing>, company: &Company) {
        let _ = company.meet(rt);
        let hold = self.found(rt, node, b"caller");
        let _ = company.meet(rt);
        if let Some(own) = self.refusals.answered(node.export(rt, Thing::Counter(0))) {
            let _ = self.said_by(rt, node, &hold, Value::Ref(own.rep()));
            if let Some(twin) = self.refusals.answered(node.dup(rt, &own)) {
                self.said = self.said_by(rt, node, &hold, Value::Ref(twin.rep()));
                self.give_back(rt, node, Some(twin));
            }
            self.give_back(rt, node, Some(own));
        }
        self.give_back(rt, node, hold);
    }

    // Calls a space to which nobody carries what is sent, and once that has ended once more in a
    // session that is opened anew.
    fn call_nobody<R: Wait>(&mut self, rt: &R, node: &mut Node<Thing>) {
        let Some(first) = SpaceId::new(1) else {
            return;
        };
        self.look_up(rt, node, first);
        if self.said != Said::Ended {
            return;
        }
        self.said = Said::Other;
        if self.refusals.answered(node.open(rt, first)).is_some() {
            self.look_up(rt, node, first);
        }
    }

    // Looks a name of a space up: what that came to.
    fn look_up<R: Wait>(&mut self, rt: &R, node: &mut Node<Thing>, space: SpaceId) {
        match found(rt, node, &mut self.refusals, space, b"one") {
            Ok(hold) => self.give_back(rt, node, Some(hold)),
            Err(said) => self.said = said,
        }
    }
}

impl<'m> nob_nodes::Player<Thing> for Player<'m> {
    fn run<R: Wait>(&mut self, rt: &R, node: &mut Node<Thing>, company: &Company) {
        match self.part {
            Part::Owns => self.own(rt, node, company),
            Part::OwnsAndLeaves => self.own(rt, node, company),
            Part::OwnsAndCloses => self.own(rt, node, company),
            Part::OwnsAndReopens => self.own(rt, node, company),
            Part::OwnsUntilWithdrawn => self.own_until_withdrawn(rt, node, company),
            Part::HoldsAndCloses => self.hold_and_close(rt, node, company),
            Part::CallsHeld => self.call_held(rt, node, company),
            Part::CallsOther => self.let_go_on(rt, node, company),
            Part::LetsGoOn => self.let_go_on(rt, node, company),
            Part::CallsBack => self.call_back(rt, node, company),
            Part::Idles => {}
            Part::CallsNobody => self.call_nobody(rt, node),
        }
    }

    // Leaves nobody waiting for it.
    fn skip<R: Wait>(&mut self, _rt: &R) {
        self.shared.end_holding();
        self.shared.note_left();
    }

    fn stays(&self) -> bool {
        self.part != Part::OwnsAndLeaves
    }
}

// Lets some time pass, in which what came is acknowledged.
fn rest<R: Wait>(rt: &R) {
    let nothing = AtomicU64::new(0);
    nothing.park_timeout(rt, 0, Duration::from_millis(200));
}

// How many methods run at a node.
fn running_at<R: Wait>(rt: &R, node: &Node<Thing>) -> Said {
    match i64::try_from(node.backlog(rt).running) {
        Ok(running) => Said::Number(running),
        Err(_) => Said::Other,
    }
}

// How many objects are live at a node.
fn live_at<R: Wait>(rt: &R, node: &Node<Thing>) -> Said {
    match i64::try_from(node.live(rt)) {
        Ok(live) => Said::Number(live),
        Err(_) => Said::Other,
    }
}
