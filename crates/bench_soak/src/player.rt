//! What a player has, and the order in which it does what.

use crate::chance::Chance;
use crate::desk::{Desks, Doing};
use crate::ends::{Ends, Pair};
use crate::figures::Figures;
use crate::kind::{KINDS, Kind};
use crate::mending::{give_up_all, open_all};
use crate::pocket::{Pocket, give_back};
use crate::resting::{clear_others, doze, hear_others, rest};
use crate::round::Plan;
use crate::steps::step;
use crate::thing::Thing;
use nob_ids::SpaceId;
use nob_nodes::{Company, Node, Player};
use std::alloc::Global;
use std::sync::Wait;

/// How many phases a round has: between two of them what was closed is opened anew.
const PHASES: u64 = 3;

/// How often players look at most whether their sessions are settled.
const LOOKS: u32 = 60_000;

/// A player.
#[derive(Drop)]
pub(crate) struct Soaker<'s> {
    pub(crate) alloc: Global,
    pub(crate) plan: Plan,
    /// The number of its space.
    pub(crate) space: u16,
    pub(crate) chance: Chance,
    // Where each player says what it does.
    desks: &'s Desks,
    pub(crate) figures: Figures,
    /// Whether nothing of it was held in the end, by it or others, and how its sessions stood when
    /// it looked last.
    pub(crate) has_rested: bool,
    pub(crate) ends: Ends,
}

impl<'s> Soaker<'s> {
    // The player of the space of a number, who says at its desk of these what it does.
    pub(crate) fn new(alloc: Global, plan: Plan, space: u16, desks: &'s Desks) -> Soaker<'s> {
        Soaker {
            alloc,
            plan,
            space,
            chance: Chance::new(plan.seed, u64::from(space)),
            desks,
            figures: Figures::new(),
            has_rested: false,
            ends: Ends::unknown(),
        }
    }

    // Says what it does.
    pub(crate) fn say<R: Wait>(&self, rt: &R, doing: Doing) {
        self.desks.say(rt, self.space, doing);
    }

    // Waits for the others.
    fn meet<R: Wait>(&self, rt: &R, company: &Company) {
        self.say(rt, Doing::Meets);
        let _ = company.meet(rt);
    }

    // A peer by chance.
    pub(crate) fn any_peer(&mut self) -> Option<SpaceId> {
        let others = u64::from(self.plan.spaces).saturating_sub(1);
        let drawn = self.chance.below(others).saturating_add(1);
        let number = if drawn >= u64::from(self.space) {
            drawn.saturating_add(1)
        } else {
            drawn
        };
        SpaceId::new(u16::try_from(number).ok()?)
    }

    // Has an object of each kind for the others, by the first name of that kind.
    fn offer_all<R: Wait>(&mut self, rt: &R, node: &mut Node<Thing>) {
        for kind in KINDS {
            self.offer(rt, node, kind);
        }
    }

    // Has an object of a kind for the others. It stays as long as its name stands for it.
    fn offer<R: Wait>(&mut self, rt: &R, node: &mut Node<Thing>, kind: Kind) {
        let thing = Thing::new(self.alloc, kind, self.space);
        match node.export(rt, thing) {
            Ok(hold) => {
                if let Err(error) = node.bind(rt, &name_of(kind, 0), &hold) {
                    self.figures.count_error(error);
                }
                give_back(rt, node, hold);
            }
            Err((error, _thing)) => self.figures.count_error(error),
        }
    }

    // Takes the steps of a phase.
    fn step_all<R: Wait>(&mut self, rt: &R, node: &mut Node<Thing>, pocket: &mut Pocket) {
        for _ in 0..self.plan.steps / PHASES {
            self.figures.steps = self.figures.steps.saturating_add(1);
            step(self, rt, node, pocket);
        }
    }

    // Has what others keep given back, and opens what is closed.
    fn mend<R: Wait>(&mut self, rt: &R, node: &mut Node<Thing>, company: &Company) {
        clear_others(self, rt, node);
        self.meet(rt, company);
        open_all(self, rt, node);
    }

    // Brings all that it has to rest. One player of two asks each peer once more whether it is
    // there; for the others it is the nodes that find out.
    fn end<R: Wait>(&mut self, rt: &R, node: &mut Node<Thing>, company: &Company) {
        clear_others(self, rt, node);
        self.meet(rt, company);
        give_up_all(self, rt, node);
        self.has_rested = rest(self, rt, node);
        if self.chance.is_so(50) {
            hear_others(self, rt, node);
        }
        self.settle(rt, node, company);
    }

    // Waits until no allocation is refused any more: a node that ends without memory leaves no report.
    fn leave<R: Wait>(&self, rt: &R) {
        self.say(rt, Doing::Leaves);
        for _ in rt.forever() {
            if self.desks.has_ended() {
                break;
            }
            doze(rt, 1_000);
        }
        self.say(rt, Doing::Left);
    }

    // Waits, with the others, until each session stands at one end as it does at the other. All see
    // the same of all, and so stop together.
    fn settle<R: Wait>(&mut self, rt: &R, node: &mut Node<Thing>, company: &Company) {
        for _ in 0..LOOKS {
            let ends = Ends::of(rt, node, self.plan.spaces);
            self.ends = ends;
            self.desks.post(rt, self.space, ends);
            self.meet(rt, company);
            let unsettled = self.desks.pairs(rt, Pair::Unsettled);
            self.meet(rt, company);
            if unsettled == 0 {
                return;
            }
            self.say(rt, Doing::Settles);
            doze(rt, 1_000);
        }
    }
}

impl<'s> Player<Thing> for Soaker<'s> {
    fn run<R: Wait>(&mut self, rt: &R, node: &mut Node<Thing>, company: &Company) {
        let mut pocket = Pocket::new(self.alloc);
        self.offer_all(rt, node);
        self.meet(rt, company);
        for _ in 0..PHASES {
            self.step_all(rt, node, &mut pocket);
            self.say(rt, Doing::GivesBack);
            pocket.give_all_back(rt, node);
            self.meet(rt, company);
            self.mend(rt, node, company);
            self.meet(rt, company);
        }
        pocket.end(rt, node);
        self.end(rt, node, company);
        self.leave(rt);
    }
}

/// The names of each kind have the places from 0 to this.
pub(crate) const LAST_NAME: u8 = 3;

// The name of a kind and a place. The first of each kind stands for an own object.
pub(crate) fn name_of(kind: Kind, place: u8) -> [u8; 2] {
    [kind.number(), place]
}
