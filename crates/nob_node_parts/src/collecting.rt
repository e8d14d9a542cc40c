//! What settles, cleans and withdraws, as the threads of a node share it.

ghost use Rattle.std.specs.Prelude.{◌≡◌};
ghost use Rattle.nob_agents.specs.Seats as seats;
ghost use Rattle.nob_node_parts.specs.Collected as collected;

use nob_agents::{Carer, Keeper, KeeperError, Seat, Turn};
use nob_model_types::{Answer, Event, Refusal};
use nob_offers::{Offered, Retry};
use std::sync::Wait;
use std::thread;

/// Who is told of what was collected.
pub trait Collects {
    /// Whether nothing more is to be collected.
    fn is_over(&self) -> bool;

    /// Something was settled, cleaned or withdrawn; an object, where its index is named.
    fn collected<R: Wait>(&self, rt: &R, withdrawn: Option<u64>);

    /// The keeper makes no entry, for another reason than want of memory.
    fn stopped<R: Wait>(&self, rt: &R, error: KeeperError);
}

/// What settles, cleans and withdraws for a node. Who made that possible offers a turn.
#[derive(Drop)]
pub struct Collecting {
    carer: Offered<Carer>,
    // Whether it was refused something, for want of room.
    late: Retry,
}

impl Collecting {
    /// Nothing was collected.
    pub fn new(carer: Carer) -> Collecting {
        Collecting {
            carer: Offered::new(carer),
            late: Retry::new(),
        }
    }

    /// What collected, once all threads are done with it.
    pub fn into_carer(self) -> Carer {
        let Collecting { carer, late: _ } = self;
        carer.into_inner()
    }

    /// Whether it was refused something, for want of room. Whoever makes room asks next, and collects
    /// where it is so.
    pub fn is_late(&self) -> bool {
        self.late.is_late()
    }

    /// Settles, cleans and withdraws what there is, or leaves it to the one who does.
    pub fn collect<R: Wait, C: Collects>(&self, rt: &R, keeper: &Keeper, told: &C) {
        self.carer.hand();
        self.carer.offer(rt, |carer: &mut Carer| {
            self.collect_all(rt, keeper, told, carer);
        });
    }

    // Turns of what collects, until there is nothing to do, or no room for it.
    fn collect_all<R: Wait, C: Collects>(
        &self,
        rt: &R,
        keeper: &Keeper,
        told: &C,
        carer: &mut Carer,
    ) {
        let mut tries = self.late.begin();
        for _ in rt.forever() {
            if told.is_over() {
                return tries.found_none();
            }
            match carer.turn(rt, keeper) {
                Ok(Turn::Did(_)) => {
                    told.collected(rt, withdrawn_by(carer.seat()));
                    if is_refused(carer.seat()) {
                        let Some(again) = tries.refused() else {
                            return;
                        };
                        tries = again;
                    } else {
                        tries = tries.did();
                    }
                }
                Ok(_) => return tries.found_none(),
                Err(KeeperError::OutOfMemory) => thread::yield_now(),
                Err(error) => {
                    tries.found_none();
                    return told.stopped(rt, error);
                }
            }
        }
        unreachable!()
    }
}

// Whether the newest receipt of a seat says no: what was tried can't be done now.
fn is_refused(seat: &Seat) -> bool
    ensures { result ≡ collected.is_refused (seats.newest seat.now) }
{
    match seat.newest() {
        Some(receipt) => receipt.result.is_err(),
        None => false,
    }
}

// The index of the object that the newest receipt of a seat says was withdrawn, if it says so of one.
fn withdrawn_by(seat: &Seat) -> Option<u64>
    ensures { result ≡ collected.withdrawn_by (seats.newest seat.now) }
{
    match seat.newest() {
        Some(receipt) => withdrawn_in(&receipt.event, &receipt.result),
        None => None,
    }
}

// The index of the object that an answered event withdrew, if it did.
fn withdrawn_in(event: &Event, told: &Result<Answer, Refusal>) -> Option<u64>
    ensures { result ≡ collected.withdrawn_in event.now told.now }
{
    match event {
        Event::Withdraw(index) => match told {
            Ok(Answer::Withdrawn) => Some(*index),
            _ => None,
        },
        _ => None,
    }
}
