//! What a worker's thread does.

ghost use Rattle.std.specs.Prelude.{◌≡◌, None};
ghost use Rattle.nob_dispatch.specs.Faults as faults;

use crate::calls::JobCalls;
use crate::gate::Gate;
use crate::hand::{Deed, Hand, is_memory};
use nob_dispatch_objects::Object;
use std::sync::Wait;
use std::sync::atomic::AtomicU64;
use std::thread;
use std::time::Duration;

/// For how many microseconds a worker's thread rests at first where its job can't be ended yet.
/// Each further rest is twice as long.
const FIRST_REST: u64 = 20;

/// For how many it rests at most.
const MAX_REST: u64 = 1000;

/// Gets errands and carries them out, until none comes any more. K2 is tried again; after any other
/// error of the keeper each errand that the hand has or still gets is given up: its object goes
/// back, and its job isn't ended.
pub fn serve<O: Object, R: Wait, C: JobCalls, G: Gate>(
    rt: &R,
    keeper: &C,
    gate: &G,
    hand: &mut Hand<O>,
)
    ensures free { hand.new.worker.job ≡ None }
    ensures fault { faults.GivesUpFor (C.answered keeper.now) hand.old.fault hand.new.fault }
    ensures stakes { hand.new.stakes ≡ hand.old.stakes }
{
    for _ in rt.forever() {
        if !hand.get(rt) {
            return;
        }
        carry_out(rt, keeper, gate, hand);
    }
}

/// Carries out the job that a hand keeps, to its end. What can't be done yet is tried again after a
/// rest, K2 at once; after any other error of the keeper the hand gives the job up.
pub fn carry_out<O: Object, R: Wait, C: JobCalls, G: Gate>(
    rt: &R,
    keeper: &C,
    gate: &G,
    hand: &mut Hand<O>,
)
    ensures taken { hand.new.taken ≡ hand.old.taken }
    ensures free { hand.new.worker.job ≡ None }
    ensures fault { faults.GivesUpFor (C.answered keeper.now) hand.old.fault hand.new.fault }
    ensures stakes { hand.new.stakes ≡ hand.old.stakes }
{
    let mut rest = FIRST_REST;
    for _ in rt.forever() {
        match hand.turn(rt, keeper, gate) {
            Ok(Deed::Did) => rest = FIRST_REST,
            Ok(Deed::Later) => rest = after_rest(rt, rest),
            Ok(Deed::Ended) => return,
            Ok(Deed::Idle) => return,
            Err(error) => {
                if !is_memory(error) {
                    return;
                }
                thread::yield_now();
            }
        }
    }
}

// Leaves the processor to others for so many microseconds: how many the next rest has. Nobody has
// to wake it.
fn after_rest<R: Wait>(rt: &R, rest: u64) -> u64 {
    let nothing = AtomicU64::new(0);
    nothing.park_timeout(rt, 0, Duration::from_micros(rest));
    rest.saturating_mul(2).min(MAX_REST)
}
