//! The threads of a node.

ghost use denote.Param.Send.{IsSend, IsSync};

use crate::probing::Probing;
use crate::site::Site;
use crate::threads::{send, serve, take};
use nob_dispatch_objects::Object;
use nob_keeper::Seat;
use nob_node_parts::{Gate, Hand, Kept};
use std::sync::Wait;
use std::thread::{self, Threads};

/// What the threads of a node work with, each with its own.
#[derive(Drop)]
pub struct Crew<B: Object> {
    pub hands: Vec<Hand<Kept<B>>>,
    // What probes, in the thread that transmits again.
    pub probing: Probing,
    // Room for the seats of all.
    pub seats: Vec<Seat>,
}

/// Runs the threads of a crew until all have ended, and says at the site once they are made, or that
/// one couldn't be. Whoever ends the site's jobs and links ends them.
pub fn run_crew<'x, B: Object + Send, R: Threads + Wait + Sync, G: Gate + Sync>(
    rt: &'x R,
    site: &'x Site<B>,
    gate: &'x G,
    crew: Crew<B>,
) -> Crew<B> {
    let Crew {
        mut hands,
        mut probing,
        seats,
    } = crew;
    let serving = hands.as_mut_slice();
    let asking = &mut probing;
    let handle = rt;
    thread::scope(
        thread::scope_env(),
        handle,
        |scope|
            requires { IsSend B.row × IsSync R.row × IsSync G.row }
        {
            let mut is_whole = true;
            for place in 0..site.inboxes.links() {
                if scope.spawn(move || take(rt, site, place)).is_err() {
                    is_whole = false;
                }
            }
            for hand in serving {
                site.jobs.come();
                if scope.spawn(move || serve(rt, site, gate, hand)).is_err() {
                    site.jobs.leave(rt);
                    is_whole = false;
                }
            }
            if scope
                .spawn(move || send(rt, site, asking, is_whole))
                .is_err()
            {
                site.start.say(rt, false);
            }
        },
    );
    Crew {
        hands,
        probing,
        seats,
    }
}
