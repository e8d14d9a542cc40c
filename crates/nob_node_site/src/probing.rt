//! What a node probes its peers with.

use crate::site::Site;
use nob_dispatch_objects::Object;
use nob_keeper::{KeeperError, Seat};
use nob_node_parts::{Prober, Turn};
use std::sync::Wait;

/// What a node probes its peers with: nothing where time doesn't tick.
#[derive(Drop)]
pub struct Probing {
    prober: Option<Prober>,
}

impl Probing {
    /// A node's, with this Prober or without one.
    pub(crate) fn new(prober: Option<Prober>) -> Probing {
        Probing { prober }
    }

    /// A turn, and a rest where nothing was asked. Where the trace is full the node has failed. It
    /// answers whether there was a Prober.
    pub(crate) fn turn<B: Object, R: Wait>(&mut self, rt: &R, site: &Site<B>) -> bool {
        let Some(prober) = &mut self.prober else {
            return false;
        };
        match prober.turn(rt, &site.keeper) {
            Ok(Turn::Did(_)) => {}
            Err(KeeperError::Stamp) => site.fail(rt),
            _ => site.transmitting.watch(rt),
        }
        true
    }

    /// The Prober's seat, if there was one.
    pub fn end(self) -> Option<Seat> {
        let Probing { prober } = self;
        match prober {
            Some(prober) => Some(prober.end()),
            None => None,
        }
    }
}
