//! What runs beside the nodes.

use crate::meeting::Meeting;
use std::sync::Wait;

/// What runs in the caller's thread beside the nodes: who has other ends of their links, say, or
/// watches them.
pub trait Beside {
    /// Runs once all nodes' threads are begun. Where a node's link leads to it, it lets that end go
    /// at last: no node ends before the peers' ends have come, or are gone.
    fn run<R: Wait>(&mut self, rt: &R, meeting: &Meeting);
}

/// Nobody.
#[derive(Clone, Copy, Debug)]
pub struct Nobody;

impl Beside for Nobody {
    fn run<R: Wait>(&mut self, _rt: &R, _meeting: &Meeting) {}
}
