//! Applications.

use crate::node::Node;
use nob_dispatch_objects::Object;
use std::sync::Wait;

/// What runs at a node whose objects are of a type of its own: an enum, say, or
/// `nob_dispatch_objects::Held`, which may be any boxed object.
pub trait App<B: Object> {
    /// Runs once the node is there. When it returns the node ends: no new job is claimed, methods
    /// that run go on to their ends, and the links to the peers are ended.
    fn run<R: Wait>(&mut self, rt: &R, node: &mut Node<B>);

    /// Comes in the place of `run` where a thread of the node can't be made. The node then waits for
    /// its peers to end.
    fn skip<R: Wait>(&mut self, rt: &R);
}
