//! How two nodes run.

ghost use Rattle.std.specs.Prelude.{◌≡◌, IfSome};
ghost use Rattle.nob_nodes.specs.Partners.{AreTwo};
ghost use Rattle.nob_nodes.specs.Keep.TheVariants as keeps;

use crate::sides::{both_sides, first_of, second_of};
use crate::{Keep, Layout, Nobody, Nodes, OpenGate, Played, Player, run_nodes};
use nob_dispatch_objects::Object;
use std::alloc::Global;
use std::sync::Wait;
use std::thread::Threads;

/// Runs two nodes, those of the spaces 1 and 2, each in a thread of its own, with a link each way,
/// until both players have returned: the players, with what their nodes leave. The nodes keep
/// nothing of their entries. A player that returns early, or whose node can't be made, is not
/// waited for. `None` where memory is wanted.
pub fn run_two<
    O: Object + Send,
    R: Threads + Wait + Sync,
    A: Player<O> + Send + Drop,
    B: Player<O> + Send + Drop,
>(rt: &R, alloc: Global, first: A, second: B) -> Option<(Played<O, A>, Played<O, B>)>
    ensures { IfSome result (λ both. AreTwo keeps.Nothing both.0.config both.1.config) }
{
    run_two_keeping(rt, alloc, Keep::Nothing, first, second)
}

/// The same two nodes, each of which keeps this of its entries.
pub fn run_two_keeping<
    O: Object + Send,
    R: Threads + Wait + Sync,
    A: Player<O> + Send + Drop,
    B: Player<O> + Send + Drop,
>(rt: &R, alloc: Global, keep: Keep, first: A, second: B) -> Option<(Played<O, A>, Played<O, B>)>
    ensures { IfSome result (λ both. AreTwo keep both.0.config both.1.config) }
{
    let nodes = Nodes::linked(alloc, Layout::new(keep), 2)?;
    let sides = both_sides(alloc, first, second)?;
    let mut played = run_nodes(rt, nodes, &OpenGate, sides, &mut Nobody)?;
    let there = second_of(played.pop()?)?;
    let here = first_of(played.pop()?)?;
    Some((here, there))
}
