//! How nodes run.

ghost use Rattle.std.specs.Prelude.{◌≡◌, [], length, map, IfSome};
ghost use Rattle.nob_nodes.specs.Layouts.{IsLaidOut, AreLaidOut};
ghost use denote.Param.Send.{IsSend, IsSync};

use crate::beside::Beside;
use crate::launch::Launch;
use crate::layout::Layout;
use crate::meeting::Meeting;
use crate::nodes::Nodes;
use crate::player::{Played, Player};
use nob_dispatch_objects::Object;
use nob_ids::SpaceId;
use nob_node::Gate;
use std::alloc::Global;
use std::sync::{Mutex, Wait};
use std::thread::{self, Threads};

/// The place of a node: what its thread is given, and what that leaves.
#[derive(Drop)]
struct Post<O: Object, A: Drop> {
    // The node to be run, and who plays there.
    turn: Mutex<Option<(Launch, A)>>,
    played: Mutex<Option<Played<O, A>>>,
}

impl<O: Object + Send, A: Player<O> + Drop> Post<O, A> {
    // Runs the node until all players have returned.
    fn play<R: Threads + Wait + Sync, G: Gate + Sync>(&self, rt: &R, meeting: &Meeting, gate: &G) {
        match self.take_turn(rt) {
            Some((launch, player)) => {
                self.put_played(rt, launch.play(rt, meeting, gate, player));
            }
            None => meeting.leave(rt),
        }
    }

    // Doesn't run it, for want of a thread.
    fn skip<R: Wait>(&self, rt: &R, meeting: &Meeting) {
        match self.take_turn(rt) {
            Some((launch, player)) => {
                self.put_played(rt, launch.skip(rt, meeting, player));
            }
            None => meeting.leave(rt),
        }
    }

    // What its thread is given, once.
    fn take_turn<R: Wait>(&self, rt: &R) -> Option<(Launch, A)> {
        let mut turn = self.turn.lock(rt);
        turn.take()
    }

    // What its thread leaves.
    fn put_played<R: Wait>(&self, rt: &R, played: Played<O, A>) {
        let mut kept = self.played.lock(rt);
        *kept = Some(played);
    }
}

/// Runs these nodes, each in a thread of its own, with a player at each, the first at that of space
/// 1, until all players have returned: they come back in the same order, with what their nodes
/// leave; one for whose node there is no memory or no thread fails alone. Something else runs in
/// this thread beside them. `None` where there aren't as many players as nodes or memory is wanted.
pub fn run_nodes<
    O: Object + Send,
    R: Threads + Wait + Sync,
    G: Gate + Sync,
    A: Player<O> + Send + Drop,
    B: Beside,
>(rt: &R, nodes: Nodes, gate: &G, players: Vec<A>, beside: &mut B) -> Option<Vec<Played<O, A>>>
    ensures each { IfSome result (λ all.
        AreLaidOut nodes.layout 1 (length players.items)
        (map (λ played. played.config) all.items)) }
    ensures all { IfSome result (λ all. length all.items ≡ length players.items) }
{
    let alloc = nodes.alloc();
    let Ok(count) = u16::try_from(players.len()) else {
        return None;
    };
    let layout = nodes.layout();
    let Some(posts) = posts_of::<O, A>(alloc, nodes.into_launches(), players) else {
        return None;
    };
    let Ok(nothing) = Vec::with_capacity(alloc, posts.len()) else {
        return None;
    };
    let meeting = Meeting::new(u64::from(count));
    run_posts(rt, &meeting, gate, posts.as_slice(), beside);
    played_from(posts, 1, layout, count, nothing)
}

// The place of each node, with its player. `None` where there aren't as many of these.
fn posts_of<O: Object, A: Drop>(
    alloc: Global,
    launches: Vec<Launch>,
    players: Vec<A>,
) -> Option<Vec<Post<O, A>>>
    ensures { IfSome result (λ posts. length posts.items ≡ length players.items) }
{
    if launches.len() != players.len() {
        return None;
    }
    let Ok(room) = Vec::with_capacity(alloc, launches.len()) else {
        return None;
    };
    add_posts(launches, players, room)
}

// The places of these nodes, with their players, in front of nothing.
fn add_posts<O: Object, A: Drop>(
    mut launches: Vec<Launch>,
    mut players: Vec<A>,
    nothing: Vec<Post<O, A>>,
) -> Option<Vec<Post<O, A>>>
    requires { nothing.items ≡ [] }
    ensures { IfSome result (λ posts. length posts.items ≡ length players.items) }
{
    if players.is_empty() {
        return Some(nothing);
    }
    if launches.is_empty() {
        return None;
    }
    let launch = launches.remove(0);
    let player = players.remove(0);
    let mut rest = add_posts(launches, players, nothing)?;
    let post = Post {
        turn: Mutex::new(Some((launch, player))),
        played: Mutex::new(None),
    };
    rest.insert(0, post).ok()?;
    Some(rest)
}

// Runs a thread for each place, and what runs beside them in this one.
fn run_posts<
    O: Object + Send,
    R: Threads + Wait + Sync,
    G: Gate + Sync,
    A: Player<O> + Send + Drop,
    B: Beside,
>(rt: &R, meeting: &Meeting, gate: &G, posts: &[Post<O, A>], beside: &mut B) {
    let handle = rt;
    thread::scope(
        thread::scope_env(),
        handle,
        |scope|
            requires { IsSend O.row × IsSend A.row × IsSync R.row × IsSync G.row }
        {
            for post in posts {
                if scope.spawn(move || post.play(rt, meeting, gate)).is_err() {
                    post.skip(rt, meeting);
                }
            }
            beside.run(rt, meeting);
        },
    );
}

// What the places from the one of a space on leave, each one of so many and as a layout says, in
// front of nothing.
fn played_from<O: Object, A: Drop>(
    mut posts: Vec<Post<O, A>>,
    first: u16,
    layout: Layout,
    spaces: u16,
    nothing: Vec<Played<O, A>>,
) -> Option<Vec<Played<O, A>>>
    requires { nothing.items ≡ [] }
    ensures each { IfSome result (λ all.
        AreLaidOut layout first spaces (map (λ played. played.config) all.items)) }
    ensures all { IfSome result (λ all. length all.items ≡ length posts.items) }
{
    if posts.is_empty() {
        return Some(nothing);
    }
    let post = posts.remove(0);
    let played = played_in(post, layout, first, spaces)?;
    let mut rest = played_from(posts, first.checked_add(1)?, layout, spaces, nothing)?;
    rest.insert(0, played).ok()?;
    Some(rest)
}

// What the place of a space leaves, one of so many. That its node was of this space, and ran as the
// layout says, is looked at once more: it always did.
fn played_in<O: Object, A: Drop>(
    post: Post<O, A>,
    layout: Layout,
    number: u16,
    spaces: u16,
) -> Option<Played<O, A>>
    ensures { IfSome result (λ played. IsLaidOut layout number spaces played.config) }
{
    let Post { turn: _, played } = post;
    let played = played.into_inner()?;
    let wanted = layout.config(SpaceId::new(number)?, spaces)?;
    if wanted.is_same(&played.config) {
        Some(played)
    } else {
        None
    }
}
