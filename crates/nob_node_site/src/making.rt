//! How the parts of a node are made.

ghost use Rattle.std.specs.Prelude.{◌≡◌, ◌≢◌, ◌≤◌, ◌<◌, [], false, length, IfSome, OnSome};
ghost use Rattle.std.specs.List.{AllByRecursion};
ghost use Rattle.nob_node_parts.specs.Ways.{IsTied};
ghost use Rattle.nob_node_parts.specs.Sending.{AreApart};
ghost use Rattle.nob_dispatch_lanes.specs.Ends.{given_by, got_by};
ghost use Rattle.nob_dispatch_lanes.specs.Lanes.{all_given, all_got};

use crate::config::{Config, Ends};
use crate::crew::Crew;
use crate::probing::Probing;
use crate::site::Site;
use nob_dispatch_lanes::{LanePut, LaneTake, lane};
use nob_dispatch_objects::{Agent, Object};
use nob_ids::SpaceId;
use nob_keeper::{Keeper, Space};
use nob_link::{PutEnd, TakeEnd};
use nob_node_parts::{
    Carer, Desk, Errand, Hand, Inbox, Kept, Outbox, Prober, Return, Sender, Taker, Way,
};
use std::alloc::Global;
use std::sync::Mutex;

/// How many errands, and how many objects on their way back, the lanes of a node hold.
const LANE: usize = 1024;

/// What the threads of a node share, and what each has of its own, on so many processors. Two ends to
/// one peer: the second pair is let go. Only memory fails it.
pub fn site_of<B: Object>(
    alloc: Global,
    config: &Config,
    ends: Vec<Ends>,
    processors: usize,
) -> Option<(Site<B>, Crew<B>)> {
    let keeper = keeper_of(alloc, config)?;
    let Some((outbox, inboxes, desk, crew)) = crew_of::<B>(alloc, &keeper, config, ends) else {
        keeper.shut();
        return None;
    };
    let carer = Carer::new(keeper.seat());
    let site = Site::new(keeper, outbox, inboxes, carer, desk, processors);
    Some((site, crew))
}

// A keeper of a new space.
fn keeper_of(alloc: Global, config: &Config) -> Option<Keeper> {
    let Ok(space) = Space::new(alloc, config.space, config.n, config.limits) else {
        return None;
    };
    match Keeper::keeping(alloc, space, config.keep) {
        Ok(keeper) => Some(keeper),
        Err(space) => {
            space.shut();
            None
        }
    }
}

// What all threads share, but for the keeper, and what each has of its own. Only memory fails it.
fn crew_of<B: Object>(
    alloc: Global,
    keeper: &Keeper,
    config: &Config,
    ends: Vec<Ends>,
) -> Option<(Outbox, Vec<Mutex<Inbox>>, Desk<Kept<B>>, Crew<B>)> {
    let seats = Vec::with_capacity(alloc, ends.len().saturating_add(OTHER_SEATS)).ok()?;
    let mut inboxes = Vec::new(alloc);
    let ways = ways_of(alloc, keeper, ends, &mut inboxes)?;
    let sender = Sender::new(keeper.seat(), ways, config.pause, config.tick_every);
    let (desk, hands) = pool_of(alloc, keeper, config.workers)?;
    let probing = Probing::new(prober_of(keeper, config));
    let crew = Crew {
        hands,
        probing,
        seats,
    };
    Some((Outbox::new(alloc, sender), inboxes, desk, crew))
}

// The seats of the Sender, the Carer, the Prober, the desk and the application, and of 16 workers.
const OTHER_SEATS: usize = 21;

// What probes, where the sessions' time ticks: first after some four times as long as a tick takes.
// While nothing is out a turn takes as long as a hundred of the sender's.
fn prober_of(keeper: &Keeper, config: &Config) -> Option<Prober> {
    if config.tick_every == 0 {
        return None;
    }
    let turns = config.tick_every.saturating_mul(config.pause);
    let patience = turns / (25 * u32::from(config.n)) + 1;
    Some(Prober::new(keeper.seat(), config.n, patience))
}

// A desk with the node's agent, and so many hands.
fn pool_of<B: Object>(
    alloc: Global,
    keeper: &Keeper,
    workers: usize,
) -> Option<(Desk<Kept<B>>, Vec<Hand<Kept<B>>>)>
    requires { 1 ≤ workers }
{
    let Ok((mut givers, getters)) = lane::<Errand<Kept<B>>>(alloc, LANE, 1, workers) else {
        return None;
    };
    let Ok((returners, mut takers)) = lane::<Return<Kept<B>>>(alloc, LANE, workers, 1) else {
        return None;
    };
    let mut desk = Desk::new(alloc, keeper.seat(), givers.remove(0), takers.remove(0));
    if desk.add(0, Kept::Agent(Agent::new(alloc))).is_err() {
        return None;
    }
    let mut hands = Vec::new(alloc);
    add_hands(keeper, getters, returners, &mut hands)?;
    Some((desk, hands))
}

// A hand more for each pair of unused ends.
fn add_hands<B: Object>(
    keeper: &Keeper,
    mut getters: Vec<LaneTake<Errand<Kept<B>>>>,
    mut returners: Vec<LanePut<Return<Kept<B>>>>,
    hands: &mut Vec<Hand<Kept<B>>>,
) -> Option<()>
    requires getters { all_got getters.items ≡ [] }
    requires returners { all_given returners.items ≡ [] }
{
    if getters.is_empty() || returners.is_empty() {
        return Some(());
    }
    let getter = first_getter(&mut getters);
    let returner = first_giver(&mut returners);
    hands.push(Hand::new(keeper.seat(), getter, returner)).ok()?;
    add_hands(keeper, getters, returners, hands)
}

// Takes the first of unused ends that get.
fn first_getter<T: Drop>(ends: &mut Vec<LaneTake<T>>) -> LaneTake<T>
    requires some { 0 < length ends.old.items }
    requires unused { all_got ends.old.items ≡ [] }
    ensures first { got_by result.pass ≡ [] }
    ensures fewer { length ends.new.items < length ends.old.items }
    ensures rest { all_got ends.new.items ≡ [] }
{
    ends.remove(0)
}

// Takes the first of unused ends that give.
fn first_giver<T: Drop>(ends: &mut Vec<LanePut<T>>) -> LanePut<T>
    requires some { 0 < length ends.old.items }
    requires unused { all_given ends.old.items ≡ [] }
    ensures first { given_by result.pass ≡ [] }
    ensures rest { all_given ends.new.items ≡ [] }
{
    ends.remove(0)
}

// The ways to all peers, and a Taker more for each.
fn ways_of(
    alloc: Global,
    keeper: &Keeper,
    ends: Vec<Ends>,
    inboxes: &mut Vec<Mutex<Inbox>>,
) -> Option<Vec<Way<PutEnd>>>
    ensures { IfSome result (λ ways. AllByRecursion (IsTied []) ways.items × AreApart ways.items) }
{
    let mut ways = Vec::new(alloc);
    add_ways(alloc, keeper, ends, &mut ways, inboxes)?;
    Some(ways)
}

// A way and a Taker more for each of these ends.
fn add_ways(
    alloc: Global,
    keeper: &Keeper,
    mut ends: Vec<Ends>,
    ways: &mut Vec<Way<PutEnd>>,
    inboxes: &mut Vec<Mutex<Inbox>>,
) -> Option<()>
    requires { AllByRecursion (IsTied []) ways.old.items × AreApart ways.old.items }
    ensures { OnSome result (AllByRecursion (IsTied []) ways.new.items × AreApart ways.new.items) }
{
    if ends.is_empty() {
        return Some(());
    }
    let first = ends.remove(0);
    add_way(alloc, keeper, first, ways, inboxes)?;
    add_ways(alloc, keeper, ends, ways, inboxes)
}

// A way and a Taker more, where no way leads to that peer yet: else the ends are let go.
fn add_way(
    alloc: Global,
    keeper: &Keeper,
    ends: Ends,
    ways: &mut Vec<Way<PutEnd>>,
    inboxes: &mut Vec<Mutex<Inbox>>,
) -> Option<()>
    requires { AllByRecursion (IsTied []) ways.old.items × AreApart ways.old.items }
    ensures { OnSome result (AllByRecursion (IsTied []) ways.new.items × AreApart ways.new.items) }
{
    let Ends {
        peer,
        put,
        take,
        shim,
    } = ends;
    if leads_to(ways.as_slice(), peer) {
        return Some(());
    }
    let taker = Taker::new(keeper.seat(), peer, take);
    let inbox = Inbox { taker: Some(taker) };
    inboxes.push(Mutex::new(inbox)).ok()?;
    put_first(ways, Way::new(peer, shim, put, Vec::new(alloc)))
}

// Puts an unused way in front of others, none of which leads to its peer. Only memory fails it.
fn put_first(ways: &mut Vec<Way<PutEnd>>, way: Way<PutEnd>) -> Option<()>
    requires tied { IsTied [] way }
    requires others { AllByRecursion (λ other. other.peer ≢ way.peer) ways.old.items }
    requires ways { AllByRecursion (IsTied []) ways.old.items × AreApart ways.old.items }
    ensures { OnSome result (AllByRecursion (IsTied []) ways.new.items × AreApart ways.new.items) }
{
    match ways.insert(0, way) {
        Ok(()) => Some(()),
        Err(_) => None,
    }
}

// Whether a way leads to a peer.
fn leads_to(ways: &[Way<PutEnd>], peer: SpaceId) -> bool
    ensures { result ≡ false → AllByRecursion (λ way. way.peer ≢ peer) ways.now }
{
    match ways.split_first() {
        Some((first, rest)) => first.peer() == peer || leads_to(rest, peer),
        None => false,
    }
}
