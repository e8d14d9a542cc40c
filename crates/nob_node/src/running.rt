//! How a node runs.

ghost use Rattle.std.specs.Prelude.{◌≡◌, ◌↔◌, [], true, IfOk, MatchOption};
ghost use Rattle.nob_keeper.specs.Accounts.{keeps_all};
ghost use Rattle.nob_keeper.specs.Summaries as summaries;
ghost use Rattle.nob_node.specs.Leaving as leaving;
ghost use Rattle.nob_node.specs.Records as nodes;
ghost use denote.Param.Send.{IsSend, IsSync};

use crate::app::App;
use crate::error::NodeError;
use crate::leftovers::{Rest, Searched, end_pool, keep, rest_of};
use crate::node::Node;
use nob_dispatch_objects::Object;
use nob_keeper::{Keep, Keeper, KeeperError, Record, Seat};
use nob_node_site::{
    Config, Crew, Ends, Gate, Inbox, LeftObject, Outbox, Site, SiteParts, run_crew, site_of,
};
use std::alloc::Global;
use std::sync::{Mutex, Wait};
use std::thread::{self, Threads};

/// What a node leaves when it has ended.
#[derive(Drop)]
pub struct Report<B: Object> {
    /// What was kept of the entries of its space: all of them, in a chain of sealed segments, or what
    /// they come to.
    pub record: Record,
    /// The application's objects that weren't withdrawn, by rising index.
    pub objects: Vec<LeftObject<B>>,
}

// What is left when all threads have ended.
#[derive(Drop)]
struct Remains<B: Object> {
    seat: Seat,
    rest: Option<Rest<B>>,
    // Whether all threads could be made.
    is_whole: bool,
}

/// Runs a node: a space with the threads that carry its frames and run its objects, while an
/// application runs. When that returns, no new job is claimed, methods that run go on to their ends,
/// the end is put on each link, and what comes is taken until the peers' ends come. So a node ends
/// after its peers' applications: each node wants a thread of its own. The application's objects
/// come back in any case. J1 with K3 where the trace is full, with K2 where memory is wanted or a
/// thread can't be made: then the application may not have run.
pub fn run<B: Object + Send, R: Threads + Wait + Sync, G: Gate + Sync, A: App<B>>(
    rt: &R,
    alloc: Global,
    config: Config,
    ends: Vec<Ends>,
    gate: &G,
    app: &mut A,
) -> Result<Report<B>, (NodeError, Vec<LeftObject<B>>)>
    ensures recorded { IfOk result (λ report. nodes.IsRecorded report.«record») }
    ensures own { IfOk result (λ report. nodes.IsOwn config report.«record») }
    ensures kept { IfOk result (λ report. summaries.is_chain report.«record»
        ≡ keeps_all config.keep) }
{
    let Some((site, crew)) = site_of::<B>(alloc, &config, ends, processors(rt)) else {
        return Err(without_memory(alloc));
    };
    let (crew, remains) = run_threads(rt, alloc, &site, gate, crew, app);
    let (report, _searched) = finish(rt, alloc, config, site, crew, remains);
    report
}

// How many processors the threads may run on: many, where the system doesn't say.
fn processors<R: Threads>(rt: &R) -> usize {
    match thread::available_parallelism(rt) {
        Ok(count) => count.get(),
        Err(_) => usize::MAX,
    }
}

// What a node answers that has no memory for its parts.
fn without_memory<B: Object>(alloc: Global) -> (NodeError, Vec<LeftObject<B>>)
    ensures { result.1.items ≡ [] }
{
    (NodeError::Keeper(KeeperError::OutOfMemory), Vec::new(alloc))
}

// Runs the crew in threads, and the application in this one, until all have ended. The crew is gone
// where no thread could be made for it.
fn run_threads<B: Object + Send, R: Threads + Wait + Sync, G: Gate + Sync, A: App<B>>(
    rt: &R,
    alloc: Global,
    site: &Site<B>,
    gate: &G,
    crew: Crew<B>,
    app: &mut A,
) -> (Option<Crew<B>>, Remains<B>) {
    let handle = rt;
    thread::scope(
        thread::scope_env(),
        handle,
        |scope|
            requires { IsSend B.row × IsSync R.row × IsSync G.row }
        {
            let Ok(child) = scope.spawn(move || run_crew(rt, site, gate, crew)) else {
                site.start.say(rt, false);
                return (None, run_app(rt, alloc, site, app));
            };
            let remains = run_app(rt, alloc, site, app);
            (Some(child.join(rt)), remains)
        },
    )
}

// Runs the application, once all threads are made, and then tells the threads to end.
fn run_app<B: Object, R: Wait, A: App<B>>(
    rt: &R,
    alloc: Global,
    site: &Site<B>,
    app: &mut A,
) -> Remains<B> {
    let mut node = Node::new(alloc, site, site.seat());
    let is_whole = site.start.wait(rt);
    if is_whole {
        app.run(rt, &mut node);
    } else {
        site.fail(rt);
        app.skip(rt);
    }
    let rest = match site.end_jobs(rt) {
        Some(desk) => Some(rest_of(desk)),
        None => None,
    };
    site.jobs.wait_left(rt);
    site.end_links(rt);
    Remains {
        seat: node.into_seat(),
        rest,
        is_whole,
    }
}

// Ends a node whose threads have ended: its report, and the ends by which the last objects came.
fn finish<B: Object, R: Wait>(
    rt: &R,
    alloc: Global,
    config: Config,
    site: Site<B>,
    crew: Option<Crew<B>>,
    remains: Remains<B>,
) -> (
    Result<Report<B>, (NodeError, Vec<LeftObject<B>>)>,
    Option<Searched<B>>,
)
    ensures recorded { IfOk result.0 (λ report. nodes.IsRecorded report.«record») }
    ensures own { IfOk result.0 (λ report. nodes.IsOwn config report.«record») }
    ensures kept { IfOk result.0 (λ report. summaries.is_chain report.«record»
        ≡ keeps_all config.keep) }
    ensures objects { MatchOption crew (leaving.objects_in result.0 ≡ [])
        (λ crew. leaving.AreLeftIn remains.rest crew.hands.items result.1
        (leaving.objects_in result.0)) }
{
    let has_failed = site.failure.has_come();
    let SiteParts {
        keeper,
        outbox,
        inboxes,
        carer,
        desk: _,
    } = site.into_parts();
    let Remains {
        seat,
        rest,
        is_whole,
    } = remains;
    let Some(crew) = crew else {
        keeper.shut();
        return (Err(without_memory(alloc)), None);
    };
    let Crew {
        hands,
        probing,
        mut seats,
    } = crew;
    if let Some(seat) = probing.end() {
        keep(&mut seats, seat);
    }
    keep(&mut seats, seat);
    keep(&mut seats, carer.end());
    keep_all(&mut seats, outbox, inboxes);
    let (objects, searched) = end_pool(rt, alloc, hands, rest, &mut seats);
    if is_whole && !has_failed {
        return (close(keeper, config, seats, objects), searched);
    }
    keeper.shut();
    let error = if is_whole {
        KeeperError::Stamp
    } else {
        KeeperError::OutOfMemory
    };
    (Err((NodeError::Keeper(error), objects)), searched)
}

// The seats of what transmitted and of those that took.
fn keep_all(seats: &mut Vec<Seat>, outbox: Outbox, inboxes: Vec<Mutex<Inbox>>) {
    if let Some(seat) = outbox.into_seat() {
        keep(seats, seat);
    }
    for inbox in inboxes {
        let Inbox { taker } = inbox.into_inner();
        if let Some(taker) = taker {
            let (seat, _end, _due) = taker.end();
            keep(seats, seat);
        }
    }
}

// The report of a node. What is kept is looked at once more: that it is of the node's own space. It
// always is, since no other space was made.
fn close<B: Object>(
    keeper: Keeper,
    config: Config,
    seats: Vec<Seat>,
    objects: Vec<LeftObject<B>>,
) -> Result<Report<B>, (NodeError, Vec<LeftObject<B>>)>
    ensures recorded { IfOk result (λ report. nodes.IsRecorded report.«record») }
    ensures own { IfOk result (λ report. nodes.IsOwn config report.«record») }
    ensures kept { IfOk result (λ report. summaries.is_chain report.«record»
        ≡ keeps_all config.keep) }
    ensures objects { leaving.objects_in result ≡ objects.items }
{
    match record_of(keeper, config.keep(), seats) {
        Ok(record) => {
            if !is_own(&record, &config) {
                return Err((NodeError::Keeper(KeeperError::Seats), objects));
            }
            Ok(Report { record, objects })
        }
        Err((error, keeper)) => {
            keeper.shut();
            Err((NodeError::Keeper(error), objects))
        }
    }
}

// Whether a record is of the space of a node, one of as many spaces, with the node's limits where it
// says some.
fn is_own(record: &Record, config: &Config) -> bool
    ensures { (result ≡ true) ↔ nodes.IsOwn config.now record.now }
{
    match record {
        Record::Chain(chain) => {
            let parts = chain.parts();
            config.is_of(parts.space, parts.n) && config.has_limits(parts.limits)
        }
        Record::Summary(summary) => config.is_of(summary.space, summary.n),
    }
}

// What was kept: a chain of all entries, or what they come to.
fn record_of(keeper: Keeper, kept: Keep, seats: Vec<Seat>) -> Result<Record, (KeeperError, Keeper)>
    ensures recorded { IfOk result (λ left. summaries.IsRecordOf keeper.identity seats.items left) }
    ensures kept { IfOk result (λ left. summaries.is_chain left ≡ keeps_all kept) }
{
    match kept {
        Keep::All => match keeper.close_with(seats) {
            Ok(chain) => Ok(Record::Chain(chain)),
            Err((error, keeper, _seats)) => Err((error, keeper)),
        },
        Keep::Nothing => match keeper.end_with(seats) {
            Ok(summary) => Ok(Record::Summary(summary)),
            Err((error, keeper, _seats)) => Err((error, keeper)),
        },
    }
}
