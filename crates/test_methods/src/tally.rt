//! What is found when nodes have ended.

use crate::gate::Counts;
use crate::rows::{Row, Said, say};
use crate::thing::Thing;
use nob_chain::Chain;
use nob_chain_check::check;
use nob_ids::JobNo;
use nob_model_types::{Event, Outcome, Refusal};
use nob_nodes::{LeftObject, Played, Report};
use nob_pickle::Value;
use nob_trace::Stamped;
use std::alloc::Global;

/// What the nodes of a scene left.
#[derive(Drop)]
pub(crate) struct Remains {
    /// The chains of all of them, in the order of their spaces.
    pub(crate) chains: Vec<Chain>,
    /// The place of the one that has objects for the others, and these.
    pub(crate) owner: usize,
    pub(crate) objects: Vec<LeftObject<Thing>>,
}

// What nodes and their players left, of which one has objects for the others. `None` where one
// failed, or memory is wanted.
pub(crate) fn remains_of<A: Drop>(
    alloc: Global,
    played: Vec<Played<Thing, A>>,
    owner: usize,
) -> Option<(Remains, Vec<A>)> {
    let mut remains = Remains {
        chains: Vec::with_capacity(alloc, played.len()).ok()?,
        owner,
        objects: Vec::new(alloc),
    };
    let mut players = Vec::with_capacity(alloc, played.len()).ok()?;
    for (place, one) in played.into_iter().enumerate() {
        let Played { player, left, .. } = one;
        let Report { record, objects } = left.ok()?;
        remains.chains.push(record.into_chain()?).ok()?;
        players.push(player).ok()?;
        if place == owner {
            remains.objects = objects;
        }
    }
    Some((remains, players))
}

// Says what a scene came to in its end. Only memory fails it.
pub(crate) fn say_end(
    alloc: Global,
    remains: Remains,
    gate: &Counts,
    rows: &mut Vec<Row>,
) -> Option<()> {
    say_ended(alloc, remains.chains.get(remains.owner)?, rows)?;
    let left = u64::try_from(remains.objects.len()).ok()?;
    let is_even = gate.are_even();
    let is_accepted = check(alloc, remains.chains).is_ok();
    for (name, said) in [
        ("objects that are back", Said::Count(left)),
        ("each job that entered the gate left it", Said::Is(is_even)),
        (
            "the chains of all spaces are accepted",
            Said::Is(is_accepted),
        ),
    ] {
        say(rows, name, said);
    }
    Some(())
}

// Says how many jobs a space ended, and whether each number from 1 on is one of them and each once.
// Only memory fails it.
fn say_ended(alloc: Global, chain: &Chain, rows: &mut Vec<Row>) -> Option<()> {
    let mut count: u64 = 0;
    for segment in chain.parts().segments.as_slice() {
        for entry in segment.entries.as_slice() {
            if ended_by(entry).is_some() {
                count = count.saturating_add(1);
            }
        }
    }
    say(rows, "jobs that were ended", Said::Count(count));
    let is_each_once = each_once(alloc, chain, count)?;
    say(rows, "each job's number once", Said::Is(is_each_once));
    Some(())
}

// The number of the job that an entry ended.
fn ended_by(entry: &Stamped) -> Option<u64> {
    match &entry.event {
        Event::Finish(job, _) if entry.result.is_ok() => Some(job.get()),
        _ => None,
    }
}

// Whether the jobs that were ended are those of the numbers 1 to this one, each once. Only memory
// fails it.
fn each_once(alloc: Global, chain: &Chain, most: u64) -> Option<bool> {
    let mut marks = vec![in alloc; false; usize::try_from(most).ok()?].ok()?;
    for segment in chain.parts().segments.as_slice() {
        for entry in segment.entries.as_slice() {
            if let Some(number) = ended_by(entry)
                && mark(&mut marks, number).is_none()
            {
                return Some(false);
            }
        }
    }
    Some(marks.iter().all(|mark| *mark))
}

// Marks a number. `None` where it may not be, or is marked already.
fn mark(marks: &mut Vec<bool>, number: u64) -> Option<()> {
    let place = usize::try_from(number.checked_sub(1)?).ok()?;
    let mark = marks.get_mut(place)?;
    if *mark {
        return None;
    }
    *mark = true;
    Some(())
}

// Says how many ends of jobs were refused by a space, and then made again as a fault with unit.
pub(crate) fn say_made_again(chain: &Chain, rows: &mut Vec<Row>) {
    for (name, refusal) in [
        (
            "refused by S3, and then a fault with unit",
            Refusal::NoObject,
        ),
        (
            "refused by S4, and then a fault with unit",
            Refusal::NotHeld,
        ),
        ("refused by S7, and then a fault with unit", Refusal::TooBig),
    ] {
        say(rows, name, Said::Count(made_again(chain, refusal)));
    }
}

// How many ends of jobs were refused so, with a fault with unit as the next end of the same job.
// One job at a time has such an end.
fn made_again(chain: &Chain, refusal: Refusal) -> u64 {
    let mut count: u64 = 0;
    let mut refused: Option<JobNo> = None;
    for segment in chain.parts().segments.as_slice() {
        for entry in segment.entries.as_slice() {
            let Event::Finish(job, outcome) = &entry.event else {
                continue;
            };
            if is_refused(entry, refusal) {
                refused = Some(*job);
            } else if refused == Some(*job) {
                refused = None;
                if let (Outcome::Fault(Value::Unit), Ok(_)) = (outcome, &entry.result) {
                    count = count.saturating_add(1);
                }
            }
        }
    }
    count
}

// Whether an entry was refused so.
fn is_refused(entry: &Stamped, refusal: Refusal) -> bool {
    match &entry.result {
        Err(other) => *other == refusal,
        Ok(_) => false,
    }
}

// How many calls counters counted.
pub(crate) fn counted(objects: &[LeftObject<Thing>]) -> u64 {
    let mut count: u64 = 0;
    for left in objects {
        if let Thing::Counter(calls) = &left.object {
            count = count.saturating_add(*calls);
        }
    }
    count
}
