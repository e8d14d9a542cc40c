//! Spaces that die and come back. Births out of range are refused, each for its reason; and at each
//! place of the way of a reference among three spaces one of them dies, and comes back behind its
//! bounds.

mod deaths;
mod journey;
mod ranges;
mod returning;

use crate::births::deaths::{AfterDeath, Death, outcome_of};
use crate::births::journey::MOVES;
use crate::births::ranges::say_births;
use nob_ids::SpaceId;
use std::io;

// What was seen of all deaths.
#[derive(Clone, Copy)]
struct DeathCounts {
    // How many there were.
    deaths: u64,
    // In how many an object of the dead space was live.
    lost: u64,
    // In how many the first index of the new life was the one behind the bounds.
    first: u64,
    // In how many a call to each peer and from it was answered afterwards.
    called: u64,
    // In how many no object was live at the end.
    withdrawn: u64,
}

/// Tries all births and deaths, and writes what is said of them.
pub fn try_births(rt: &HostRuntime) -> io::Result<()> {
    say_births(rt)?;
    say_deaths(rt, 0)?;
    say_deaths(rt, 1024)
}

// Lets each space die at each place of the way, and come back behind bounds with so many numbers
// to spare, and writes what is said of it.
fn say_deaths(rt: &HostRuntime, spare: u64) -> io::Result<()> {
    let mut tally = DeathCounts {
        deaths: 0,
        lost: 0,
        first: 0,
        called: 0,
        withdrawn: 0,
    };
    for number in 1..4 {
        let Some(space) = SpaceId::new(number) else {
            return Ok(());
        };
        for place in 0..MOVES + 1 {
            let death = Death {
                space,
                place,
                spare,
            };
            match outcome_of(rt.alloc(), &death) {
                Ok(seen) => count(&mut tally, &seen),
                Err(_) => return rt.println("a space was refused what it wants"),
            }
        }
    }
    say(rt, spare, &tally)
}

fn count(tally: &mut DeathCounts, seen: &AfterDeath) {
    tally.deaths = tally.deaths.saturating_add(1);
    tally.lost = tally.lost.saturating_add(u64::from(seen.is_lost));
    tally.first = tally.first.saturating_add(u64::from(seen.is_first));
    tally.called = tally.called.saturating_add(u64::from(seen.is_called));
    tally.withdrawn = tally.withdrawn.saturating_add(u64::from(seen.is_withdrawn));
}

fn say(rt: &HostRuntime, spare: u64, tally: &DeathCounts) -> io::Result<()> {
    let deaths = tally.deaths;
    let lost = tally.lost;
    let first = tally.first;
    let called = tally.called;
    let withdrawn = tally.withdrawn;
    println!(rt;
        "{deaths} deaths, {spare} to spare: {lost} with a live object; {first} go on behind all indexes, {called} call and are called, {withdrawn} withdraw all"
    )
}
