//! Two threads with links between them.

use crate::carrying::carry;
use crate::parcels::{first_parcels, is_parcel, number_of, parcel};
use nob_link::{LinkError, Parcel, PutEnd, TakeEnd, link};
use std::alloc::Global;
use std::sync::Wait;
use std::thread::Threads;
use std::{io, thread};

// How many parcels go each way.
const PARCELS: u64 = 100_000;

// After how many parcels an end goes away in the middle.
const FEW: u64 = 1000;

/// Prints what two threads took of each other, and what they heard where one of them went away.
pub fn print<R: Threads + Wait + Sync + Print>(rt: &R, alloc: Global) -> io::Result<()> {
    for capacity in [1, 2, 1024] {
        match both_ways(rt, alloc, capacity) {
            Ok((one, other)) => println!(rt; "links of {capacity}: {one} and {other} in order")?,
            Err(error) => println!(rt; "links of {capacity}: {error}")?,
        }
    }
    for capacity in [1, 2, 1024] {
        match taker_goes(rt, alloc, capacity) {
            Ok((taken, true)) => println!(rt;
                "link of {capacity}: {taken} in order, then the taker went: L1"
            )?,
            Ok((taken, false)) => println!(rt; "link of {capacity}: {taken} in order, and no L1")?,
            Err(error) => println!(rt; "link of {capacity}: {error}")?,
        }
        match putter_goes(rt, alloc, capacity) {
            Ok((put, taken)) => println!(rt;
                "link of {capacity}: {put} put, then the putter went: {taken} in order, then none"
            )?,
            Err(error) => println!(rt; "link of {capacity}: {error}")?,
        }
    }
    match carried(rt, alloc) {
        Ok((taken, left)) => println!(rt; "carried: {taken} taken, {left} in all, in order"),
        Err(error) => println!(rt; "carried: {error}"),
    }
}

// Two threads with a link each way, each of which puts all parcels and takes the other's: how many
// each took in order.
fn both_ways<R: Threads + Wait + Sync>(
    rt: &R,
    alloc: Global,
    capacity: u64,
) -> Result<(u64, u64), LinkError> {
    let (put, take) = link(alloc, capacity as usize)?;
    let (put_back, take_back) = link(alloc, capacity as usize)?;
    Ok(thread::join(
        rt,
        move || exchange(rt, alloc, put, take_back, capacity - 1),
        move || exchange(rt, alloc, put_back, take, capacity - 1),
    ))
}

// Puts all parcels, and takes the other thread's so many behind: how many came in order.
fn exchange<R: Wait>(rt: &R, alloc: Global, mut put: PutEnd, mut take: TakeEnd, lag: u64) -> u64 {
    let mut right = 0;
    for number in 1..=PARCELS {
        let Ok(parcel) = parcel(alloc, number) else {
            return right;
        };
        if put.put_as(rt, parcel).is_err() {
            return right;
        }
        if number > lag {
            right = take_next(rt, &mut take, right);
        }
    }
    for _ in 0..lag {
        right = take_next(rt, &mut take, right);
    }
    right
}

// Takes a parcel: how many have come in order, where so many had before.
fn take_next<R: Wait>(rt: &R, take: &mut TakeEnd, right: u64) -> u64 {
    match take.take_as(rt) {
        Some(parcel) if is_parcel(&parcel, right.wrapping_add(1)) => right.wrapping_add(1),
        _ => right,
    }
}

// A taker that goes after a few parcels: how many it took in order, and whether the putter heard L1
// and got back a parcel that the link had no place for.
fn taker_goes<R: Threads + Wait + Sync>(
    rt: &R,
    alloc: Global,
    capacity: u64,
) -> Result<(u64, bool), LinkError> {
    let (put, take) = link(alloc, capacity as usize)?;
    let (back, taken) = thread::join(
        rt,
        move || put_all(rt, alloc, put, PARCELS),
        move || take_few(rt, take),
    );
    let heard = back > FEW && back <= FEW.saturating_add(capacity).saturating_add(1);
    Ok((taken, heard))
}

// Puts the first parcels, so many: the number of the one that came back, or 0.
fn put_all<R: Wait>(rt: &R, alloc: Global, mut put: PutEnd, count: u64) -> u64 {
    for number in 1..=count {
        let Ok(parcel) = parcel(alloc, number) else {
            return 0;
        };
        if let Err(gone) = put.put_as(rt, parcel) {
            return number_of(&gone.parcel);
        }
    }
    0
}

// Takes a few parcels, and lets the end go: how many came in order.
fn take_few<R: Wait>(rt: &R, mut take: TakeEnd) -> u64 {
    let mut right = 0;
    for _ in 0..FEW {
        right = take_next(rt, &mut take, right);
    }
    right
}

// A putter that goes after a few parcels: how many it put, and how many were taken in order until
// there were none.
fn putter_goes<R: Threads + Wait + Sync>(
    rt: &R,
    alloc: Global,
    capacity: u64,
) -> Result<(u64, u64), LinkError> {
    let (put, take) = link(alloc, capacity as usize)?;
    let (back, taken) = thread::join(
        rt,
        move || put_all(rt, alloc, put, FEW),
        move || take_all(rt, take),
    );
    Ok((if back == 0 { FEW } else { back }, taken))
}

// Takes until there is none: how many came, where all came in order.
fn take_all<R: Wait>(rt: &R, mut take: TakeEnd) -> u64 {
    let mut right: u64 = 0;
    for _ in rt.forever() {
        let Some(parcel) = take.take_as(rt) else {
            break;
        };
        if !is_parcel(&parcel, right.wrapping_add(1)) {
            break;
        }
        right = right.wrapping_add(1);
    }
    right
}

// Ten parcels, four of which are taken: how many these are in order, and how many with the rest.
fn carried<R: Threads + Wait + Sync>(rt: &R, alloc: Global) -> Result<(u64, u64), LinkError> {
    let (taken, left) = carry(rt, alloc, first_parcels(alloc, 10)?, 4)?;
    let count = count_in_order(0, taken.as_slice());
    Ok((count, count_in_order(count, left.as_slice())))
}

// How many parcels have come in order, with these after so many.
fn count_in_order(came: u64, parcels: &[Parcel]) -> u64 {
    let mut count = came;
    for parcel in parcels {
        if is_parcel(parcel, count.wrapping_add(1)) {
            count = count.wrapping_add(1);
        }
    }
    count
}
