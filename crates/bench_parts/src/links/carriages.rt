//! Two threads, one of which gives parcels to the other.

ghost use Rattle.std.specs.Prelude.{◌≡◌, ◌++◌, List, reverse};
ghost use Rattle.nob_link.specs.declared.parcel.Parcel.{Parcel as ParcelOf};
ghost use Rattle.bench_parts.specs.Counting.{AreInOrder};

use crate::links::parcels::{Spaces, count_with};
use crossbeam_channel::{Receiver, Sender, bounded};
use nob_link::{Parcel, PutEnd, TakeEnd, link};
use std::alloc::Global;
use std::sync::Wait;
use std::thread;
use std::thread::Threads;

/// Carries so many parcels over a link: how many came in order.
pub(crate) fn over_link<R: Threads + Wait + Sync>(
    rt: &R,
    alloc: Global,
    capacity: usize,
    count: u64,
) -> Option<u128> {
    let spaces = Spaces::new()?;
    let (put, mut take) = link(alloc, capacity).ok()?;
    let ((), came) = thread::join(
        rt,
        move || put_all(rt, alloc, put, spaces, count),
        move || take_all(rt, &mut take),
    );
    Some(came)
}

// Puts the parcels of the numbers 0, 1 and so on.
fn put_all<R: Wait>(rt: &R, alloc: Global, mut put: PutEnd, spaces: Spaces, count: u64) {
    for number in 0..count {
        if put.put_as(rt, spaces.parcel(alloc, number)).is_err() {
            return;
        }
    }
}

// Takes until there is none: how many of those that were taken came in order.
fn take_all<R: Wait>(rt: &R, take: &mut TakeEnd) -> u128
    ensures { (taken : List ParcelOf) × (take.new.taken ≡ take.old.taken ++ taken)
        × AreInOrder result (reverse taken) }
{
    let mut came = 0;
    for _ in rt.forever() {
        let Some(parcel) = take.take_as(rt) else {
            break;
        };
        came = count_with(came, &parcel);
    }
    came
}

/// Carries so many parcels over a bare channel: how many came in order.
pub(crate) fn over_channel<R: Threads + Wait + Sync>(
    rt: &R,
    alloc: Global,
    capacity: usize,
    count: u64,
) -> Option<u128> {
    let spaces = Spaces::new()?;
    let (sender, receiver) = bounded::<Parcel, Global>(alloc, capacity).ok()?;
    let ((), came) = thread::join(
        rt,
        move || send_all(rt, alloc, sender, spaces, count),
        move || receive_all(rt, receiver),
    );
    Some(came)
}

// Sends the parcels of the numbers 0, 1 and so on.
fn send_all<R: Wait>(rt: &R, alloc: Global, sender: Sender<Parcel>, spaces: Spaces, count: u64) {
    for number in 0..count {
        if sender.send(rt, spaces.parcel(alloc, number)).is_err() {
            return;
        }
    }
}

// Receives until there is none: how many came in order.
fn receive_all<R: Wait>(rt: &R, receiver: Receiver<Parcel>) -> u128 {
    let mut came = 0;
    for _ in rt.forever() {
        let Ok(parcel) = receiver.recv(rt) else {
            break;
        };
        came = count_with(came, &parcel);
    }
    came
}
