//! Parcels that go from one thread to another over a link, or over a bare channel. `bench/links`
//! measures it.

mod carriages;
mod parcels;

use crate::links::carriages::{over_channel, over_link};
use crate::reading::{number_of, size_of};
use std::alloc::Global;
use std::io;
use std::sync::Wait;
use std::thread::Threads;

// What the parcels go over.
#[derive(Clone, Copy)]
enum Medium {
    Link,
    Channel,
}

// What is measured: so many parcels, over something that holds so many.
#[derive(Clone, Copy)]
struct LinkTask {
    medium: Medium,
    capacity: usize,
    count: u64,
}

/// Carries all parcels of a task, and says whether they came in order.
pub(crate) fn measure<R: Threads + Wait + Sync + Print>(
    rt: &R,
    alloc: Global,
    text: &str,
) -> io::Result<()> {
    let Some(task) = task_of(text) else {
        return rt.println("link|channel CAPACITY PARCELS");
    };
    let came = match task.medium {
        Medium::Link => over_link(rt, alloc, task.capacity, task.count),
        Medium::Channel => over_channel(rt, alloc, task.capacity, task.count),
    };
    match came {
        Some(came) if came == u128::from(task.count) => rt.println("done"),
        Some(_) => rt.println("not in order"),
        None => rt.println("no way"),
    }
}

// The task of a line: `None` where it has other words.
fn task_of(line: &str) -> Option<LinkTask> {
    let mut words = line.split_whitespace();
    Some(LinkTask {
        medium: medium_of(words.next()?)?,
        capacity: size_of(words.next())?,
        count: number_of(words.next())?,
    })
}

// What a word has the parcels go over.
fn medium_of(word: &str) -> Option<Medium> {
    Some(match word {
        "link" => Medium::Link,
        "channel" => Medium::Channel,
        _ => return None,
    })
}
