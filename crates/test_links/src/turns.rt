//! Two threads that offer turns, and three about a bell.

use crate::{bells, offers};
use std::io;
use std::sync::Wait;
use std::thread::Threads;

// How often two threads begin together.
const ROUNDS: u64 = 1000;

/// Prints what was seen by turns, and what was taken beside a bell.
pub fn print<R: Threads + Wait + Sync + Print>(rt: &R) -> io::Result<()> {
    let (seen, whole) = offers::seen(rt, ROUNDS);
    println!(rt; "offers: {seen} seen, all of them in {whole} rounds")?;
    println!(rt; "bell: {} taken", bells::taken(rt, ROUNDS))
}
