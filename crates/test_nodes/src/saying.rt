//! What is printed of scenes.

use crate::calling::Said;
use crate::lasting::Lasted;
use crate::reopening::{Reopened, Twice};
use crate::running::Scene;
use crate::unbinding::{Heard, Seen, Unbound};
use crate::verdict::{Outcome, Verdict};
use std::io;

/// Prints what the calls of some applications of a scene came to, each with a name and the place of
/// the application, and what is said of the scene.
pub(crate) fn say<R: Print>(
    rt: &R,
    scene: &Option<Scene>,
    lines: &[(&str, usize)],
) -> io::Result<()> {
    let Some(scene) = scene else {
        return println!(rt; "the scene failed");
    };
    for (name, place) in lines {
        let said = scene.said.get(*place).copied().unwrap_or(Said::Other);
        say_said(rt, name, said)?;
    }
    say_outcome(rt, &scene.outcome)
}

/// Prints what the scene of two nodes that keep nothing came to.
pub(crate) fn say_lasting<R: Print>(rt: &R, lasted: Option<Lasted>) -> io::Result<()> {
    let Some(lasted) = lasted else {
        return println!(rt; "nodes that keep nothing: the scene failed");
    };
    let answered = lasted.answered;
    let last = lasted.last;
    println!(rt; "calls between nodes that keep nothing: {answered}, the last answered {last}")?;
    let is_beyond = lasted.is_beyond;
    println!(rt; "each made more than three entries a call: {is_beyond}")?;
    let is_even = lasted.is_even;
    println!(rt; "each acted on all that the other handed to it: {is_even}")?;
    let is_open = lasted.is_open;
    let live = lasted.live;
    println!(rt; "the session is open at both: {is_open}; live objects: {live}")?;
    let refused = lasted.refused;
    println!(rt; "refused: {refused}")
}

/// Prints what the scene of two nodes that open their session anew came to.
pub(crate) fn say_reopening<R: Print>(rt: &R, twice: Option<Twice>) -> io::Result<()> {
    let Some(twice) = twice else {
        return println!(rt; "nodes that open their session anew: the scene failed");
    };
    say_reopened(rt, "the owner", &twice.owner)?;
    say_reopened(rt, "the caller", &twice.caller)?;
    say_said(rt, "a call before the close", twice.before)?;
    say_said(rt, "a call in the new session", twice.after)?;
    say_outcome(rt, &twice.outcome)
}

// Prints what closing and opening the session came to at one node.
fn say_reopened<R: Print>(rt: &R, name: &str, seen: &Reopened) -> io::Result<()> {
    let is_right = seen.was_open && seen.is_closed;
    match seen.number {
        Some(number) => println!(rt; "{name} closed its session: {is_right}, and opened {number}"),
        None => println!(rt; "{name} closed its session: {is_right}, and opened none"),
    }
}

/// Prints what the scene of boxed objects came to, of which one has a name that is removed.
pub(crate) fn say_unbinding<R: Print>(rt: &R, unbound: Option<Unbound>) -> io::Result<()> {
    let Some(unbound) = unbound else {
        return println!(rt; "nodes with boxed objects: the scene failed");
    };
    say_heard(rt, &unbound.heard)?;
    say_seen(rt, &unbound.seen)?;
    let left = unbound.left;
    println!(rt; "objects that are left: {left}")?;
    say_outcome(rt, &unbound.outcome)
}

// Prints what the caller's calls came to.
fn say_heard<R: Print>(rt: &R, heard: &Heard) -> io::Result<()> {
    say_said(rt, "a boxed counter", heard.counter)?;
    say_said(rt, "a boxed object of another type", heard.doubler)?;
    say_said(rt, "a table of names that lacks one", heard.names)?;
    say_said(rt, "a lookup of a name that was removed", heard.unbound)?;
    say_said(rt, "its object, which is still held", heard.still_held)?;
    let receipts = heard.receipts;
    println!(rt; "receipts of its caller: {receipts}")
}

// Prints what the owner's node said of itself.
fn say_seen<R: Print>(rt: &R, seen: &Seen) -> io::Result<()> {
    let is_open = seen.is_open;
    let held = seen.while_held;
    let withdrawn = seen.once_withdrawn;
    println!(rt; "the session is open: {is_open}")?;
    println!(rt; "live objects: {held} while it is held, {withdrawn} once it is withdrawn")
}

// Prints what is said of a scene.
fn say_outcome<R: Print>(rt: &R, outcome: &Outcome) -> io::Result<()> {
    let refused = outcome.refused;
    println!(rt; "refused: {refused}")?;
    match outcome.verdict {
        Verdict::Accepted(count) => println!(rt; "checked: {count} chains, accepted"),
        Verdict::Refused(count) => println!(rt; "checked: {count} chains, refused"),
        Verdict::Unchecked => println!(rt; "checked: no chains"),
    }
}

// Prints what a call came to.
fn say_said<R: Print>(rt: &R, name: &str, said: Said) -> io::Result<()> {
    match said {
        Said::Number(number) => println!(rt; "{name}: {number}"),
        Said::Fault(number) => println!(rt; "{name}: fault {number}"),
        Said::Ended => println!(rt; "{name}: ended"),
        Said::Other => println!(rt; "{name}: something else"),
    }
}
