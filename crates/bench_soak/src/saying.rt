//! What is printed.

use crate::judging::Outcome;
use crate::round::Round;
use std::io;

// Prints what a round came to. What depends on the schedule goes to standard error, unless
// something is wrong.
pub(crate) fn say<R: Print + Eprint>(rt: &R, outcome: Option<Outcome>) -> io::Result<()> {
    let Some(outcome) = outcome else {
        return println!(rt; "it can't be made");
    };
    say_figures(rt, outcome)?;
    if outcome.is_right() {
        return println!(rt; "all is at rest");
    }
    let failed = outcome.failed;
    let unrested = outcome.unrested;
    let live = outcome.live;
    let left = outcome.left;
    let unsettled = outcome.unsettled;
    let verdict = outcome.verdict;
    println!(rt;
        "WRONG: {failed} nodes failed, {unrested} players not at rest, {live} objects live, {left} left, {unsettled} sessions unsettled, chains {verdict:?}"
    )
}

// Prints what a round is.
pub(crate) fn say_round<R: Print>(rt: &R, round: Round) -> io::Result<()> {
    let number = round.number;
    let spaces = round.spaces;
    let workers = round.layout.workers;
    let loss = round.layout.loss;
    let cuts = round.cuts;
    let closes = round.closes;
    let keep = round.layout.keep;
    println!(rt;
        "round {number}: {spaces} spaces, {workers} workers, loss {loss}, {closes} closes of 1000, {cuts} cuts of 100, keeps {keep:?}"
    )
}

// Prints how often what happened.
fn say_figures<R: Print + Eprint>(rt: &R, outcome: Outcome) -> io::Result<()> {
    let figures = outcome.figures;
    let steps = figures.steps;
    let exports = figures.exports;
    let answered = figures.answered;
    let faults = figures.faults;
    let lost = figures.lost;
    let ended = figures.ended;
    let got = figures.got;
    eprintln!(rt;
        "steps {steps} exports {exports} answered {answered} faults {faults} lost {lost} ended {ended} got {got}"
    )?;
    let closes = figures.closes;
    let opens = figures.opens;
    let refused = figures.refused;
    let lacked = figures.lacked;
    let even = outcome.even;
    let closed = outcome.closed;
    let apart = outcome.apart;
    let entries = outcome.entries;
    eprintln!(rt;
        "closes {closes} opens {opens} refused {refused} lacked {lacked} even {even} closed {closed} apart {apart} entries {entries}"
    )
}
