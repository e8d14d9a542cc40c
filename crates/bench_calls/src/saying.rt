//! What is said while others measure, and of waits.

use crate::timer::Waited;
use std::io;

/// All are there to call or to be called.
pub(crate) const BEGIN: &str = "calls begin";

/// All calls are answered.
pub(crate) const END: &str = "calls end";

// Says a line, if it can be said.
pub(crate) fn say<R: Print>(rt: &R, line: &str) {
    let _ = rt.println(line);
}

// Says within how many nanoseconds 50, 99 and 99.9 of a hundred calls were answered, and what the
// longest took; and how many others were answered while a call was waited for.
pub(crate) fn say_waits<R: Print>(rt: &R, mut waits: Vec<Waited>) -> io::Result<()> {
    waits.sort_unstable_by_key(|wait| wait.nanos);
    let half = wait_at(waits.as_slice(), 500).nanos;
    let most = wait_at(waits.as_slice(), 990).nanos;
    let nearly_all = wait_at(waits.as_slice(), 999).nanos;
    let all = last_of(waits.as_slice()).nanos;
    println!(rt;
        "50 of 100 within {half} nanoseconds, 99 within {most}, 99.9 within {nearly_all}, all within {all}"
    )?;
    waits.sort_unstable_by_key(|wait| wait.others);
    let half = wait_at(waits.as_slice(), 500).others;
    let all = last_of(waits.as_slice()).others;
    println!(rt;
        "meanwhile {half} others were answered or fewer for 50 of 100, {all} or fewer for all"
    )
}

// No call was waited for.
const NO_WAIT: Waited = Waited {
    nanos: 0,
    others: 0,
};

// The one of waits that rise behind which so many of a thousand stand.
fn wait_at(rising: &[Waited], of_thousand: usize) -> Waited {
    let place = rising.len().saturating_mul(of_thousand) / 1_000;
    rising.get(place).copied().unwrap_or(NO_WAIT)
}

// The last of these.
fn last_of(waits: &[Waited]) -> Waited {
    waits.last().copied().unwrap_or(NO_WAIT)
}
