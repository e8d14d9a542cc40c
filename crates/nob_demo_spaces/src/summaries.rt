//! The lines that are written of a scene whose nodes kept nothing.

ghost use Rattle.std.specs.Prelude.{◌≡◌, ◌++◌, codes, IfOk, OnOk};
ghost use Rattle.std.specs.Fmt.{decimal};
ghost use Rattle.std.specs.String.{string_bytes};
ghost use Rattle.nob_demo_spaces.specs.Lines as spec;

use crate::score::Score;
use crate::texts::{calls_line, total_line};
use nob_ids::Reason;
use nob_nodes::{PeerTally, Summary};
use std::alloc::{AllocError, Global};

// The lines of a scene whose nodes kept nothing.
pub(crate) fn unchecked_lines(
    alloc: Global,
    score: Score,
    summaries: &[Summary],
) -> Result<Vec<u8>, AllocError>
    ensures { IfOk result (λ text. text.items ≡ spec.unchecked_lines score summaries.now) }
{
    let mut text = calls_line(alloc, score.answered())?;
    let total = total_line(alloc, score.greatest())?;
    text.push_str(total.as_str())?;
    text.push_str("unchecked\n")?;
    put_summaries(alloc, &mut text, summaries)?;
    Ok(text.into_bytes())
}

// Puts the lines of summaries behind a text.
fn put_summaries(alloc: Global, text: &mut String, summaries: &[Summary]) -> Result<(), AllocError>
    ensures { OnOk result (string_bytes text.new
        ≡ string_bytes text.old ++ spec.summaries_text summaries.now) }
{
    for summary in summaries {
        let space = space_text(alloc, summary)?;
        text.push_str(space.as_str())?;
        put_sessions(alloc, text, summary.peers.as_slice())?;
        text.push_str("\n")?;
    }
    Ok(())
}

// What a summary says of its space.
fn space_text(alloc: Global, summary: &Summary) -> Result<String, AllocError>
    ensures { IfOk result (λ text. string_bytes text ≡ spec.space_text summary.now) }
{
    let space = summary.space.get();
    let entries = summary.entries;
    let stamp = summary.last_stamp;
    let live = summary.live;
    format!(in alloc; "summary {space} entries {entries} stamp {stamp} live {live}")
}

// Puts what is said of sessions behind a text.
fn put_sessions(alloc: Global, text: &mut String, sessions: &[PeerTally]) -> Result<(), AllocError>
    ensures { OnOk result (string_bytes text.new
        ≡ string_bytes text.old ++ spec.sessions_text sessions.now) }
{
    for session in sessions {
        let counts = counts_text(alloc, session)?;
        let end = end_text(alloc, session.tally.closed)?;
        text.push_str(counts.as_str())?;
        text.push_str(end.as_str())?;
    }
    Ok(())
}

// The peer of a session, the session's number, and what went each way.
fn counts_text(alloc: Global, session: &PeerTally) -> Result<String, AllocError>
    ensures { IfOk result (λ text. string_bytes text ≡ spec.counts_text session.now) }
{
    let peer = session.peer.get();
    let number = session.tally.session;
    let sent = session.tally.sent;
    let acted = session.tally.acted;
    format!(in alloc; " peer {peer} session {number} sent {sent} acted {acted}")
}

// How a session stands.
fn end_text(alloc: Global, closed: Option<Reason>) -> Result<String, AllocError>
    ensures { IfOk result (λ text. string_bytes text ≡ spec.end_text closed) }
{
    match closed {
        None => String::from_str(alloc, " open"),
        Some(reason) => closed_text(alloc, reason.number()),
    }
}

// That a session is closed for the reason of this number.
fn closed_text(alloc: Global, number: u8) -> Result<String, AllocError>
    ensures { IfOk result (λ text. string_bytes text ≡ codes " closed " ++ decimal number) }
{
    format!(in alloc; " closed {number}")
}
