//! What one entry's result says.

ghost use Rattle.std.specs.Prelude.{◌≡◌};
ghost use Rattle.nob_rounds.specs.Notes as spec;

use nob_model_types::{Answer, Entry};

/// What an entry may say.
#[derive(Clone, Copy, Debug, PartialEq, Eq)]
pub enum Kind {
    /// An object was exported.
    Export,
    /// A reply was taken.
    Reply,
    /// A message was settled.
    Settlement,
    /// A reference was given up.
    Cleaning,
    /// An object was withdrawn.
    Withdrawal,
    /// A session was opened anew.
    Opening,
    /// Something is new: items came, one was acted on, a message was settled, a reference was given
    /// up, a session closed.
    News,
}

// Whether an object was exported.
fn is_export(entry: &Entry) -> bool
    ensures { result ≡ spec.is_export entry.now.result }
{
    match &entry.result {
        Ok(Answer::Exported(_)) => true,
        _ => false,
    }
}

// Whether a reply was taken.
fn is_reply(entry: &Entry) -> bool
    ensures { result ≡ spec.is_reply entry.now.result }
{
    match &entry.result {
        Ok(Answer::Replied(_, _)) => true,
        _ => false,
    }
}

// Whether a message was settled.
fn is_settlement(entry: &Entry) -> bool
    ensures { result ≡ spec.is_settlement entry.now.result }
{
    match &entry.result {
        Ok(Answer::Settled(_, _)) => true,
        _ => false,
    }
}

// Whether a reference was given up.
fn is_cleaning(entry: &Entry) -> bool
    ensures { result ≡ spec.is_cleaning entry.now.result }
{
    match &entry.result {
        Ok(Answer::Cleaned(_)) => true,
        _ => false,
    }
}

// Whether an object was withdrawn.
fn is_withdrawal(entry: &Entry) -> bool
    ensures { result ≡ spec.is_withdrawal entry.now.result }
{
    match &entry.result {
        Ok(Answer::Withdrawn) => true,
        _ => false,
    }
}

// Whether a session was opened anew.
fn is_opening(entry: &Entry) -> bool
    ensures { result ≡ spec.is_opening entry.now.result }
{
    match &entry.result {
        Ok(Answer::Opened(_)) => true,
        _ => false,
    }
}

// Whether something is new: items came, one was acted on, a message was settled, a reference was
// given up, a session closed.
fn is_news(entry: &Entry) -> bool
    ensures { result ≡ spec.is_news entry.now.result }
{
    match &entry.result {
        Ok(Answer::Took(count)) => *count >= 1,
        Ok(Answer::Acted(_)) => true,
        Ok(Answer::Settled(_, _)) => true,
        Ok(Answer::Cleaned(_)) => true,
        Ok(Answer::Closed(_)) => true,
        _ => false,
    }
}

// Whether an entry says this.
fn is_of(kind: Kind, entry: &Entry) -> bool
    ensures { result ≡ spec.is_of kind entry.now.result }
{
    match kind {
        Kind::Export => is_export(entry),
        Kind::Reply => is_reply(entry),
        Kind::Settlement => is_settlement(entry),
        Kind::Cleaning => is_cleaning(entry),
        Kind::Withdrawal => is_withdrawal(entry),
        Kind::Opening => is_opening(entry),
        Kind::News => is_news(entry),
    }
}

// How many entries say this.
pub(crate) fn count_of(kind: Kind, entries: &[Entry]) -> usize
    ensures { result ≡ spec.count_of kind entries.now }
{
    entries.iter().filter(|entry| is_of(kind, entry)).count()
}
