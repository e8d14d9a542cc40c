//! What callers count.

ghost use Rattle.std.specs.Prelude.{◌≡◌, reverse};
ghost use Rattle.nob_demo_spaces.specs.Scores as spec;

use nob_model_types::{Answer, Entry, Refusal};
use nob_pickle::Value;

/// What callers count: how many calls were answered, and the greatest total that was answered.
#[derive(Clone, Copy, Debug, PartialEq, Eq)]
pub struct Score {
    answered: u64,
    greatest: i64,
}

impl Score {
    /// Nothing was answered.
    pub fn new() -> Score
        ensures { result ≡ spec.empty }
    {
        Score {
            answered: 0,
            greatest: 0,
        }
    }

    /// This score after a reply: where its status is 0 the call was answered, and a whole number is
    /// a total.
    pub fn with_reply(self, status: u8, value: &Value) -> Score
        ensures { result ≡ spec.with_reply status value.now self }
    {
        if status != 0 {
            return self;
        }
        Score {
            answered: self.answered.saturating_add(1),
            greatest: greater(self.greatest, value),
        }
    }

    /// What this and another one count.
    pub fn with_score(self, other: Score) -> Score
        ensures { result ≡ spec.with_score other self }
    {
        Score {
            answered: self.answered.saturating_add(other.answered),
            greatest: self.greatest.max(other.greatest),
        }
    }

    /// How many calls were answered.
    pub fn answered(self) -> u64
        ensures { result ≡ self.answered }
    {
        self.answered
    }

    /// The greatest total that was answered: 0 if there is none.
    pub fn greatest(self) -> i64
        ensures { result ≡ self.greatest }
    {
        self.greatest
    }
}

// The greater of a total and a value that may be one.
fn greater(total: i64, value: &Value) -> i64
    ensures { result ≡ spec.greater_of value.now total }
{
    match value {
        Value::Int(number) => total.max(*number),
        _ => total,
    }
}

// What entries say that was answered with totals.
pub(crate) fn score_in(entries: &[Entry]) -> Score
    ensures { result ≡ spec.score_of (reverse entries.now) }
{
    let mut score = Score::new();
    for entry in entries {
        score = after(score, &entry.result);
    }
    score
}

// A score after a result of a space: a reply that was taken may be a total.
fn after(score: Score, said: &Result<Answer, Refusal>) -> Score
    ensures { result ≡ spec.with_result said.now score }
{
    match said {
        Ok(Answer::Replied(status, value)) => match value {
            Value::Int(_) => score.with_reply(*status, value),
            _ => score,
        },
        _ => score,
    }
}
