//! What is said of verdicts.

use nob_model_journal::{Promise, Verdict};

/// What is said of a verdict.
pub fn verdict_text(verdict: Verdict) -> &'static str {
    match verdict {
        Verdict::Yes => "yes",
        Verdict::No(Promise::Fronts) => "no fronts",
        Verdict::No(Promise::Withdraws) => "no withdraws",
        Verdict::No(Promise::Losses) => "no losses",
        Verdict::No(Promise::Found) => "no found",
    }
}
