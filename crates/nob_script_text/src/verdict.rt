//! The line that says of what was done which promise isn't kept.

ghost use Rattle.std.specs.Prelude.{◌≡◌};
ghost use Rattle.nob_script_text.specs.Verdicts as spec;

use nob_model_journal::{Promise, Verdict};

/// The line of a verdict.
pub fn verdict_line(verdict: Verdict) -> &'static [u8]
    ensures { result.now ≡ spec.verdict_line verdict }
{
    match verdict {
        Verdict::Yes => b"verdict yes\n",
        Verdict::No(Promise::Fronts) => b"verdict no fronts\n",
        Verdict::No(Promise::Withdraws) => b"verdict no withdraws\n",
        Verdict::No(Promise::Losses) => b"verdict no losses\n",
        Verdict::No(Promise::Found) => b"verdict no found\n",
    }
}
