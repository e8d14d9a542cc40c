//! Refusals to texts.

ghost use Rattle.std.specs.Prelude.{◌≡◌};
ghost use Rattle.nob_model_text.specs.Answers as spec;

use nob_model_types::{Refusal, Use};

/// The text of a refusal. It takes no memory.
pub fn refusal_text(refusal: Refusal) -> &'static str
    ensures { result.now ≡ spec.refusal_text refusal }
{
    match refusal {
        Refusal::NoPeer => "S1",
        Refusal::Closed => "S2",
        Refusal::NoObject => "S3",
        Refusal::NotHeld => "S4",
        Refusal::QueueFull => "S5",
        Refusal::SeqEnd => "S6",
        Refusal::TooBig => "S7",
        Refusal::NoCall => "S8",
        Refusal::NotReady => "S9",
        Refusal::Nothing => "S10",
        Refusal::StillUsed(left) => use_text(left),
        Refusal::NoJob => "S12",
        Refusal::Limit => "S13",
        Refusal::StillOpen => "S15",
        Refusal::StillHeld => "S16",
    }
}

// The text of what still uses an object.
fn use_text(left: Use) -> &'static str
    ensures { result.now ≡ spec.use_text left }
{
    match left {
        Use::Held => "S11(1)",
        Use::InTransit => "S11(2)",
        Use::Listed => "S11(3)",
        Use::Agent => "S11(4)",
    }
}
