//! Texts to refusals.

ghost use Rattle.std.specs.Prelude.{◌≡◌, Some, IfSome};
ghost use Rattle.nob_model_types.specs.declared.refusal.Refusal.{Refusal as RefusalOf};
ghost use Rattle.nob_model_text.specs.Answers as spec;

use nob_model_types::{Refusal, Use};

/// The refusal that a text spells: `None` where it spells none. It takes no memory.
pub fn refusal_of(text: &[u8]) -> Option<Refusal>
    ensures found { IfSome result (λ refusal. text.now ≡ spec.refusal_text refusal) }
    ensures only { (refusal : RefusalOf) → text.now ≡ spec.refusal_text refusal
        → result ≡ Some refusal }
{
    match text {
        b"S1" => Some(Refusal::NoPeer),
        b"S2" => Some(Refusal::Closed),
        b"S3" => Some(Refusal::NoObject),
        b"S4" => Some(Refusal::NotHeld),
        b"S5" => Some(Refusal::QueueFull),
        b"S6" => Some(Refusal::SeqEnd),
        b"S7" => Some(Refusal::TooBig),
        b"S8" => Some(Refusal::NoCall),
        b"S9" => Some(Refusal::NotReady),
        b"S10" => Some(Refusal::Nothing),
        b"S11(1)" => Some(Refusal::StillUsed(Use::Held)),
        b"S11(2)" => Some(Refusal::StillUsed(Use::InTransit)),
        b"S11(3)" => Some(Refusal::StillUsed(Use::Listed)),
        b"S11(4)" => Some(Refusal::StillUsed(Use::Agent)),
        b"S12" => Some(Refusal::NoJob),
        b"S13" => Some(Refusal::Limit),
        b"S15" => Some(Refusal::StillOpen),
        b"S16" => Some(Refusal::StillHeld),
        _ => None,
    }
}
