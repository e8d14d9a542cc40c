//! Texts parted at a byte.

ghost use Rattle.std.specs.Prelude.{◌≡◌, ◌++◌, ◌∷◌, ◌==◌, ◌<◌, ℕ, List, None, false, true, length, codes, position, IfSome, IsSome, MatchOption};
ghost use Rattle.nob_trace.specs.Reading.{BeginsWithLine, Lacks};

/// What stands before the first byte of this kind, and what stands behind it: `None` where there is
/// none.
#[tactic(auto, using(crate::proofs::Parting::none_lacks))]
pub fn split_at_byte(text: &[u8], byte: u8) -> Option<(&[u8], &[u8])>
    ensures { MatchOption result (Lacks byte text.now)
        (λ parts. Lacks byte parts.0.now × (text.now ≡ parts.0.now ++ byte ∷ parts.1.now)) }
{
    let Some(end) = place_of(text, byte) else {
        return None;
    };
    Some((text.split_at(end).0, text.split_at(end + 1).1))
}

// Where the first byte of this kind stands.
fn place_of(text: &[u8], byte: u8) -> Option<usize>
    ensures { result ≡ position (λ b. b == byte) text.now }
{
    text.iter().position(|b| *b == byte)
}

/// The first line of a text without its newline, and the text behind it: `None` where no line is
/// whole.
pub fn whole_line(text: &[u8]) -> Option<(&[u8], &[u8])>
    ensures { MatchOption result (Lacks 10 text.now)
        (λ parts. BeginsWithLine text.now parts.0.now parts.1.now) }
{
    split_at_byte(text, b'\n')
}
