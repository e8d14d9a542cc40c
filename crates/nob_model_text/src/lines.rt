//! Lines.

ghost use Rattle.std.specs.Prelude.{◌≡◌, ◌<◌, ◌∷◌, [], length, IfSome, MatchOption, position};
ghost use Rattle.nob_model_text.specs.Lines as spec;

/// The first line of a text, without its newline, and the text after it: `None` of an empty text,
/// which has no line.
#[tactic(auto, using(crate::proofs::LineTexts::newline_first, crate::proofs::LineTexts::newline_none))]
pub fn first_line(text: &[u8]) -> Option<(&[u8], &[u8])>
    ensures lines { MatchOption result (text.now ≡ [])
        (λ parts. spec.lines_of text.now ≡ parts.0.now ∷ spec.lines_of parts.1.now) }
    ensures shorter { IfSome result (λ parts. length parts.1.now < length text.now) }
{
    if text.is_empty() {
        return None;
    }
    let Some(end) = newline_of(text) else {
        return Some(text.split_at(text.len()));
    };
    Some((text.split_at(end).0, text.split_at(end + 1).1))
}

// Where the first newline stands.
fn newline_of(text: &[u8]) -> Option<usize>
    ensures { result ≡ position spec.is_newline text.now }
{
    text.iter().position(|byte| *byte == b'\n')
}
