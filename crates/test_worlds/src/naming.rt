//! The names of the tests, and the inputs behind them.

ghost use Rattle.std.specs.Prelude.{◌≡◌, ◌++◌, ◌≤◌, length};

use nob_model_text::first_line;

/// Which test is meant.
#[derive(Clone, Copy)]
pub enum Test {
    /// Closes at each place of a script.
    Closes,
    /// Spaces that die and come back.
    Births,
    /// A script run twice, where memory may be refused once.
    Growths,
    /// What each space could do next.
    Next,
}

/// The test of a name.
pub fn test_named(name: &[u8]) -> Option<Test> {
    match name {
        b"closes" => Some(Test::Closes),
        b"births" => Some(Test::Births),
        b"growths" => Some(Test::Growths),
        b"next" => Some(Test::Next),
        _ => None,
    }
}

/// What stands in front of the next line that is the name of a test, and what stands from there on.
pub fn own_input(text: &[u8]) -> (&[u8], &[u8])
    ensures whole { text.now ≡ result.0.now ++ result.1.now }
    ensures shorter { length result.1.now ≤ length text.now }
{
    let mut left = text;
    while let Some((line, rest)) = first_line(left) {
        if test_named(line).is_some() {
            break;
        }
        left = rest;
    }
    text.split_at(text.len() - left.len())
}
