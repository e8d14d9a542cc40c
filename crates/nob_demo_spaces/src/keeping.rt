//! What the words have the nodes of a scene keep.

ghost use Rattle.std.specs.Prelude.{◌≡◌, false, map};
ghost use Rattle.nob_demo_spaces.specs.Words as spec;

use nob_nodes::Keep;
use std::convert::AsStr;

/// What the nodes of a scene are to keep by words of which the first is the program's name: nothing
/// where the others say so, else all.
pub fn keep_in<S: AsStr>(words: &[S]) -> Keep
    ensures { result ≡ spec.keep_in (map S.text words.now) }
{
    match words {
        [] => Keep::All,
        [_program, words @ ..] => {
            if say_nothing(words) {
                Keep::Nothing
            } else {
                Keep::All
            }
        }
    }
}

// Whether one of these words says that nothing is kept.
fn say_nothing<S: AsStr>(words: &[S]) -> bool
    ensures { result ≡ spec.say_nothing false (map S.text words.now) }
{
    let mut after_keep = false;
    for word in words {
        let word = word.as_str();
        if says_nothing(after_keep, word) {
            return true;
        }
        after_keep = word == "--keep";
    }
    false
}

// Whether a word says that nothing is kept: `--keep=nothing`, or `nothing` behind the word `--keep`.
fn says_nothing(after_keep: bool, word: &str) -> bool
    ensures { result ≡ spec.says_nothing after_keep word.now }
{
    word == "--keep=nothing" || (after_keep && word == "nothing")
}
