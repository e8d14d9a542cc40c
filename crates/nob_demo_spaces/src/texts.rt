//! The lines that are written.

ghost use Rattle.std.specs.Prelude.{◌≡◌, IfOk};
ghost use Rattle.std.specs.String.{string_bytes};
ghost use Rattle.nob_demo_spaces.specs.Lines as spec;

use crate::score::Score;
use std::alloc::{AllocError, Global};

// The three lines of a scene whose chains were checked.
pub(crate) fn lines(alloc: Global, score: Score, is_accepted: bool) -> Result<Vec<u8>, AllocError>
    ensures { IfOk result (λ text. text.items ≡ spec.lines score is_accepted) }
{
    let mut text = calls_line(alloc, score.answered())?.into_bytes();
    let total = total_line(alloc, score.greatest())?;
    text.extend_from_slice(total.as_bytes())?;
    text.extend_from_slice(check_line(is_accepted))?;
    Ok(text)
}

// The line that says how many calls were answered.
pub(crate) fn calls_line(alloc: Global, answered: u64) -> Result<String, AllocError>
    ensures { IfOk result (λ text. string_bytes text ≡ spec.calls_line answered) }
{
    format!(in alloc; "calls {answered}\n")
}

// The line that says the greatest total that was answered.
pub(crate) fn total_line(alloc: Global, greatest: i64) -> Result<String, AllocError>
    ensures { IfOk result (λ text. string_bytes text ≡ spec.total_line greatest) }
{
    format!(in alloc; "total {greatest}\n")
}

// The line that says whether the chains are together a run of a world.
fn check_line(is_accepted: bool) -> &'static [u8]
    ensures { result.now ≡ spec.check_line is_accepted }
{
    if is_accepted {
        b"check yes\n"
    } else {
        b"check no\n"
    }
}
