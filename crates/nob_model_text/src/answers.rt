//! The lines of a script as they are written, with their answers.

ghost use Rattle.std.specs.Prelude.{◌≡◌, ◌++◌, ◌∷◌, ◌≤◌, [], length, IfOk, OnOk, OnErr};
ghost use Rattle.std.specs.String.{string_bytes};
ghost use Rattle.nob_model_text.specs.Lines.{bad_step_text};

use std::alloc::{AllocError, Global};

/// Writes a line with a mark and an answer behind it, whole or not at all. Only memory fails it.
/// The caller's condition: the mark has 3 bytes at most.
pub fn push_line(
    text: &mut Vec<u8>,
    line: &[u8],
    mark: &[u8],
    answer: &[u8],
) -> Result<(), AllocError>
    requires { length mark.now ≤ 3 }
    ensures ok { OnOk result (text.new.items
        ≡ text.old.items ++ ((line.now ++ mark.now ++ answer.now) ++ 10 ∷ [])) }
    ensures err { OnErr result (text.new.items ≡ text.old.items) }
{
    text.reserve(line.len().saturating_add(answer.len()).saturating_add(4))?;
    text.extend_from_slice(line)?;
    text.extend_from_slice(mark)?;
    text.extend_from_slice(answer)?;
    text.push(b'\n')?;
    Ok(())
}

/// Writes that the line of this number is no step, whole or not at all. Only memory fails it.
pub fn push_bad_step(alloc: Global, text: &mut Vec<u8>, number: u64) -> Result<(), AllocError>
    ensures ok { OnOk result (text.new.items ≡ text.old.items ++ bad_step_text number) }
    ensures err { OnErr result (text.new.items ≡ text.old.items) }
{
    let message = bad_step(alloc, number)?;
    text.extend_from_slice(message.as_bytes())?;
    Ok(())
}

fn bad_step(alloc: Global, number: u64) -> Result<String, AllocError>
    ensures { IfOk result (λ message. string_bytes message ≡ bad_step_text number) }
{
    format!(in alloc; "line {number}: bad step\n")
}
