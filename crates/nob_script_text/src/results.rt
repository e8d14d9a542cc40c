//! Results in a script.

ghost use Rattle.std.specs.Prelude.{◌≡◌, ◌++◌, ◌∷◌, ◌+◌, IfOk, OnOk};
ghost use Rattle.std.specs.Fmt.{decimal};
ghost use Rattle.std.specs.String.{string_bytes};
ghost use Rattle.nob_script_text.specs.Worlds as spec;
ghost use Rattle.nob_script_text.specs.Scripts.{AreLimitsOf};

use nob_frame::Frame;
use nob_ids::Limits;
use nob_model::{Answer, Refusal};
use nob_model_text::{answer_text, refusal_text};
use std::alloc::{AllocError, Global};

/// The limits that a first line means: those that it states, or else the default ones.
pub fn limits_of(limits: Option<Limits>) -> Limits
    ensures { AreLimitsOf limits result }
{
    match limits {
        Some(limits) => limits,
        None => Limits::default(),
    }
}

/// A result in a script, where so many frames were transmitted before. Only memory fails it.
pub fn result_text(
    alloc: Global,
    before: usize,
    response: &Result<Answer, Refusal>,
) -> Result<String, AllocError>
    ensures { IfOk result (λ text. string_bytes text ≡ spec.result_text before response.now) }
{
    match response {
        Ok(Answer::Frames(frames)) => frames_text(alloc, before, frames.as_slice()),
        Ok(answer) => answer_text(alloc, answer, ""),
        Err(refusal) => String::from_str(alloc, refusal_text(*refusal)),
    }
}

// The frames of a transmit in a script, where so many were transmitted before.
fn frames_text(alloc: Global, before: usize, frames: &[Frame]) -> Result<String, AllocError>
    ensures { IfOk result (λ text. string_bytes text ≡ spec.frames_text before frames.now) }
{
    if frames.is_empty() {
        return String::from_str(alloc, "frames none");
    }
    let mut text = String::from_str(alloc, "frames")?;
    put_numbers(alloc, &mut text, before, frames)?;
    Ok(text)
}

// Puts the numbers of frames, each behind a space, behind a text.
fn put_numbers(
    alloc: Global,
    text: &mut String,
    before: usize,
    frames: &[Frame],
) -> Result<(), AllocError>
    ensures { OnOk result (string_bytes text.new
        ≡ string_bytes text.old ++ spec.numbers_text before frames.now) }
{
    for (place, _) in frames.iter().enumerate() {
        let number = before as u128 + place as u128 + 1;
        let word = number_text(alloc, number)?;
        text.push_str(word.as_str())?;
    }
    Ok(())
}

// A number behind a space.
fn number_text(alloc: Global, number: u128) -> Result<String, AllocError>
    ensures { IfOk result (λ text. string_bytes text ≡ 32 ∷ decimal number) }
{
    format!(in alloc; " {number}")
}
