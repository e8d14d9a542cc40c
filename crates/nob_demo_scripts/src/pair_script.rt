//! Whole scripts.

ghost use Rattle.std.specs.Prelude.{◌≡◌, ◌++◌, ◌∷◌, [], List, ℕ, false, IsTrue, IfOk, OnOk, OnErr, codes, ◌+◌, ◌<◌, ◌≤◌, ◌^◌, length};
ghost use Rattle.nob_ids.specs.declared.limits.Limits.{Limits as LimitsOf};
ghost use Rattle.nob_model_session.specs.declared.entry.PairEntry.{PairEntry};
ghost use Rattle.nob_model_text.specs.Lines.{lines_of, bad_step_text};
ghost use Rattle.nob_demo_scripts.specs.Pairs.{PairStands};
ghost use Rattle.nob_demo_scripts.specs.PairScripts.{FromHeader, FromLines, Grows, IsNoStep, IsStepLine, MakesStep, Plays, last_line};

use crate::pair::Pair;
use crate::parse::{header_of, step_of};
use crate::step::Step;
use crate::text::text_of;
use nob_model_text::{first_line, push_bad_step, push_line};
use nob_session::laws;
use std::alloc::{AllocError, Global};

/// How a script ended.
#[derive(Clone, Copy, Debug)]
pub enum PairEnding {
    /// Every line was a step, and the fronts hold.
    Fronts,
    /// A line was none, and the run ended there.
    BadStep,
    /// Memory ran out beside the steps, and the run ended there.
    OutOfMemory,
}

impl PairEnding {
    /// What is still to be written after a script's text: the line `memory` where memory ran out.
    pub fn last_line(self) -> &'static [u8]
        ensures { result.now ≡ last_line self }
    {
        match self {
            PairEnding::Fronts => b"",
            PairEnding::BadStep => b"",
            PairEnding::OutOfMemory => b"memory\n",
        }
    }
}

/// Writes what a pair script gives onto an empty text: its first line, each line with its answer,
/// and then that the fronts hold, or the first line that is no step. The outcome's last line is
/// still to follow.
pub fn play(alloc: Global, script: &[u8], text: &mut Vec<u8>) -> PairEnding
    requires { text.old.items ≡ [] }
    ensures plays { Plays script.now (text.new.items ++ last_line result) result }
{
    match play_script(alloc, script, text) {
        Ok(outcome) => outcome,
        Err(AllocError) => PairEnding::OutOfMemory,
    }
}

// The same, but that memory may run out beside the steps.
fn play_script(alloc: Global, script: &[u8], text: &mut Vec<u8>) -> Result<PairEnding, AllocError>
    requires { text.old.items ≡ [] }
    ensures ok { IfOk result (λ outcome.
        Plays script.now (text.new.items ++ last_line outcome) outcome) }
    ensures err { OnErr result (Plays script.now
        (text.new.items ++ last_line PairEnding.OutOfMemory) PairEnding.OutOfMemory) }
{
    let Some((header, steps)) = first_line(script) else {
        return bad_step(alloc, text, 1);
    };
    play_from(alloc, header, steps, text)
}

// Writes what a script gives that has this first line and these further ones.
fn play_from(
    alloc: Global,
    header: &[u8],
    steps: &[u8],
    text: &mut Vec<u8>,
) -> Result<PairEnding, AllocError>
    ensures ok { IfOk result (λ outcome.
        Grows text.old.items (text.new.items ++ last_line outcome)
        (λ written. FromHeader header.now (lines_of steps.now) written outcome)) }
    ensures err { OnErr result (Grows text.old.items
        (text.new.items ++ last_line PairEnding.OutOfMemory)
        (λ written. FromHeader header.now (lines_of steps.now) written PairEnding.OutOfMemory)) }
{
    let Some(limits) = header_of(alloc, header)? else {
        return bad_step(alloc, text, 1);
    };
    let mut pair = Pair::open(alloc, limits)?;
    push_line(text, header, b"", b"")?;
    play_steps(alloc, &mut pair, steps, text)
}

// Makes the steps of these lines, of which the first is line 2, and writes them with their answers.
fn play_steps(
    alloc: Global,
    pair: &mut Pair,
    steps: &[u8],
    text: &mut Vec<u8>,
) -> Result<PairEnding, AllocError>
    ensures ok { (limits : LimitsOf) (J : List PairEntry) → PairStands limits pair.old J →
        IfOk result (λ outcome. Grows text.old.items (text.new.items ++ last_line outcome)
        (λ written. FromLines limits 2 (lines_of steps.now) J written outcome)) }
    ensures err { (limits : LimitsOf) (J : List PairEntry) → PairStands limits pair.old J →
        OnErr result (Grows text.old.items (text.new.items ++ last_line PairEnding.OutOfMemory)
        (λ written. FromLines limits 2 (lines_of steps.now) J written PairEnding.OutOfMemory)) }
{
    let mut left = steps;
    let mut number: u64 = 2;
    while let Some((line, rest)) = first_line(left) {
        if !play_line(alloc, pair, line, text)? {
            return bad_step(alloc, text, number);
        }
        left = rest;
        number += 1;
    }
    // Every run of a pair has its fronts.
    laws::pair();
    text.extend_from_slice(b"fronts yes\n")?;
    Ok(PairEnding::Fronts)
}

// Makes the step of a line and writes it with its answer: whether the line is a step.
fn play_line(
    alloc: Global,
    pair: &mut Pair,
    line: &[u8],
    text: &mut Vec<u8>,
) -> Result<bool, AllocError>
    ensures made { (limits : LimitsOf) (J : List PairEntry) → PairStands limits pair.old J →
        IfOk result (λ is_step. IsTrue is_step
        → MakesStep limits line.now J pair.new text.old.items text.new.items) }
    ensures none { IfOk result (λ is_step. is_step ≡ false → IsNoStep line.now
        × (text.new.items ≡ text.old.items)) }
    ensures err { OnErr result (text.new.items ≡ text.old.items) }
{
    let Some(step) = step_of(alloc, line)? else {
        return Ok(false);
    };
    make_step(alloc, pair, line, step, text)?;
    Ok(true)
}

// Makes the step that a line spells and writes the line with its answer.
fn make_step(
    alloc: Global,
    pair: &mut Pair,
    line: &[u8],
    step: Step,
    text: &mut Vec<u8>,
) -> Result<(), AllocError>
    requires { IsStepLine line.now step }
    ensures made { (limits : LimitsOf) (J : List PairEntry) → PairStands limits pair.old J →
        OnOk result (MakesStep limits line.now J pair.new text.old.items text.new.items) }
    ensures err { OnErr result (text.new.items ≡ text.old.items) }
{
    match pair.make(step) {
        Ok(answer) => {
            let answer = text_of(alloc, &answer)?;
            push_line(text, line, b" = ", answer.as_bytes())
        }
        Err(AllocError) => push_line(text, line, b" = ", b"memory"),
    }
}

// Writes that a line is no step.
fn bad_step(alloc: Global, text: &mut Vec<u8>, line: u64) -> Result<PairEnding, AllocError>
    ensures ok { IfOk result (λ outcome. (outcome ≡ PairEnding.BadStep)
        × (text.new.items ≡ text.old.items ++ bad_step_text line)) }
    ensures err { OnErr result (text.new.items ≡ text.old.items) }
{
    push_bad_step(alloc, text, line)?;
    Ok(PairEnding::BadStep)
}
