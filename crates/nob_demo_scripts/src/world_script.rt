//! Whole scripts.

ghost use Rattle.std.specs.Prelude.{◌≡◌, ◌++◌, [], true, false, IfOk, OnErr};
ghost use Rattle.nob_model_text.specs.Lines.{lines_of};
ghost use Rattle.nob_ids.specs.declared.limits.Limits.{Limits as LimitsOf};
ghost use Rattle.nob_model_reading.specs.declared.opening.Opening.{Opening as OpeningOf};
ghost use Rattle.nob_script_text.specs.Scripts.{AreLimitsOf, FromLines, FromOpening, Grows, IsNoStep, IsOpeningLine, StepMade, last_line};
ghost use Rattle.nob_script_text.specs.Worlds.{new_world};
ghost use Rattle.nob_demo_scripts.specs.WorldScripts.{EndsBadly, Plays, SaysYes, script_world, IsSafelyYes};

use crate::judging::judge;
use crate::world_step::make_step;
use nob_model_reading::{opening_of, step_of};
use nob_model_text::{first_line, push_bad_step, push_line};
use nob_script_text::{Ending, limits_of};
use nob_world::World;
use std::alloc::{AllocError, Global};

/// Writes what a script of a world gives onto an empty text: its first line, each step with what
/// the world's space answers, and then the verdict on all that was done, or the first line that is
/// no step. A step that memory is wanted for is answered `S14` and changes nothing. The verdict is
/// never no: what it would look at is proved of every world, so nothing is looked at. The ending's
/// last line is still to follow. The steps cost what they cost in the world.
pub fn play(alloc: Global, script: &[u8], text: &mut Vec<u8>) -> Ending
    requires { text.old.items ≡ [] }
    ensures plays { Plays script.now (text.new.items ++ last_line result) result }
    ensures yes { SaysYes result }
{
    let Some((line, steps)) = first_line(script) else {
        return bad_step(alloc, text, 1);
    };
    play_from(alloc, line, steps, text)
}

// Writes what a script gives that has this first line and these further ones.
fn play_from(alloc: Global, line: &[u8], steps: &[u8], text: &mut Vec<u8>) -> Ending
    ensures plays { Grows text.old.items (text.new.items ++ last_line result)
        (λ written. FromOpening true IsSafelyYes line.now (lines_of steps.now) written result) }
    ensures yes { SaysYes result }
{
    let Ok(read) = opening_of(alloc, line) else {
        return Ending::OutOfMemory;
    };
    let Some(opening) = read else {
        return bad_step(alloc, text, 1);
    };
    let limits = limits_of(opening.limits);
    let Ok(world) = World::new(alloc, opening.n.get(), limits) else {
        return Ending::OutOfMemory;
    };
    // A look at the frames shows that there are none yet.
    let _ = world.frames();
    let mut world = world;
    let ending = play_in(alloc, &mut world, line, steps, text);
    world.shut();
    ending
}

// Writes a first line, and what the steps of these lines give in a new world.
fn play_in(
    alloc: Global,
    world: &mut World,
    line: &[u8],
    steps: &[u8],
    text: &mut Vec<u8>,
) -> Ending
    ensures plays { (opening : OpeningOf) (limits : LimitsOf) → IsOpeningLine line.now opening
        → AreLimitsOf opening.limits limits → script_world world.old ≡ new_world opening.n limits
        → Grows text.old.items (text.new.items ++ last_line result)
        (λ written. FromOpening true IsSafelyYes line.now (lines_of steps.now) written result) }
    ensures yes { SaysYes result }
{
    let Ok(()) = push_line(text, line, b"", b"") else {
        return Ending::OutOfMemory;
    };
    play_steps(alloc, world, steps, text)
}

// Makes the steps of these lines, of which the first is line 2, and writes them with their answers,
// and then the verdict.
fn play_steps(alloc: Global, world: &mut World, steps: &[u8], text: &mut Vec<u8>) -> Ending
    ensures plays { Grows text.old.items (text.new.items ++ last_line result)
        (λ written. FromLines true IsSafelyYes 2 (script_world world.old)
        (lines_of steps.now) written result) }
    ensures yes { SaysYes result }
{
    let mut left = steps;
    let mut number: u64 = 2;
    while let Some((line, rest)) = first_line(left) {
        let Ok(is_step) = play_line(alloc, world, line, text) else {
            return Ending::OutOfMemory;
        };
        if !is_step {
            return bad_step(alloc, text, number);
        }
        left = rest;
        number += 1;
    }
    judge(world, text)
}

// Makes the step of a line and writes it with its answer: whether the line is a step.
fn play_line(
    alloc: Global,
    world: &mut World,
    line: &[u8],
    text: &mut Vec<u8>,
) -> Result<bool, AllocError>
    ensures made { IfOk result (λ is_step. is_step ≡ true
        → Grows text.old.items text.new.items
        (StepMade true (script_world world.old) line.now (script_world world.new))) }
    ensures none { IfOk result (λ is_step. is_step ≡ false → IsNoStep line.now) }
    ensures kept { IfOk result (λ is_step. is_step ≡ false → text.new.items ≡ text.old.items) }
    ensures err { OnErr result (text.new.items ≡ text.old.items) }
{
    let Some(step) = step_of(alloc, line)? else {
        return Ok(false);
    };
    make_step(alloc, world, line, &step, text)?;
    Ok(true)
}

// Writes that the line of this number is no step.
fn bad_step(alloc: Global, text: &mut Vec<u8>, number: u64) -> Ending
    ensures bad { Grows text.old.items (text.new.items ++ last_line result)
        (λ written. EndsBadly number written result) }
    ensures yes { SaysYes result }
{
    match push_bad_step(alloc, text, number) {
        Ok(()) => Ending::BadStep,
        Err(_) => Ending::OutOfMemory,
    }
}
