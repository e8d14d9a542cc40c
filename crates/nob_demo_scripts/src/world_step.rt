//! A step of a script, made in a world.

ghost use Rattle.std.specs.Prelude.{◌≡◌, length, true, IfOk, OnOk, OnErr};
ghost use Rattle.std.specs.String.{string_bytes};
ghost use Rattle.nob_script_text.specs.Scripts.{Grows, IsStepLine, StepMade};
ghost use Rattle.nob_demo_scripts.specs.WorldScripts.{script_world, step_result_text as text_of_step};

use nob_model::{Answer, WorldStep};
use nob_model_text::push_line;
use nob_script_text::result_text;
use nob_world::{World, WorldError};
use std::alloc::{AllocError, Global};

// Makes the step that a line spells and writes the line with its answer, whole or not at all. Only
// memory fails it; the step may be made then.
pub(crate) fn make_step(
    alloc: Global,
    world: &mut World,
    line: &[u8],
    step: &WorldStep,
    text: &mut Vec<u8>,
) -> Result<(), AllocError>
    requires { IsStepLine line.now step.now }
    ensures made { OnOk result (Grows text.old.items text.new.items
        (StepMade true (script_world world.old) line.now (script_world world.new))) }
    ensures err { OnErr result (text.new.items ≡ text.old.items) }
{
    let before = world.frames().len();
    let outcome = world.step(step);
    // Looks at the frames and the entries show what they are now.
    let _ = world.frames();
    let _ = world.entries();
    let answer = step_result_text(alloc, before, outcome)?;
    push_line(text, line, b" = ", answer.as_bytes())
}

// What is written of what a step gave, where so many frames were transmitted before.
fn step_result_text(
    alloc: Global,
    before: usize,
    outcome: Result<Answer, WorldError>,
) -> Result<String, AllocError>
    ensures { IfOk result (λ text. string_bytes text ≡ text_of_step before outcome) }
{
    match outcome {
        Ok(answer) => result_text(alloc, before, &Ok(answer)),
        Err(WorldError::Refused(refusal)) => result_text(alloc, before, &Err(refusal)),
        Err(WorldError::NoSpace) => String::from_str(alloc, "X1"),
        Err(WorldError::NoFrame) => String::from_str(alloc, "X2"),
        Err(WorldError::OutOfMemory) => String::from_str(alloc, "S14"),
    }
}
