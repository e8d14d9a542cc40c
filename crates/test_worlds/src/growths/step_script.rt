//! Scripts of a world whose lines are steps, all of them.

ghost use Rattle.std.specs.Prelude.{Some, None, IfOk, MatchOption};
ghost use Rattle.nob_model_text.specs.Lines.{lines_of};
ghost use Rattle.test_worlds.specs.Scripts as spec;

use crate::script::{Move, script_of};
use nob_ids::{Limits, SpaceId};
use nob_model::WorldStep;
use std::alloc::{AllocError, Global};

/// A script of steps.
pub struct StepScript {
    /// How many spaces there are, named by the last of them.
    pub n: SpaceId,
    /// The limits of their sessions.
    pub limits: Limits,
    /// Its steps.
    pub steps: Vec<WorldStep>,
}

impl Drop for StepScript {
    fn drop(self) {
        let StepScript {
            n: _,
            limits: _,
            steps: _,
        } = self;
    }
}

/// The script of steps that a text is: none where a line spells no step. Only memory fails it.
pub fn step_script_of(alloc: Global, text: &[u8]) -> Result<Option<StepScript>, AllocError>
    ensures { IfOk result (λ found. MatchOption found (spec.SpellNoSteps (lines_of text.now))
        (λ script. spec.SpellSteps (lines_of text.now) script.n script.limits
        script.steps.items)) }
{
    let Some(script) = script_of(alloc, text)? else {
        return Ok(None);
    };
    let Some(steps) = steps_of(alloc, script.moves.as_slice())? else {
        return Ok(None);
    };
    Ok(Some(StepScript {
        n: script.n,
        limits: script.limits,
        steps,
    }))
}

// The steps that moves are: none where one of them brings.
fn steps_of(alloc: Global, moves: &[Move]) -> Result<Option<Vec<WorldStep>>, AllocError>
    ensures { IfOk result (λ found. MatchOption found (spec.AreSteps moves.now None)
        (λ steps. spec.AreSteps moves.now (Some steps.items))) }
{
    let mut steps = Vec::new(alloc);
    let mut left = moves;
    while let Some((next, rest)) = left.split_first() {
        let Move::Make(step) = next else {
            return Ok(None);
        };
        steps.push(step.copy()?)?;
        left = rest;
    }
    Ok(Some(steps))
}
