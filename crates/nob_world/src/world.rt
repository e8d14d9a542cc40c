//! A world.

ghost use Rattle.std.specs.Prelude.{◌≡◌, ◌≢◌, ◌≤◌, ◌<◌, ◌++◌, ◌∷◌, [], ℕ, List, Some, None, Ok, Err, reverse, slice_get, length, IfOk, IfErr, OnErr, OnOk, MatchOption};
ghost use Rattle.nob_model_types.specs.declared.entry.WorldStep.{WorldStep as WorldStepOf};
ghost use Rattle.nob_model_journal.specs.Journals.{transmitted_frames};
ghost use Rattle.nob_model_journal.specs.Runs.{WorldRun, From};
ghost use Rattle.nob_model_invariant.specs.Typed.{AreOfTypes};
ghost use Rattle.nob_world.specs.Worlds as spec;
ghost use Rattle.nob_world.specs.declared.error.WorldError.{WorldError as WorldErrorOf};

use crate::error::WorldError;
use crate::making::take_step;
use nob_frame::Frame;
use nob_ids::{Limits, SpaceId};
use nob_model::{Answer, Entry, Refusal, WorldStep};
use nob_space::Space;
use std::alloc::{AllocError, Global};
use std::marker::Model;

/// Spaces from 1 to `n` and the frames between them. A step is an event at one space, or a frame
/// that was transmitted before arrives: which frames arrive, how often and when is the caller's
/// choice. Contracts see the entries, which are a run of a world, and the frames. It holds spaces,
/// so it can't be let go: `shut` ends it.
pub struct World {
    n: u16,
    limits: Limits,
    alloc: Global,
    // Space p at place p - 1.
    spaces: Vec<Space>,
    // What was asked and answered, the first first.
    entries: Vec<Entry>,
    // The frames that were ever transmitted, the first first.
    frames: Vec<Frame>,
}

impl Model for World {
    ghost use Rattle.nob_world.specs.Worlds.{World as WorldOf, IsWorld};

    ghost Value = { WorldOf };

    ghost use Rattle.std.specs.Coded.{codes};
    ghost use Rattle.nob_pickle.specs.Marks.{trees_code};

    ghost coded = { Prim.hlevel (codes, trees_code) };

    ghost view = { λ world. record {
      n = world.n;
      limits = world.limits;
      spaces = world.spaces.items;
      entries = world.entries.items;
      frames = world.frames.items;
    } };

    ghost invariant = { λ world. IsWorld
        (record {
          n = world.n;
          limits = world.limits;
          spaces = world.spaces.items;
          entries = world.entries.items;
          frames = world.frames.items;
        }) };
}

impl World {
    /// The number of spaces, which is 1 to 32.
    pub fn n(&self) -> u16
        ensures n { result ≡ self.now.n }
        ensures few { result ≤ 32 }
    {
        self.n
    }

    /// The limits of all sessions.
    pub fn limits(&self) -> Limits
        ensures { result ≡ self.now.limits }
    {
        self.limits
    }

    /// What was asked of the spaces and what they answered, the first entry first: a run of a
    /// world.
    pub fn entries(&self) -> &[Entry]
        ensures entries { result.now ≡ self.now.entries }
        ensures run { WorldRun self.now.n (λ _. self.now.limits) (reverse result.now) }
        ensures safe { spec.IsSafe self.now.n (reverse result.now) }
        ensures typed { AreOfTypes (reverse result.now) }
    {
        self.entries.as_slice()
    }

    /// The frames that were ever transmitted, the first first: a frame's number is its place,
    /// counted from 1.
    pub fn frames(&self) -> &[Frame]
        ensures frames { result.now ≡ self.now.frames }
        ensures transmitted_frames { result.now ≡ transmitted_frames (spec.journal self.now) }
    {
        self.frames.as_slice()
    }

    /// A world of `n` spaces that did nothing, with these limits for all sessions. Only memory fails
    /// it. The caller's condition: there are 1 to 32. Their sessions are made at once: it costs the
    /// square of their number.
    pub fn new(alloc: Global, n: u16, limits: Limits) -> Result<World, AllocError>
        requires some { 1 ≤ n }
        requires few { n ≤ 32 }
        ensures n { IfOk result (λ world. world.n ≡ n) }
        ensures limits { IfOk result (λ world. world.limits ≡ limits) }
        ensures entries { IfOk result (λ world. world.entries ≡ []) }
    {
        let spaces = open_all(alloc, n, limits)?;
        Ok(World {
            n,
            limits,
            alloc,
            spaces,
            entries: Vec::new(alloc),
            frames: Vec::new(alloc),
        })
    }

    /// The space of a number, if there is one.
    pub fn space(&self, id: SpaceId) -> Option<&Space>
        ensures { MatchOption result (self.now.n < id)
            (λ space. spec.IsSpaceOf self.now.n self.now.limits
            (spec.journal self.now) id space.now) }
    {
        let Some(space) = self.spaces.get(id.place()) else {
            return None;
        };
        Some(space)
    }

    /// One step: what the space answers, or why it refuses, which makes an entry too. A step that
    /// there is no space or no frame for makes none, nor does one that memory is wanted for: then
    /// the world is as it was. It costs what the event costs at its space, the frame's bytes, and
    /// copies of the event, the answer and the frames.
    pub fn step(&mut self, step: &WorldStep) -> Result<Answer, WorldError>
        ensures adds { IfOk (spec.outcome result) (λ answer.
            spec.AddsTo step.now answer self.old.entries self.new.entries) }
        ensures safe { spec.IsSafe self.new.n (spec.journal self.new) }
        // X1 and X2 come exactly where they are due.
        ensures fault { (fault : WorldErrorOf)
            → spec.step_fault self.old.n self.old.frames step.now ≡ Some fault
            → result ≡ Err fault }
        ensures only { IfErr (spec.outcome result) (λ error. error ≢ WorldError.OutOfMemory
            → spec.step_fault self.old.n self.old.frames step.now ≡ Some error) }
        ensures err { OnErr (spec.outcome result) (self.new.entries ≡ self.old.entries) }
        ensures err_frames { OnErr (spec.outcome result) (self.new.frames ≡ self.old.frames) }
        ensures n { self.new.n ≡ self.old.n }
        ensures limits { self.new.limits ≡ self.old.limits }
    {
        take_step(
            self.alloc,
            self.n,
            &mut self.spaces,
            &mut self.entries,
            &mut self.frames,
            step,
        )
    }

    /// Steps, one after the other, up to the first that makes no entry: how many were made before
    /// it, and why. What they made stands. It costs what they cost.
    pub fn run(&mut self, steps: &[WorldStep]) -> Result<(), (usize, WorldError)>
        ensures from { (before : List WorldStepOf) → From before (spec.journal self.old)
            → From (reverse (spec.steps_made steps.now result) ++ before) (spec.journal self.new) }
        // The headline: after every list of steps.
        ensures safe { spec.IsSafe self.new.n (spec.journal self.new) }
        // It stops at a step that there is no space or no frame for, or that memory is wanted for.
        ensures stopped { IfErr result (λ stop. (step : WorldStepOf)
            × (slice_get steps.now stop.0 ≡ Some step)
            × (stop.1 ≡ spec.why_stopped (spec.step_fault self.new.n self.new.frames step))) }
        ensures n { self.new.n ≡ self.old.n }
        ensures limits { self.new.limits ≡ self.old.limits }
    {
        // A look at a field shows the invariant, so that no step at all is safe too.
        let _ = &self.n;
        for (place, step) in steps.iter().enumerate() {
            match outcome(self.step(step)) {
                Ok(_) => {}
                Err(error) => return Err((place, error)),
            }
        }
        Ok(())
    }

    /// Ends the spaces: it closes all their sessions. It takes no memory, and tells nobody.
    pub fn shut(self) {
        let World {
            n: _,
            limits: _,
            alloc: _,
            spaces,
            entries: _entries,
            frames: _frames,
        } = self;
        shut_all(spaces);
    }
}

// What a step came to: what its space answered or why it refused, or why it made no entry.
fn outcome(told: Result<Answer, WorldError>) -> Result<Result<Answer, Refusal>, WorldError>
    ensures { result ≡ spec.outcome told }
{
    match told {
        Ok(answer) => Ok(Ok(answer)),
        Err(WorldError::Refused(refusal)) => Ok(Err(refusal)),
        Err(WorldError::NoSpace) => Err(WorldError::NoSpace),
        Err(WorldError::NoFrame) => Err(WorldError::NoFrame),
        Err(WorldError::OutOfMemory) => Err(WorldError::OutOfMemory),
    }
}

// The spaces from 1 to n, which did nothing.
fn open_all(alloc: Global, n: u16, limits: Limits) -> Result<Vec<Space>, AllocError>
    requires { n ≤ 32 }
    ensures { IfOk result (λ spaces. spec.SpacesStand n limits spaces.items []) }
{
    let mut spaces: Vec<Space> = Vec::new(alloc);
    let mut p = 1;
    while p <= n {
        let Some(id) = SpaceId::new(p) else {
            unreachable!();
        };
        let space = match Space::new(alloc, id, n, limits) {
            Ok(space) => space,
            Err(error) => {
                shut_all(spaces);
                return Err(error);
            }
        };
        match spaces.push(space) {
            Ok(()) => {}
            Err(failed) => {
                failed.value.shut();
                shut_all(spaces);
                return Err(AllocError);
            }
        }
        p += 1;
    }
    Ok(spaces)
}

// Ends spaces.
fn shut_all(mut spaces: Vec<Space>) {
    while let Some(space) = spaces.pop() {
        space.shut();
    }
    spaces.destroy_empty();
}
