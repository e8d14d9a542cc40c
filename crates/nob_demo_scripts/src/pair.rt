//! The two ends of the sessions between two spaces, and the frames between them.

ghost use Rattle.std.specs.Prelude.{◌≡◌, ◌++◌, ◌∷◌, [], List, ℕ, None, length, IfOk, IsSome, IsTrue, OnOk, OnErr, MatchOption};
ghost use Rattle.std.specs.List.{AllByRecursion};
ghost use Rattle.nob_ids.specs.declared.limits.Limits.{Limits as LimitsOf};
ghost use Rattle.nob_frame.specs.declared.version.Version.TheVariants.{Two};
ghost use Rattle.nob_frame.specs.Spelling.{Fits};
ghost use Rattle.nob_model_session.specs.declared.entry.EndEntry.{EndEntry};
ghost use Rattle.nob_model_session.specs.declared.entry.PairEntry.{PairEntry};
ghost use Rattle.nob_session.specs.Items.{IsPair};
ghost use Rattle.nob_session.specs.Stands.{Stands};
ghost use Rattle.nob_demo_scripts.specs.Grammar.{IsStep, IsCall};
ghost use Rattle.nob_demo_scripts.specs.Run.{all_given, answer_text, arrival_of, call_answer, call_takes_memory, calls_of, delivery_answer, entries_of, frame_numbered, step_answer, takes_memory};
ghost use Rattle.nob_demo_scripts.specs.Pairs.{PairStands, IsEndOf, IsPairOfEnds, ends_of, frames_after};

use crate::answer::Answer;
use crate::ends;
use crate::log::FrameLog;
use crate::step::{Call, Side, Step};
use nob_ids::{Limits, SpaceId};
use nob_session::{Session, wire};
use std::alloc::{AllocError, Global};
use std::marker::Model;

/// The two ends between the spaces 1 and 2, and all frames that they ever transmitted.
#[derive(Debug, Drop)]
pub struct Pair {
    alloc: Global,
    first: Session,
    second: Session,
    frames: FrameLog,
}

impl Model for Pair {
    ghost use Rattle.nob_demo_scripts.specs.Pairs.{Ends, IsPairOfEnds, ends_of};

    ghost Value = { Ends };

    ghost view = { λ pair. ends_of pair.first.end pair.second.end pair.frames.frames };

    ghost invariant = { λ pair. IsPairOfEnds
        (ends_of pair.first.end pair.second.end pair.frames.frames) };
}

impl Pair {
    /// Opens both ends. Only memory fails it.
    pub fn open(alloc: Global, limits: Limits) -> Result<Pair, AllocError>
        ensures stands { IfOk result (λ pair. PairStands limits pair []) }
    {
        let (Some(one), Some(two)) = (SpaceId::new(1), SpaceId::new(2)) else {
            unreachable!();
        };
        Ok(Pair {
            alloc,
            first: Session::open(alloc, one, two, limits)?,
            second: Session::open(alloc, two, one, limits)?,
            frames: FrameLog::new(alloc),
        })
    }

    /// Makes a step. Only memory fails it, where the step takes some, and then nothing has changed.
    pub fn make(&mut self, step: Step) -> Result<Answer, AllocError>
        requires { IsStep step }
        ensures answer { (limits : LimitsOf) (J : List PairEntry) → PairStands limits self.old J →
            IfOk result (λ a. (answer_text a ≡ step_answer limits step J)
            × PairStands limits self.new (entries_of limits step J ++ J)) }
        ensures err { OnErr result (self.new ≡ self.old) }
        ensures memory { (limits : LimitsOf) (J : List PairEntry) → PairStands limits self.old J
            → OnErr result (IsTrue (takes_memory step J)) }
    {
        match step {
            Step::At(side, call) => call_on(
                self.alloc,
                &mut self.first,
                &mut self.second,
                &mut self.frames,
                side,
                call,
            ),
            Step::Deliver(number) => deliver(
                self.alloc,
                &mut self.first,
                &mut self.second,
                &self.frames,
                number,
            ),
        }
    }
}

// Makes a call at one of two ends.
fn call_on(
    alloc: Global,
    first: &mut Session,
    second: &mut Session,
    frames: &mut FrameLog,
    side: Side,
    call: Call,
) -> Result<Answer, AllocError>
    requires call { IsCall call }
    requires ends { IsPairOfEnds (ends_of first.old.end second.old.end frames.old.frames) }
    ensures answer { (limits : LimitsOf) (J : List PairEntry)
        → PairStands limits (ends_of first.old.end second.old.end frames.old.frames) J →
        IfOk result (λ a. (answer_text a ≡ step_answer limits (Step.At side call) J)
        × PairStands limits (ends_of first.new.end second.new.end frames.new.frames)
        (entries_of limits (Step.At side call) J ++ J)) }
    ensures err { OnErr result (ends_of first.new.end second.new.end frames.new.frames
        ≡ ends_of first.old.end second.old.end frames.old.frames) }
    ensures memory { (limits : LimitsOf) (J : List PairEntry)
        → PairStands limits (ends_of first.old.end second.old.end frames.old.frames) J →
        OnErr result (IsTrue (takes_memory (Step.At side call) J)) }
    ensures ends { IsPairOfEnds (ends_of first.new.end second.new.end frames.new.frames) }
{
    match side {
        Side::First => call_at(alloc, first, frames, side, call),
        Side::Second => call_at(alloc, second, frames, side, call),
    }
}

// The frame of this number, counted from 1, arrives as bytes at its `to`.
fn deliver(
    alloc: Global,
    first: &mut Session,
    second: &mut Session,
    frames: &FrameLog,
    number: u64,
) -> Result<Answer, AllocError>
    requires frames { AllByRecursion (Fits Two) frames.now.frames }
    ensures answer { (limits : LimitsOf) (J : List PairEntry)
        → PairStands limits (ends_of first.old.end second.old.end frames.now.frames) J →
        IfOk result (λ a. (answer_text a ≡ delivery_answer (frame_numbered number (all_given J)) J)
        × PairStands limits (ends_of first.new.end second.new.end frames.now.frames)
        (arrival_of (frame_numbered number (all_given J)) J ++ J)) }
    ensures memory { OnErr result (IsSome (frame_numbered number frames.now.frames)) }
    ensures first { OnErr result (first.new.end ≡ first.old.end) }
    ensures second { OnErr result (second.new.end ≡ second.old.end) }
    ensures first_end { (me peer : ℕ) → IsEndOf me peer first.old.end
        → IsEndOf me peer first.new.end }
    ensures second_end { (me peer : ℕ) → IsEndOf me peer second.old.end
        → IsEndOf me peer second.new.end }
{
    let Some(frame) = frames.frame(number)? else {
        return Ok(Answer::NoFrame);
    };
    let bytes = wire::to_bytes(alloc, &frame)?;
    if frame.to.get() == 1 {
        return ends::arrive(alloc, first, &bytes);
    }
    ends::arrive(alloc, second, &bytes)
}

// Makes a call at an end.
fn call_at(
    alloc: Global,
    session: &mut Session,
    frames: &mut FrameLog,
    side: Side,
    call: Call,
) -> Result<Answer, AllocError>
    requires { IsCall call }
    ensures answer { (me peer : ℕ) (limits : LimitsOf) (L : List EndEntry)
        → Stands me peer limits session.old.end L →
        IfOk result (λ a. (answer_text a
        ≡ call_answer limits me peer call (length frames.old.frames) L)
        × Stands me peer limits session.new.end (calls_of limits me peer call L ++ L)) }
    ensures given { (me peer : ℕ) (limits : LimitsOf) (L : List EndEntry)
        → Stands me peer limits session.old.end L →
        OnOk result (frames.new.frames ≡ frames_after limits me peer call L frames.old.frames) }
    ensures session { OnErr result (session.new.end ≡ session.old.end) }
    ensures frames { OnErr result (frames.new.frames ≡ frames.old.frames) }
    ensures memory { (me peer : ℕ) (limits : LimitsOf) (L : List EndEntry)
        → Stands me peer limits session.old.end L →
        OnErr result (IsTrue (call_takes_memory call L)) }
    ensures end { (me peer : ℕ) → IsEndOf me peer session.old.end
        → IsEndOf me peer session.new.end }
    ensures spelt { IsPair session.old.end.me session.old.end.peer
        → AllByRecursion (Fits Two) frames.old.frames → AllByRecursion (Fits Two) frames.new.frames }
{
    match call {
        Call::Put(item) => ends::put(alloc, session, frames, side, item),
        Call::Send => ends::send(session, frames),
        Call::Get => ends::get(alloc, session),
        Call::Tick => Ok(ends::tick(session)),
        Call::Close => Ok(ends::close(session)),
        Call::Open => Ok(ends::open(session)),
    }
}
