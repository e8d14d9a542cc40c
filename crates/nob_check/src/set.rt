//! The set.

ghost use Rattle.std.specs.Prelude.{◌≡◌, ◌↔◌, ◌∷◌, ◌++◌, [], List, true, IfOk};
ghost use Rattle.std.specs.List.{Contains};
ghost use Rattle.nob_frame.specs.declared.frame.Frame.{Frame as FrameOf};
ghost use Rattle.nob_check.specs.Marks as words;

use crate::mark::Mark;
use indexmap::IndexSet;
use nob_frame::Frame;
use std::alloc::{AllocError, Global};
use std::marker::Model;

/// Frames, each once. Contracts see the list of what stands in them, in the order in which they were put
/// in.
pub struct FrameSet {
    marks: IndexSet<Mark>,
}

// By hand, so that the table is taken apart here alone and not at each end of each caller.
impl Drop for FrameSet {
    fn drop(self) {
        let FrameSet { marks: _ } = self;
    }
}

impl Model for FrameSet {
    ghost use Rattle.std.specs.Prelude.{List, map};
    ghost use Rattle.nob_check.specs.Marks.{Sign, sign_in};

    ghost Value = { List Sign };

    ghost view = { λ set. map sign_in set.marks.keys };
}

impl FrameSet {
    /// No frames.
    pub fn new(alloc: Global) -> FrameSet
        ensures { words.AreOf [] result }
    {
        FrameSet {
            marks: IndexSet::new(alloc),
        }
    }

    /// Whether a frame is among them. Only memory fails it. Constant time on average, and a copy of
    /// what it carries.
    pub fn has(&self, alloc: Global, frame: &Frame) -> Result<bool, AllocError>
        ensures { (frames : List FrameOf) → words.AreOf frames self.now
            → IfOk result (λ has. (has ≡ true) ↔ Contains frames frame.now) }
    {
        let mark = Mark::of(alloc, frame)?;
        Ok(self.marks.contains(&mark))
    }

    /// These with a frame more. Only memory fails it. Constant time on average, and a copy of what
    /// it carries.
    pub fn with(self, alloc: Global, frame: &Frame) -> Result<FrameSet, AllocError>
        ensures { (frames : List FrameOf) → words.AreOf frames self
            → IfOk result (λ more. words.AreOf (frames ++ frame.now ∷ []) more) }
    {
        let FrameSet { mut marks } = self;
        let mark = Mark::of(alloc, frame)?;
        match marks.insert(mark) {
            Ok(_) => Ok(FrameSet { marks }),
            Err(_) => Err(AllocError),
        }
    }
}
