//! Frames that wait.

ghost use Rattle.std.specs.Prelude.{◌≡◌, ◌≢◌, List, [], ◌∷◌, ◌==◌, IfSome, length};
ghost use Rattle.std.specs.List.{AllByRecursion};
ghost use Rattle.std.specs.Option.{MatchOption};
ghost use Rattle.nob_frame.specs.declared.frame.Frame.{Frame as FrameOf};
ghost use Rattle.nob_frame.specs.declared.version.Version.TheVariants.{Two};
ghost use Rattle.nob_frame.specs.Spelling.{Fits};

use nob_frame::Frame;
use std::marker::Model;

/// Frames that came on a stream and wait, the first first; each has a spelling. Contracts see the
/// list.
#[derive(Drop)]
pub struct Waiting {
    frames: Vec<Frame>,
}

impl Model for Waiting {
    ghost use Rattle.std.specs.Prelude.{List};
    ghost use Rattle.std.specs.List.{AllByRecursion};
    ghost use Rattle.nob_frame.specs.declared.frame.Frame.{Frame};
    ghost use Rattle.nob_frame.specs.declared.version.Version.TheVariants.{Two};
    ghost use Rattle.nob_frame.specs.Spelling.{Fits};

    ghost Value = { List Frame };

    ghost view = { λ waiting. waiting.frames.items };

    ghost invariant = { λ waiting. AllByRecursion (Fits Two) waiting.frames.items };
}

impl Waiting {
    /// These frames wait. The caller's condition: each has a spelling.
    pub fn of(frames: Vec<Frame>) -> Waiting
        requires { AllByRecursion (Fits Two) frames.items }
        ensures { result ≡ frames.items }
    {
        Waiting { frames }
    }

    /// Whether none waits.
    pub fn is_empty(&self) -> bool
        ensures { result ≡ (length self.now == 0) }
    {
        self.frames.len() == 0
    }

    /// The first that waits.
    pub fn first(&self) -> Option<&Frame>
        ensures fits { IfSome result (λ frame. Fits Two frame.now) }
        ensures first { MatchOption result (self.now ≡ []) (λ frame.
            (rest : List FrameOf) × (self.now ≡ frame.now ∷ rest)) }
    {
        self.frames.as_slice().first()
    }

    /// The first waits no more.
    pub fn drop_first(&mut self)
        requires { self.old ≢ [] }
        ensures { (first : FrameOf) (rest : List FrameOf) → self.old ≡ first ∷ rest
            → self.new ≡ rest }
    {
        let _first = self.frames.remove(0);
    }
}
