//! How a scene ends.

ghost use Rattle.std.specs.Prelude.{◌≡◌};
ghost use Rattle.nob_demo_spaces.specs.Lines as spec;

/// How a scene ends.
#[derive(Clone, Copy, Debug, PartialEq, Eq)]
pub enum SceneEnding {
    /// The chains are together a run of a world, and their seals are right.
    Accepted,
    /// They aren't, or one that is to be printed has no text.
    Refused,
    /// The chains are printed.
    Printed,
    /// There are no chains, since nothing was kept.
    Unchecked,
    /// A trace was full.
    Full,
    /// Memory ran out, or a thread couldn't be made.
    OutOfMemory,
}

impl SceneEnding {
    /// The last line, behind what was written before.
    pub fn last_line(self) -> &'static [u8]
        ensures { result.now ≡ spec.last_line self }
    {
        match self {
            SceneEnding::Accepted => b"",
            SceneEnding::Refused => b"",
            SceneEnding::Printed => b"",
            SceneEnding::Unchecked => b"",
            SceneEnding::Full => b"full\n",
            SceneEnding::OutOfMemory => b"memory\n",
        }
    }
}

/// Why a scene stops.
#[derive(Clone, Copy, Debug, PartialEq, Eq)]
pub enum Stop {
    /// A trace was full.
    Full,
    /// Memory ran out, or a thread couldn't be made.
    OutOfMemory,
}

impl Stop {
    /// How the scene ends then.
    pub fn ending(self) -> SceneEnding
        ensures { result ≡ spec.stopped self }
    {
        match self {
            Stop::Full => SceneEnding::Full,
            Stop::OutOfMemory => SceneEnding::OutOfMemory,
        }
    }
}

/// Why a scene stops where one space stops for a reason, and one may have stopped before: that a
/// trace was full goes before want of memory.
pub fn graver(reason: Stop, before: Option<Stop>) -> Stop
    ensures { result ≡ spec.graver reason before }
{
    match before {
        Some(Stop::Full) => Stop::Full,
        _ => reason,
    }
}
