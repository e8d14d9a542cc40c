//! How the run of a script ends.

ghost use Rattle.std.specs.Prelude.{◌≡◌};
ghost use Rattle.nob_script_text.specs.Scripts.{last_line as last_line_of};

use nob_model_journal::Verdict;

/// How the run of a script of a world ended.
#[derive(Clone, Copy, Debug, PartialEq, Eq)]
pub enum Ending {
    /// Every line was a step, and this is the verdict on all that was done.
    Judged(Verdict),
    /// A line was none, and the run ended there.
    BadStep,
    /// Memory ran out beside the steps, and the run ended there.
    OutOfMemory,
}

impl Ending {
    /// What is still to be written after a script's text: the line `memory` where memory ran out.
    pub fn last_line(self) -> &'static [u8]
        ensures { result.now ≡ last_line_of self }
    {
        match self {
            Ending::Judged(_) => b"",
            Ending::BadStep => b"",
            Ending::OutOfMemory => b"memory\n",
        }
    }
}
