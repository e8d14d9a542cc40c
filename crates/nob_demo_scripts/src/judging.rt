//! The verdict on a world.

ghost use Rattle.std.specs.Prelude.{◌≡◌, ◌++◌, true};
ghost use Rattle.nob_script_text.specs.Scripts.{AtEnd, Grows, last_line};
ghost use Rattle.nob_demo_scripts.specs.WorldScripts.{SaysYes, script_world, IsSafelyYes};

use nob_model_journal::Verdict;
use nob_script_text::{Ending, verdict_line};
use nob_world::World;

// Writes the verdict on all that was done in a world: all that was promised holds, as it does of
// every world.
pub(crate) fn judge(world: &World, text: &mut Vec<u8>) -> Ending
    ensures judged { Grows text.old.items (text.new.items ++ last_line result)
        (λ written. AtEnd true IsSafelyYes (script_world world.now) written result) }
    ensures yes { SaysYes result }
{
    // A look at the entries shows what is proved of them.
    let _ = world.entries();
    let Ok(()) = text.extend_from_slice(verdict_line(Verdict::Yes)) else {
        return Ending::OutOfMemory;
    };
    Ending::Judged(Verdict::Yes)
}
