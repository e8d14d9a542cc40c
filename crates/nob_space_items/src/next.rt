//! What a space could do next about the items that came. None takes memory.

ghost use Rattle.std.specs.Prelude.{◌≡◌, List};
ghost use Rattle.nob_ids.specs.declared.limits.Limits.{Limits as LimitsOf};
ghost use Rattle.nob_model_types.specs.declared.deed.Deed.{Deed};
ghost use Rattle.nob_model.specs.Next as next;
ghost use Rattle.nob_space_state.specs.Stands.{StandFor, IsState, history_for};

use crate::cleaning::first_spare;
use nob_space_state::Parts;

/// Whether there is a message to settle. A few words of bits and a look for it, however many wait.
pub fn can_settle(parts: &Parts) -> bool
    ensures { (limits : LimitsOf) (D : List Deed)
        → StandFor limits parts.now D
        → result ≡ next.can_settle parts.now.here.space parts.now.here.n
        (history_for parts.now D) }
{
    parts.messages.first_settleable().is_some()
}

/// Whether there is a surrogate to give up. A few look-ups: what is held or in transit isn't passed.
pub fn can_clean(parts: &Parts) -> bool
    requires { IsState parts.now }
    ensures { (limits : LimitsOf) (D : List Deed)
        → StandFor limits parts.now D
        → result ≡ next.can_clean parts.now.here.space parts.now.here.n
        (history_for parts.now D) }
{
    first_spare(parts).is_some()
}
