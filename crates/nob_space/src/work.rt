//! What a space could do next.

ghost use Rattle.std.specs.Prelude.{◌≡◌, ◌≤◌, ◌-◌, ℕ, List, Some, slice_get};
ghost use Rattle.nob_ids.specs.declared.limits.Limits.{Limits as LimitsOf};
ghost use Rattle.nob_model_types.specs.declared.deed.Deed.{Deed};
ghost use Rattle.nob_model.specs.Next as next;
ghost use Rattle.nob_space_state.specs.Stands.{StandFor, history_for};

use nob_ids::SpaceId;
use nob_space_state::Parts;

/// What a space could do next, limits, free numbers and want of memory aside.
#[derive(Clone, Copy, Debug, PartialEq, Eq)]
pub struct Work {
    /// At place p - 1: whether there is an item from space p to act on, also one whose fault closes
    /// the session.
    pub act: [bool; 32],
    /// At place p - 1: whether a Transmit to space p would give a frame.
    pub send: [bool; 32],
    /// Whether there is a message to settle.
    pub settle: bool,
    /// Whether there is a surrogate to give up.
    pub clean: bool,
    /// Whether there is a job to claim.
    pub claim: bool,
    /// The least index of an object that Withdraw would take.
    pub withdraw: Option<u64>,
}

// Whether there is an item to act on, from each space.
pub(crate) fn acts(parts: &Parts) -> [bool; 32]
    ensures { (limits : LimitsOf) (D : List Deed)
        → StandFor limits parts.now D → (p : ℕ) → 1 ≤ p → p ≤ 32
        → slice_get result (p - 1) ≡ Some
        (next.can_act parts.now.here.space parts.now.here.n p (history_for parts.now D)) }
{
    let mut all = [false; 32];
    for place in 0..32 {
        let Some(peer) = SpaceId::new(place as u16 + 1) else {
            unreachable!();
        };
        all[place] = parts.can_act(peer);
    }
    all
}

// Whether a Transmit would give a frame, to each space.
pub(crate) fn sends(parts: &Parts) -> [bool; 32]
    ensures { (limits : LimitsOf) (D : List Deed)
        → StandFor limits parts.now D → (p : ℕ) → 1 ≤ p → p ≤ 32
        → slice_get result (p - 1) ≡ Some
        (next.can_send parts.now.here.space parts.now.here.n p limits.window
        (history_for parts.now D)) }
{
    let mut all = [false; 32];
    for place in 0..32 {
        let Some(peer) = SpaceId::new(place as u16 + 1) else {
            unreachable!();
        };
        all[place] = parts.can_send(peer);
    }
    all
}
