//! What a space could do next. None takes memory.

ghost use Rattle.std.specs.Prelude.{◌≡◌, List};
ghost use Rattle.nob_ids.specs.declared.limits.Limits.{Limits as LimitsOf};
ghost use Rattle.nob_model_types.specs.declared.deed.Deed.{Deed};
ghost use Rattle.nob_model.specs.Next as next;
ghost use Rattle.nob_space_state.specs.Dues as dues;
ghost use Rattle.nob_space_state.specs.Stands.{StandFor, history_for};

use crate::parts::Parts;
use nob_ids::SpaceId;
use nob_session::Due;

impl Parts {
    /// Whether there is an item from a peer to act on, also one whose fault closes the session.
    /// Constant time.
    pub fn can_act(&self, peer: SpaceId) -> bool
        ensures { (limits : LimitsOf) (D : List Deed)
            → StandFor limits self.now D
            → result ≡ next.can_act self.now.here.space self.now.here.n peer
            (history_for self.now D) }
    {
        if !self.here.is_peer(peer) {
            return false;
        }
        if self.has_closed(peer) {
            return false;
        }
        match self.sessions.get(peer.place()) {
            Some(session) => session.front().is_some(),
            None => false,
        }
    }

    /// Whether a Transmit to a peer would give a frame. Constant time.
    pub fn can_send(&self, peer: SpaceId) -> bool
        ensures { (limits : LimitsOf) (D : List Deed)
            → StandFor limits self.now D
            → result ≡ next.can_send self.now.here.space self.now.here.n peer limits.window
            (history_for self.now D) }
    {
        if !self.here.is_peer(peer) {
            return false;
        }
        match self.sessions.get(peer.place()) {
            Some(session) => session.has_frames(),
            None => false,
        }
    }

    /// What a Transmit to a peer would give. Constant time.
    pub fn due(&self, peer: SpaceId) -> Due
        ensures { (limits : LimitsOf) (D : List Deed)
            → StandFor limits self.now D
            → result ≡ dues.due self.now.here.space self.now.here.n peer limits.window
            (history_for self.now D) }
    {
        if !self.here.is_peer(peer) {
            return Due::Nothing;
        }
        match self.sessions.get(peer.place()) {
            Some(session) => session.due(),
            None => Due::Nothing,
        }
    }

    /// Whether there is a job to claim. A few words of bits.
    pub fn can_claim(&self) -> bool
        ensures { (limits : LimitsOf) (D : List Deed)
            → StandFor limits self.now D → result ≡ next.can_claim (history_for self.now D) }
    {
        self.messages.first_free().is_some()
    }

    /// The least index of a live object that Withdraw would take. A few look-ups: what is held, in
    /// transit, or listed isn't passed.
    pub fn to_withdraw(&self) -> Option<u64>
        ensures { (limits : LimitsOf) (D : List Deed)
            → StandFor limits self.now D
            → result ≡ next.to_withdraw self.now.here.space (history_for self.now D) }
    {
        let mut from = 0;
        while let Some(index) = self.table.first_spare(from) {
            match self.refuse_withdraw(index) {
                Ok(()) => return Some(index),
                Err(_) => from = index + 1,
            }
        }
        None
    }
}
