//! The opening of a session anew. It takes no memory.

ghost use Rattle.std.specs.Prelude.{◌≡◌, ◌<◌, ◌≤◌, List, OnErr, IfOk, MatchOption};
ghost use Rattle.nob_ids.specs.declared.limits.Limits.{Limits as LimitsOf};
ghost use Rattle.nob_model_session.specs.End.{last_session};
ghost use Rattle.nob_model_types.specs.declared.answer.Answer.TheVariants as answers;
ghost use Rattle.nob_model_types.specs.declared.deed.Deed.{Deed};
ghost use Rattle.nob_model_types.specs.declared.deed.Deed.TheVariants as did;
ghost use Rattle.nob_model.specs.Opening as opening;
ghost use Rattle.nob_space_state.specs.Opening.{next_of};
ghost use Rattle.nob_space_state.specs.Stands.{StandFor, IsState, Keeps, Did, Answers, history_for};

use crate::parts::Parts;
use nob_ids::SpaceId;
use nob_model::Refusal;
use nob_session::Session;

impl Parts {
    /// Open: the session with a peer, which has closed here, opens anew: the number that it has
    /// now, above the one before and none below what the peer's frames had. Refused by NoPeer,
    /// StillOpen, StillHeld where a counted reference of the peer's is held, pinned or stands in a
    /// message that waits, and Limit where no number is left. It takes no memory. A few look-ups.
    pub fn open(&mut self, peer: SpaceId) -> Result<u32, Refusal>
        requires { IsState self.old }
        ensures answer { (limits : LimitsOf) (D : List Deed)
            → StandFor limits self.old D
            → Answers (λ number. answers.Opened number) result
            (opening.right_open self.old.here.space self.old.here.n peer
            (history_for self.old D)) }
        ensures stands { IfOk result (λ number.
            Did self.old self.new (did.Open peer number)) }
        ensures err { OnErr result (Keeps self.old self.new) }
        ensures here { self.new.here ≡ self.old.here }
    {
        if !self.here.is_peer(peer) {
            return Err(Refusal::NoPeer);
        }
        if !self.has_closed(peer) {
            return Err(Refusal::StillOpen);
        }
        if self.table.has_of(peer) {
            return Err(Refusal::StillHeld);
        }
        if self.pins.has_of(peer) {
            return Err(Refusal::StillHeld);
        }
        if self.messages.carries_any_of(peer) {
            return Err(Refusal::StillHeld);
        }
        let place = peer.place();
        let Some(number) = next_number(&self.sessions[place]) else {
            return Err(Refusal::Limit);
        };
        match self.sessions[place].reopen(number) {
            Ok(()) => Ok(number),
            Err(_) => unreachable!(),
        }
    }
}

// The number of the next session of an end, if one is left.
fn next_number(session: &Session) -> Option<u32>
    ensures { MatchOption result (last_session < next_of session.now.end)
        (λ number. (number ≡ next_of session.now.end) × (number ≤ last_session)) }
{
    let above = session.number().checked_add(1)?;
    Some(above.max(session.seen()))
}
