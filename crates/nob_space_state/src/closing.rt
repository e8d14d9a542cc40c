//! The closing of a session, by whichever event. It takes no memory.

ghost use Rattle.std.specs.Prelude.{◌≡◌, List, true, false, OnErr, IfOk};
ghost use Rattle.nob_ids.specs.declared.limits.Limits.{Limits as LimitsOf};
ghost use Rattle.nob_model_types.specs.declared.answer.Answer.TheVariants as answers;
ghost use Rattle.nob_model_types.specs.declared.deed.Deed.{Deed};
ghost use Rattle.nob_model_types.specs.declared.deed.Deed.TheVariants as did;
ghost use Rattle.nob_model_types.specs.declared.deed.Cause.TheVariants as causes;
ghost use Rattle.nob_model_types.specs.Sessions.{is_peer};
ghost use Rattle.nob_model.specs.Right as right;
ghost use Rattle.nob_space_state.specs.Closing.{lent_in_vain, ClosesDown, Closes};
ghost use Rattle.nob_space_state.specs.Looks.{has_closed};
ghost use Rattle.nob_space_state.specs.Parts.{state_of};
ghost use Rattle.nob_space_state.specs.Returns.{HasLent};
ghost use Rattle.nob_space_state.specs.Stands.{StandFor, IsState, Keeps, Did, Answers, history_for};

use crate::listings::{close_pins, unlist_all};
use crate::parts::Parts;
use crate::{throw_ready_away, throw_waiting_away};
use nob_ids::{Reason, SpaceId};
use nob_model::Refusal;
use nob_session::Closed;

impl Parts {
    // What the closing of a session leaves of the parts: messages that wait and ready jobs from the
    // peer are thrown away and what they have lent is given back, its references are lost, it is
    // listed nowhere, what was sent to it has no pins any more, and the calls to it that have no
    // ready reply end.
    pub(crate) fn close_down(&mut self, closed: &Closed)
        requires { HasLent self.old.table
            (lent_in_vain self.old.here.space closed.now.peer (state_of self.old).work) }
        ensures closes { ClosesDown self.old.here.space closed.now.peer (state_of self.old)
            (state_of self.new) }
        ensures here { self.new.here ≡ self.old.here }
    {
        let peer = closed.peer();
        throw_waiting_away(&mut self.table, &mut self.messages, self.here.space, peer);
        self.messages.lose_of(peer);
        throw_ready_away(&mut self.table, &mut self.messages, self.here.space, peer);
        self.table.close(peer);
        unlist_all(
            &mut self.table,
            &self.pins,
            &mut self.dirty,
            self.here.space,
            peer,
        );
        close_pins(
            &mut self.table,
            &mut self.pins,
            &self.dirty,
            self.here.space,
            closed,
        );
        self.calls.close(peer);
    }

    /// The session with a peer closes here for a reason: an item from it has a fault, or it was
    /// asked to close. It takes no memory. Linear in what it throws away, with a few look-ups for each: the
    /// messages that wait from the peer and its ready jobs, what waits for its references, and its
    /// references, listings, pins and calls. The caller's condition: it is a peer, and its session is
    /// open here.
    pub fn close_for(&mut self, peer: SpaceId, reason: Reason)
        requires state { IsState self.old }
        requires peer { is_peer self.old.here.space self.old.here.n peer ≡ true }
        requires open { has_closed self.old.sessions.items peer ≡ false }
        ensures item { Closes peer reason causes.Item self.old self.new }
        ensures asked { Closes peer reason causes.Asked self.old self.new }
        ensures here { self.new.here ≡ self.old.here }
    {
        match self.sessions[peer.place()].close(reason) {
            Ok(closed) => self.close_down(&closed),
            Err(_) => unreachable!(),
        }
    }

    /// Close: the session with a peer closes here, because it was asked to: the reason that the
    /// peer is told. It takes no memory. It costs what `close_for` does.
    pub fn close(&mut self, peer: SpaceId) -> Result<Reason, Refusal>
        requires { IsState self.old }
        ensures answer { (limits : LimitsOf) (D : List Deed)
            → StandFor limits self.old D
            → Answers (λ reason. answers.Closed reason) result
            (right.right_closing self.old.here.space self.old.here.n peer
            (history_for self.old D)) }
        ensures stands { IfOk result (λ reason.
            Did self.old self.new
            (did.Closing peer reason causes.Asked)) }
        ensures err { OnErr result (Keeps self.old self.new) }
        ensures here { self.new.here ≡ self.old.here }
    {
        if !self.here.is_peer(peer) {
            return Err(Refusal::NoPeer);
        }
        if self.has_closed(peer) {
            return Err(Refusal::Closed);
        }
        self.close_for(peer, Reason::Asked);
        Ok(Reason::Asked)
    }
}
