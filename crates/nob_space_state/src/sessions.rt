//! The events that are nothing but a call on the end with a peer: Transmit, Tick and Arrive.

ghost use Rattle.std.specs.Prelude.{◌≡◌, ◌≢◌, List, ◌∷◌, false, Err, OnErr, IfOk};
ghost use Rattle.nob_ids.specs.Names.{IsSpace};
ghost use Rattle.nob_ids.specs.declared.limits.Limits.{Limits as LimitsOf};
ghost use Rattle.nob_model_types.specs.declared.answer.Answer.TheVariants as answers;
ghost use Rattle.nob_model_types.specs.declared.deed.Deed.{Deed};
ghost use Rattle.nob_model_types.specs.declared.deed.Deed.TheVariants as did;
ghost use Rattle.nob_model.specs.Right as right;
ghost use Rattle.nob_space_state.specs.Stands.{StandFor, IsState, Keeps, Did, Answers, AnswersOrWants, history_for};
ghost use Rattle.std.specs.List.{AllByRecursion};
ghost use Rattle.nob_frame.specs.Kinds.{is_data};
ghost use Rattle.nob_frame.specs.Spelling.{Fits};
ghost use Rattle.nob_frame.specs.declared.version.Version.TheVariants.{Two};
ghost use Rattle.nob_space_state.specs.Closing.{tick_answer, tick_deed, arrive_answer, arrive_deed};

use crate::error::SpaceError;
use crate::parts::Parts;
use nob_frame::Frame;
use nob_ids::{Reason, SpaceId};
use nob_model::{Arrived, Ending, Frames, Refusal};
use nob_session::{Arrival, SessionError};

impl Parts {
    /// Transmit: the frames that are to be sent to a peer now. Linear in them.
    pub fn transmit(&mut self, peer: SpaceId) -> Result<Frames, SpaceError>
        requires { IsState self.old }
        ensures answer { (limits : LimitsOf) (D : List Deed)
            → StandFor limits self.old D
            → AnswersOrWants (λ frames. answers.Frames frames) result
            (right.right_frames self.old.here.space self.old.here.n peer limits.window
            (history_for self.old D)) }
        ensures stands { IfOk result (λ frames.
            Did self.old self.new
            (did.Transmit peer frames)) }
        ensures err { OnErr result (Keeps self.old self.new) }
        ensures here { self.new.here ≡ self.old.here }
    {
        if !self.here.is_peer(peer) {
            return Err(SpaceError::Refused(Refusal::NoPeer));
        }
        match self.sessions[peer.place()].transmit() {
            Ok(frames) => Ok(Frames::from_vec(frames)),
            Err(_) => Err(SpaceError::OutOfMemory),
        }
    }

    /// The frames that Transmit would give now: each has a spelling. It is refused, or wants
    /// memory, as Transmit. Linear in them.
    pub fn frames(&self, peer: SpaceId) -> Result<Vec<Frame>, SpaceError>
        ensures spelt { IsState self.now
            → IsSpace self.now.here.space → IfOk result (λ frames. AllByRecursion (Fits Two) frames.items) }
        ensures answer { (limits : LimitsOf) (D : List Deed)
            → StandFor limits self.now D
            → AnswersOrWants (λ frames. answers.Frames frames.items) result
            (right.right_frames self.now.here.space self.now.here.n peer limits.window
            (history_for self.now D)) }
    {
        if !self.here.is_peer(peer) {
            return Err(SpaceError::Refused(Refusal::NoPeer));
        }
        let Some(session) = self.sessions.get(peer.place()) else {
            return Err(SpaceError::Refused(Refusal::NoPeer));
        };
        Ok(session.frames()?)
    }

    /// Tick: the session with a peer counts one tick more. Where its retries are used up it closes:
    /// for which reason. It takes no memory. Constant time, save where it closes (`close_for`).
    pub fn tick(&mut self, peer: SpaceId) -> Result<Option<Reason>, Refusal>
        requires { IsState self.old }
        ensures answer { (limits : LimitsOf) (D : List Deed)
            → StandFor limits self.old D
            → Answers tick_answer result
            (right.right_ticks self.old.here.space self.old.here.n peer limits.retry
            (history_for self.old D)) }
        ensures stands { IfOk result (λ reason.
            Did self.old self.new
            (tick_deed peer reason)) }
        ensures err { OnErr result (Keeps self.old self.new) }
        ensures here { self.new.here ≡ self.old.here }
    {
        if !self.here.is_peer(peer) {
            return Err(Refusal::NoPeer);
        }
        match self.sessions[peer.place()].tick() {
            Ok(None) => Ok(None),
            Ok(Some(closed)) => {
                self.close_down(&closed);
                Ok(Some(closed.reason()))
            }
            Err(_) => Err(Refusal::Closed),
        }
    }

    /// Arrive: a frame came for this space: how many items are accepted now, or that it closed the
    /// session with its sender. Only a Data frame whose payload is kept takes memory. Linear in the
    /// payload, in what the frame acknowledges and in what is accepted, save where it closes
    /// (`close_for`).
    pub fn arrive(&mut self, frame: &Frame) -> Result<Arrived, SpaceError>
        requires { IsState self.old }
        ensures answer { (limits : LimitsOf) (D : List Deed)
            → StandFor limits self.old D
            → AnswersOrWants arrive_answer result
            (right.right_arrival self.old.here.space self.old.here.n frame.now
            (history_for self.old D)) }
        ensures stands { IfOk result (λ arrived.
            Did self.old self.new
            (arrive_deed frame.now arrived)) }
        ensures memory { is_data frame.now.kind ≡ false → result ≢ Err SpaceError.OutOfMemory }
        ensures err { OnErr result (Keeps self.old self.new) }
        ensures here { self.new.here ≡ self.old.here }
    {
        if frame.to != self.here.space {
            return Err(SpaceError::Refused(Refusal::NoPeer));
        }
        if !self.here.is_peer(frame.from) {
            return Err(SpaceError::Refused(Refusal::NoPeer));
        }
        match self.sessions[frame.from.place()].arrive(frame) {
            Ok(Arrival::Took(count)) => Ok(Arrived::Took(count)),
            Ok(Arrival::Closed(closed)) => {
                self.close_down(&closed);
                Ok(Arrived::Closed(Ending {
                    peer: frame.from,
                    reason: closed.reason(),
                }))
            }
            Err(SessionError::Refused(_)) => unreachable!(),
            Err(SessionError::OutOfMemory) => Err(SpaceError::OutOfMemory),
        }
    }
}
