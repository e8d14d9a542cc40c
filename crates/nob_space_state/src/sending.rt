//! What may be sent to a peer.

ghost use Rattle.std.specs.Prelude.{◌≡◌, ◌+◌, ◌<◌, Some, None, Ok, Err, MatchResult};
ghost use Rattle.nob_model_acting.specs.Sending as words;
ghost use Rattle.nob_space_state.specs.Parts.{state_of};
ghost use Rattle.nob_space_state.specs.Sending.{ref_refusal, value_refusal, send_refusal};

use crate::parts::Parts;
use nob_ids::{SpaceId, WireRep};
use nob_model::{EndRefusal, Kind, Refusal};
use nob_pickle::Value;

impl Parts {
    // Why a counted reference may not be sent.
    #[tactic(auto, unfolding(crate::specs::Sending::ref_refusal))]
    fn refuse_ref(&self, rep: &WireRep) -> Result<(), Refusal>
        ensures { MatchResult result (λ _. ref_refusal self.now.here.space (state_of self.now) rep.now ≡ None)
            (λ refusal. ref_refusal self.now.here.space (state_of self.now) rep.now ≡ Some refusal) }
    {
        if self.is_gone(rep) {
            return Err(Refusal::NoObject);
        }
        if !self.is_held(rep) {
            return Err(Refusal::NotHeld);
        }
        if self.is_cut(rep) {
            return Err(Refusal::Closed);
        }
        Ok(())
    }

    /// Why a value may not be sent. It takes no memory. Linear in the value.
    #[tactic(auto, unfolding(crate::specs::Sending::value_refusal))]
    pub fn refuse_value(&self, value: &Value) -> Result<(), Refusal>
        ensures { MatchResult result (λ _. value_refusal self.now.here.space (state_of self.now) value.now ≡ None)
            (λ refusal. value_refusal self.now.here.space (state_of self.now) value.now ≡ Some refusal) }
    {
        let Ok(()) = nob_pickle::fits(value) else {
            return Err(Refusal::TooBig);
        };
        let mut number = 0;
        while let Some(rep) = nob_pickle::counted_ref(value, number) {
            self.refuse_ref(&rep)?;
            number += 1;
        }
        Ok(())
    }

    /// Why an item of a kind can't be sent to a peer. Constant time.
    pub fn refuse_send(&self, peer: SpaceId, kind: Kind) -> Result<(), Refusal>
        ensures { MatchResult result (λ _. send_refusal peer kind (state_of self.now) ≡ None)
            (λ refusal. send_refusal peer kind (state_of self.now) ≡ Some refusal) }
    {
        match self.sessions.get(peer.place()) {
            Some(session) => match session.next(kind) {
                Ok(_) => Ok(()),
                Err(refusal) => Err(of_end(refusal)),
            },
            None => Ok(()),
        }
    }
}

// A refusal of the session with a peer as one of the space.
fn of_end(refusal: EndRefusal) -> Refusal
    ensures { result ≡ words.of_end refusal }
{
    match refusal {
        EndRefusal::Closed => Refusal::Closed,
        EndRefusal::QueueFull => Refusal::QueueFull,
        EndRefusal::SeqEnd => Refusal::SeqEnd,
        EndRefusal::Strange => Refusal::NoPeer,
        EndRefusal::StillOpen => Refusal::StillOpen,
        EndRefusal::Number => Refusal::Limit,
    }
}
