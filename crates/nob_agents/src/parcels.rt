//! What an agent asks of the ends of a link.

ghost use Rattle.std.specs.Prelude.{◌≡◌, ◌++◌, ◌∷◌, [], Bool, List, MatchOption, MatchResult};
ghost use Rattle.nob_link.specs.declared.parcel.Parcel.{Parcel as ParcelOf};
ghost use Rattle.nob_link.specs.Ends.{parcel_back};
ghost use Rattle.nob_agents.specs.Ways.{gone_by};

use nob_link::{Parcel, PutEnd, TakeEnd, TryPutError, TryTakeError};
use std::sync::Wait;

/// The end of a link that takes, as an agent sees it.
pub trait TakeParcel {
    /// What it has taken, the first first.
    ghost taken: { Self → List ParcelOf };

    /// Takes the next parcel, and waits while there is none. `None` where there is none and the
    /// other end is gone.
    fn take<R: Wait>(&mut self, rt: &R) -> Option<Parcel>
        ensures { MatchOption result (taken self.new ≡ taken self.old)
            (λ parcel. taken self.new ≡ taken self.old ++ parcel ∷ []) };

    /// Takes the next parcel if there is one now.
    fn try_take<R: Wait>(&mut self, rt: &R) -> Result<Parcel, TryTakeError>
        ensures { MatchResult result
            (λ parcel. taken self.new ≡ taken self.old ++ parcel ∷ [])
            (λ _. taken self.new ≡ taken self.old) };
}

impl TakeParcel for TakeEnd {
    ghost taken = { λ end. end.taken };

    fn take<R: Wait>(&mut self, rt: &R) -> Option<Parcel> {
        self.take_as(rt)
    }

    fn try_take<R: Wait>(&mut self, rt: &R) -> Result<Parcel, TryTakeError> {
        self.try_take_as(rt)
    }
}

/// The end of a link that puts, as an agent sees it.
pub trait PutParcel {
    /// What it has put, the first first.
    ghost put: { Self → List ParcelOf };

    /// Whether it was answered that the link's other end is gone.
    ghost is_gone: { Self → Bool };

    /// Whether it was answered that the link's other end is gone.
    fn has_heard_gone(&self) -> bool
        ensures { result ≡ is_gone self.now };

    /// Puts a parcel if the link isn't full and its other end isn't gone; else the parcel comes
    /// back.
    fn try_put<R: Wait>(&mut self, rt: &R, parcel: Parcel) -> Result<(), TryPutError>
        ensures answer { MatchResult result
            (λ _. put self.new ≡ put self.old ++ parcel ∷ [])
            (λ error. (parcel_back error ≡ parcel) × (put self.new ≡ put self.old)) }
        ensures gone { MatchResult result (λ _. is_gone self.new ≡ is_gone self.old)
            (λ error. is_gone self.new ≡ gone_by error (is_gone self.old)) };
}

impl PutParcel for PutEnd {
    ghost put = { λ end. end.put };

    ghost is_gone = { λ end. end.gone };

    fn has_heard_gone(&self) -> bool {
        PutEnd::has_heard_gone(self)
    }

    fn try_put<R: Wait>(&mut self, rt: &R, parcel: Parcel) -> Result<(), TryPutError> {
        self.try_put_as(rt, parcel)
    }
}
