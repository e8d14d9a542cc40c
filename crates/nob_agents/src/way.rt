//! The way to one peer.

ghost use Rattle.std.specs.Prelude.{◌≡◌, ◌<◌, [], ◌∷◌, List, true, false, vec_len, vec_capacity, MatchResult, OnErr};
ghost use Rattle.nob_link.specs.declared.parcel.Parcel.{Parcel as ParcelOf};
ghost use Rattle.nob_fault.specs.Shims.{opening};
ghost use Rattle.nob_agents.specs.Ways.{IsTied, IsSameWay, IsStep};

use crate::parcels::PutParcel;
use nob_fault::Shim;
use nob_ids::SpaceId;
use nob_link::{Parcel, TryPutError};
use std::marker::Model;
use std::sync::Wait;

/// What came of a try to put a parcel.
#[derive(Clone, Copy, Debug, PartialEq, Eq)]
pub enum PutStep {
    /// One was put.
    Put,
    /// There was none to put.
    Nothing,
    /// The link is full.
    Full,
    /// The link's other end is gone.
    Gone,
}

/// The way to one peer: a shim that parcels pass, and the end that puts what comes out. Contracts
/// see the peer, the shim, what was put, what is kept behind the shim, and whether its end was
/// answered that the other end of the link is gone.
#[derive(Drop)]
pub struct Way<P: PutParcel + Drop> {
    peer: SpaceId,
    shim: Shim,
    end: P,
    after: Vec<Parcel>,
}

impl<P: PutParcel + Drop> Model for Way<P> {
    ghost use Rattle.nob_agents.specs.Ways.{Way as WayOf};

    ghost Value = { WayOf };

    ghost view = { λ way. record {
      peer = way.peer;
      shim = way.shim;
      put = P.put way.end;
      after = way.after.items;
      gone = P.is_gone way.end;
    } };
}

impl<P: PutParcel + Drop> Way<P> {
    /// The way to a peer. The caller's condition: the shim and the end are unused.
    pub fn new(peer: SpaceId, shim: Shim, end: P, after: Vec<Parcel>) -> Way<P>
        requires shim { shim ≡ opening shim.words }
        requires end { P.put end ≡ [] }
        requires after { after.items ≡ [] }
        ensures tied { IsTied [] result }
        ensures peer { result.peer ≡ peer }
        ensures made { result ≡ record {
          peer = peer;
          shim = shim;
          put = [];
          after = [];
          gone = P.is_gone end;
        } }
    {
        Way {
            peer,
            shim,
            end,
            after,
        }
    }

    /// Whom it leads to.
    pub fn peer(&self) -> SpaceId
        ensures { result ≡ self.now.peer }
    {
        self.peer
    }

    /// Whether the other end of its link is gone.
    pub fn has_gone(&self) -> bool
        ensures { result ≡ self.now.gone }
    {
        self.end.has_heard_gone()
    }

    /// Whether nothing is kept behind the shim, or the other end of the link is gone.
    pub fn is_clear(&self) -> bool
        ensures { result ≡ true → self.now.gone ≡ false → self.now.after ≡ [] }
    {
        self.has_gone() || self.after.is_empty()
    }

    /// Puts the next parcel behind the shim, if there is one and the link has room; nothing more
    /// where the other end of the link is gone. It takes no memory.
    pub fn put_next<R: Wait>(&mut self, rt: &R) -> PutStep
        ensures tied { (fed : List ParcelOf) → IsTied fed self.old → IsTied fed self.new }
        ensures same { IsSameWay self.old self.new }
        ensures step { IsStep result self.old self.new }
    {
        if self.has_gone() || self.after.is_empty() {
            return PutStep::Nothing;
        }
        let parcel = self.after.remove(0);
        match self.end.try_put(rt, parcel) {
            Ok(()) => PutStep::Put,
            Err(TryPutError::Full { parcel }) => {
                put_back(&mut self.after, parcel);
                PutStep::Full
            }
            Err(TryPutError::Gone(_)) => PutStep::Gone,
        }
    }

    /// Has a parcel pass the shim, behind which nothing is kept; where the other end of the link is
    /// gone, the parcel is too. It comes back for want of memory, and nothing has changed then.
    pub fn pass(&mut self, parcel: Parcel) -> Result<(), Parcel>
        requires { self.old.gone ≡ false → self.old.after ≡ [] }
        ensures tied { (fed : List ParcelOf) → IsTied fed self.old
            → MatchResult result (λ _. IsTied (parcel ∷ fed) self.new) (λ back. back ≡ parcel) }
        ensures same { IsSameWay self.old self.new }
        ensures err { OnErr result (self.new ≡ self.old) }
    {
        if self.has_gone() {
            return Ok(());
        }
        self.after = self.shim.pass(parcel)?;
        Ok(())
    }
}

// Puts a parcel back in front of those behind which it stood.
fn put_back(after: &mut Vec<Parcel>, parcel: Parcel)
    requires room { vec_len after.old < vec_capacity after.old }
    ensures { after.new.items ≡ parcel ∷ after.old.items }
{
    match after.insert(0, parcel) {
        Ok(()) => {}
        Err(_failed) => unreachable!(),
    }
}
