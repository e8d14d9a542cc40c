//! Where a life of a space begins.

ghost use Rattle.std.specs.Prelude.{◌≡◌, ◌≤◌, ◌↔◌, ◌&&◌, ⊤, true, IfErr, MatchOption, OnOk};
ghost use Rattle.nob_ids.specs.Names.{most_spaces};
ghost use Rattle.nob_model_session.specs.End.{last_session};
ghost use Rattle.nob_model_types.specs.Sessions.{is_peer};
ghost use Rattle.nob_model.specs.Right.{last_number};
ghost use Rattle.nob_model_lives.specs.Births.{CanHaveHad, IsInRange, IsNewBirth};
ghost use Rattle.nob_space_state.specs.Births.{AreNumbers, IsFault, IsFirstWithin, NoneWithin, is_within, life_of};
ghost use Rattle.nob_space_state.specs.Stands.{first_session};

use nob_ids::SpaceId;
use nob_model::Here;
use nob_model::right::LAST_NUMBER;
use nob_model_session::end::LAST_ITEM;
use std::alloc::AllocError;
use thiserror::Error;

/// The numbers that a life of a space begins behind. `default()` has those of a new space: nothing
/// was before, and each session has number 1.
#[derive(Clone, Copy, Debug, PartialEq, Eq)]
pub struct Birth {
    /// How many indexes were given before: the first object has the next one.
    pub indexes: u64,
    /// How many calls were made before: the first call has the next number.
    pub calls: u64,
    /// How many jobs were claimed before: the first job has the next number.
    pub jobs: u64,
    /// At place p - 1: the number of the session with space p. The space's own place isn't read,
    /// nor those above n.
    pub sessions: [u32; 32],
}

impl Default for Birth {
    ghost use Rattle.std.specs.Prelude.{replicate};

    ghost is_default = { λ birth. (birth.indexes ≡ 0) × (birth.calls ≡ 0) × (birth.jobs ≡ 0)
        × (birth.sessions ≡ replicate 32 1) };

    /// The birth of a new space.
    fn default() -> Birth {
        Birth {
            indexes: 0,
            calls: 0,
            jobs: 0,
            sessions: [1; 32],
        }
    }
}

/// Why a space can't begin so. Where several hold, the first is answered.
#[derive(Clone, Copy, Debug, PartialEq, Eq, Drop, Error)]
pub enum BirthFault {
    /// More indexes were before than there are: 2^48.
    #[error("more indexes were given than there are")]
    Indexes,
    /// More calls were before than there are numbers: 2^48.
    #[error("more calls were made than there are numbers")]
    Calls,
    /// More jobs were before than there are numbers: 2^48.
    #[error("more jobs were claimed than there are numbers")]
    Jobs,
    /// The session with this peer, the first such, wasn't opened anew: its number is below 2.
    #[error("the session with space {0} wasn't opened anew")]
    Session(SpaceId),
    /// There can't have been that many calls and jobs before: their number isn't 0, and is above 2^40
    /// for each of the earlier sessions, with each peer.
    #[error("so many calls and jobs can't have been in the earlier sessions")]
    Earlier,
}

/// Why a space doesn't begin.
#[derive(Clone, Copy, Debug, PartialEq, Eq, Drop, Error)]
pub enum BirthError {
    /// It can't begin so.
    #[error(transparent)]
    Fault(BirthFault),
    /// There is no memory. It could begin so.
    #[error("out of memory")]
    OutOfMemory,
}

impl From<BirthFault> for BirthError {
    ghost use Rattle.nob_space_state.specs.declared.birth.BirthError.TheVariants.{Fault};

    ghost from_gives = { λ fault error. error ≡ Fault fault };

    fn from(fault: BirthFault) -> BirthError {
        BirthError::Fault(fault)
    }
}

impl From<AllocError> for BirthError {
    ghost use Rattle.nob_space_state.specs.declared.birth.BirthError.TheVariants.{OutOfMemory};

    ghost from_gives = { λ _ error. error ≡ OutOfMemory };

    fn from(_: AllocError) -> BirthError {
        BirthError::OutOfMemory
    }
}

impl Birth {
    /// Whether a space can begin so: it is a new space's birth, or that of a later life, and else
    /// the first fault. The caller's condition: there are 32 spaces at most. Linear in them.
    pub fn check(&self, here: &Here) -> Result<(), BirthFault>
        requires { here.now.n ≤ most_spaces }
        ensures in_range { OnOk result (IsInRange here.now.space here.now.n (life_of self.now)) }
        ensures fault { IfErr result
            (λ fault. IsFault here.now.space here.now.n (life_of self.now) fault) }
    {
        if self.is_new(here) {
            return Ok(());
        }
        if self.indexes > LAST_NUMBER {
            return Err(BirthFault::Indexes);
        }
        if self.calls > LAST_NUMBER {
            return Err(BirthFault::Calls);
        }
        if self.jobs > LAST_NUMBER {
            return Err(BirthFault::Jobs);
        }
        if let Some(peer) = self.first_within(here, 0, 1) {
            return Err(BirthFault::Session(peer));
        }
        if !self.can_have_had(here) {
            return Err(BirthFault::Earlier);
        }
        Ok(())
    }

    /// The number of the session in which the end with a space begins: 1 at the own place.
    pub(crate) fn number(&self, me: SpaceId, peer: SpaceId) -> u32
        ensures { result ≡ first_session me (life_of self.now).session peer }
    {
        if peer == me {
            return 1;
        }
        self.sessions[peer.place()]
    }

    // Whether it is a new space's.
    fn is_new(&self, here: &Here) -> bool
        requires { here.now.n ≤ most_spaces }
        ensures { (result ≡ true) ↔ IsNewBirth here.now.space here.now.n (life_of self.now) }
    {
        if self.indexes != 0 || self.calls != 0 || self.jobs != 0 {
            return false;
        }
        let None = self.first_within(here, 0, 0) else {
            return false;
        };
        let None = self.first_within(here, 2, u32::MAX) else {
            return false;
        };
        true
    }

    // Whether so many calls and jobs can have been before.
    fn can_have_had(&self, here: &Here) -> bool
        requires spaces { here.now.n ≤ most_spaces }
        requires calls { self.now.calls ≤ last_number }
        requires jobs { self.now.jobs ≤ last_number }
        ensures { (result ≡ true) ↔ CanHaveHad here.now.space here.now.n (life_of self.now) }
    {
        let many = self.calls + self.jobs;
        if many == 0 {
            return true;
        }
        let number = (many - 1) / LAST_ITEM + 2;
        match self.first_within(here, number as u32, u32::MAX) {
            Some(_) => true,
            None => false,
        }
    }

    // The first peer of which the session's number is one of these.
    fn first_within(&self, here: &Here, low: u32, high: u32) -> Option<SpaceId>
        requires { here.now.n ≤ most_spaces }
        ensures numbers { MatchOption result
            (AreNumbers here.now.space here.now.n (life_of self.now)) (λ p. ⊤) }
        ensures first { MatchOption result
            (NoneWithin here.now.space here.now.n (life_of self.now) low high)
            (λ p. IsFirstWithin here.now.space here.now.n (life_of self.now) low high p) }
    {
        let mut p = 1;
        while p <= here.n {
            let Some(peer) = SpaceId::new(p) else {
                unreachable!();
            };
            if self.is_within(here, peer, low, high) {
                return Some(peer);
            }
            p += 1;
        }
        None
    }

    // Whether a space is a peer, and the number of its session is one of these.
    fn is_within(&self, here: &Here, peer: SpaceId, low: u32, high: u32) -> bool
        ensures within { result ≡ (is_peer here.now.space here.now.n peer
            && is_within (life_of self.now) low high peer) }
        ensures number { (life_of self.now).session peer ≤ last_session }
    {
        let number = self.sessions[peer.place()];
        here.is_peer(peer) && low <= number && number <= high
    }
}
