//! How a reference stands.

ghost use Rattle.std.specs.Prelude.{◌≡◌};
ghost use Rattle.nob_table_rows.specs.Standings.{is_known, is_pending, is_granted, is_lost, is_idle, state_of, waiting_surrogate, with_grant};

use crate::counts::Counts;

/// What the table knows of a counted reference.
#[derive(Clone, Copy, Debug, PartialEq, Eq)]
pub enum State {
    /// The table has nothing of it: never exported, no surrogate, or an agent's reference.
    Unknown,
    /// An object of this space, exported and not withdrawn.
    Live,
    /// An object of this space, withdrawn.
    Withdrawn,
    /// A surrogate whose Dirty waits for its answer.
    Pending,
    /// A surrogate that its owner has granted.
    Granted,
    /// A surrogate that its owner has refused.
    Refused,
    /// The session with the owner has closed, and the reference is still held.
    Lost,
}

/// How a reference stands: what the table knows of it, and how often it is held.
#[derive(Clone, Copy, Debug, PartialEq, Eq)]
pub struct Standing {
    /// What the table knows of it.
    pub state: State,
    /// How often it is held.
    pub counts: Counts,
}

impl Standing {
    /// What the table knows of a reference that it has nothing of.
    pub const UNKNOWN: Standing = Standing {
        state: State::Unknown,
        counts: Counts::NONE,
    };
}

impl Standing {
    /// Whether the reference is granted and nothing holds it.
    pub fn is_idle(&self) -> bool
        ensures { result ≡ is_idle self.now }
    {
        self.state.is_granted() && !self.counts.is_held()
    }
}

impl State {
    /// Whether the reference has counts that a hold can change.
    pub fn is_known(self) -> bool
        ensures { result ≡ is_known self }
    {
        !matches!(self, State::Unknown | State::Withdrawn)
    }

    /// Whether it is a surrogate whose Dirty waits for its answer.
    pub fn is_pending(self) -> bool
        ensures { result ≡ is_pending self }
    {
        matches!(self, State::Pending)
    }

    /// Whether it is a surrogate that its owner has granted.
    pub fn is_granted(self) -> bool
        ensures { result ≡ is_granted self }
    {
        matches!(self, State::Granted)
    }

    /// Whether the session with the reference's owner has closed.
    pub fn is_lost(self) -> bool
        ensures { result ≡ is_lost self }
    {
        matches!(self, State::Lost)
    }
}

/// What the owner has answered to a surrogate's Dirty.
#[derive(Clone, Copy, Debug, PartialEq, Eq)]
pub enum Grant {
    /// Nothing yet.
    Pending,
    /// That this space is entered.
    Granted,
    /// That the object is withdrawn.
    Refused,
}

impl Grant {
    /// The state of a surrogate with this answer.
    pub fn state(self) -> State
        ensures { result ≡ state_of self }
    {
        match self {
            Grant::Pending => State::Pending,
            Grant::Granted => State::Granted,
            Grant::Refused => State::Refused,
        }
    }
}

/// A surrogate on an open session: what its owner has answered, and where its last Dirty stands
/// among all.
#[derive(Clone, Copy, Debug, PartialEq, Eq)]
pub struct Surrogate {
    /// What the owner has answered to the last Dirty.
    pub grant: Grant,
    /// How many Dirties were sent before the last one of this reference.
    pub place: u128,
}

impl Surrogate {
    /// The surrogate of a Dirty that was just sent.
    pub fn waiting_surrogate(place: u128) -> Surrogate
        ensures { result ≡ waiting_surrogate place }
    {
        Surrogate {
            grant: Grant::Pending,
            place,
        }
    }

    /// The same surrogate with an answer.
    pub fn with_grant(self, grant: Grant) -> Surrogate
        ensures { result ≡ with_grant grant self }
    {
        Surrogate {
            grant,
            place: self.place,
        }
    }
}
