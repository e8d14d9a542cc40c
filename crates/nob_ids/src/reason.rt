//! Why a session was closed.

ghost use Rattle.std.specs.Prelude.{◌≡◌, ◌↔◌, ◌≤◌, IsSome, IfSome};
ghost use Rattle.nob_ids.specs.Reasons.{reason_number};

/// Why an end of a session closed. Frames and texts have its number.
#[derive(Clone, Copy, Debug, PartialEq, Eq)]
pub enum Reason {
    /// 1: this end was asked to close.
    Asked,
    /// 2: the peer has closed.
    PeerClosed,
    /// 3: something stayed unacknowledged for as many ticks as the retry limit has.
    RetriesUsedUp,
    /// 4: an item that can't be read, or an acknowledgement of what was never transmitted.
    BadItem,
    /// 5: a reference to an object that its owner doesn't have.
    BadReference,
    /// 6: an item that answers nothing.
    OutOfPlace,
}

impl Reason {
    /// The reason's number, 1 to 6.
    pub fn number(self) -> u8
        ensures value { result ≡ reason_number self }
        ensures in_range { (1 ≤ result) × (result ≤ 6) }
    {
        match self {
            Reason::Asked => 1,
            Reason::PeerClosed => 2,
            Reason::RetriesUsedUp => 3,
            Reason::BadItem => 4,
            Reason::BadReference => 5,
            Reason::OutOfPlace => 6,
        }
    }

    /// The reason of this number: `None` where no reason has it.
    pub fn from_number(number: u8) -> Option<Reason>
        ensures in_range { IsSome result ↔ ((1 ≤ number) × (number ≤ 6)) }
        ensures value { IfSome result (λ reason. reason_number reason ≡ number) }
    {
        match number {
            1 => Some(Reason::Asked),
            2 => Some(Reason::PeerClosed),
            3 => Some(Reason::RetriesUsedUp),
            4 => Some(Reason::BadItem),
            5 => Some(Reason::BadReference),
            6 => Some(Reason::OutOfPlace),
            _ => None,
        }
    }
}
