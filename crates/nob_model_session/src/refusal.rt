//! Why an end of a session refuses a call.

use thiserror::Error;

/// A refusal of an end of a session. It changes nothing.
#[derive(Clone, Copy, Debug, PartialEq, Eq, Error)]
pub enum EndRefusal {
    /// N1: the session is closed at this end.
    #[error("N1: the session is closed at this end")]
    Closed,
    /// N2: 4,096 items are unacknowledged, and this one is limited.
    #[error("N2: too many items are unacknowledged")]
    QueueFull,
    /// N3: the numbers of items are used up.
    #[error("N3: the numbers of items are used up")]
    SeqEnd,
    /// N4: the frame is of another pair of spaces.
    #[error("N4: the frame is of another pair of spaces")]
    Strange,
    /// N5: the session is open at this end.
    #[error("N5: the session is open at this end")]
    StillOpen,
    /// N6: the number isn't above that of this end's session, or is below one that a frame of the
    /// pair had.
    #[error("N6: the number is no new session's")]
    Number,
}
