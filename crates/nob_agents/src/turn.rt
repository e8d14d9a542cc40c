//! What an agent did in a turn.

/// What an agent did in a turn.
#[derive(Clone, Copy, Debug, PartialEq, Eq)]
pub enum Turn {
    /// How many events it made, or, of a Sender, how many parcels it put.
    Did(u64),
    /// There was nothing to do.
    Idle,
    /// Nothing comes any more: a Taker's alone.
    End,
}
