//! What a transmit would give.

/// What a transmit would give.
#[derive(Clone, Copy, Debug, PartialEq, Eq)]
pub enum Due {
    /// Nothing.
    Nothing,
    /// An Ack alone.
    Ack,
    /// The lowest item alone, which was given before.
    Again,
    /// An item that was never given, or more.
    New,
    /// The Close that a closed end owes.
    Close,
}
