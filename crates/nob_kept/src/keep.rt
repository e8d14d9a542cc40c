//! What a keeper keeps.

/// What a keeper keeps of the entries that its space makes, and so what it leaves at its end.
#[derive(Clone, Copy, Debug, PartialEq, Eq)]
pub enum Keep {
    /// All of them, in sealed segments: a chain. `close_with` gives it.
    All,
    /// Of each seat the newest one: a summary. `end_with` gives it.
    Nothing,
}
