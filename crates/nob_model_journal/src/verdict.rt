//! What is said of a journal.

/// What the runtime promises of all spaces together, in the order in which it is looked at.
#[derive(Clone, Copy, Debug, PartialEq, Eq)]
pub enum Promise {
    /// What each space acted on from each peer is a gapless front of what that peer sent it.
    Fronts,
    /// No object is withdrawn while a space can use it or its reference is on its way.
    Withdraws,
    /// No reference is lost without a cause.
    Losses,
    /// No session is closed for a fault in what came over it.
    Found,
}

/// Whether all promises are kept, or the first that isn't.
#[derive(Clone, Copy, Debug, PartialEq, Eq)]
pub enum Verdict {
    /// All are kept.
    Yes,
    /// This is the first that isn't.
    No(Promise),
}
