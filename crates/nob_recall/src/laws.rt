//! Laws over the definitions: each is the contract of a function that does nothing.

ghost use Rattle.nob_recall.specs.Laws.{RememberedWereTransmitted, ForgottenArePast};

/// A frame that is remembered was transmitted.
pub fn remembered_were_transmitted()
    ensures { RememberedWereTransmitted }
{}

/// A frame that was transmitted is remembered, or can bring nothing more to the space that it goes
/// to. So what is said to be without an origin never was transmitted.
pub fn forgotten_are_past()
    ensures { ForgottenArePast }
{}
