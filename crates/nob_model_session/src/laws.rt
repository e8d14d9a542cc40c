//! Laws over the definitions: each is the contract of a function that does nothing.

ghost use Rattle.nob_model_session.specs.Pair.{AcceptedLaw, PairLaw};

/// For every list of calls on two ends in which each arriving frame was given by an earlier
/// transmit of the other end, what is taken at one end, with the numbers that `front` told, is a
/// beginning of what `send` of the other end took, with the numbers that it told, every item once
/// and in order, and nothing is taken after that end closed.
pub fn pair()
    ensures { PairLaw }
{}

/// For every such list, what one end accepted is a beginning of what was handed to the other, the
/// highest number that was transmitted lies between, and what is acknowledged was accepted.
pub fn accepted()
    ensures { AcceptedLaw }
{}
