//! Laws over the definitions: each is the contract of a function that does nothing.

ghost use Rattle.nob_model_lives.specs.Alone.{AloneLaw};
ghost use Rattle.nob_model_lives.specs.Births.{NewLaw, UnusedLaw, FirstLaw};
ghost use Rattle.nob_model_lives.specs.Bridges.{BridgeLaw, BoundsLaw};

/// A space that has done nothing is born, with no index, call or job before it and each session in
/// number 1.
#[tactic(auto, using(crate::proofs::Begin::new_law))]
pub fn new()
    ensures { NewLaw }
{}

/// Where a space is born no counted reference is held, lent, pinned, pending, granted or refused,
/// and its first object has the index behind the birth's.
#[tactic(auto, using(crate::proofs::Unused::unused_law))]
pub fn begin()
    ensures unused { UnusedLaw }
    ensures first { FirstLaw }
{}

/// Behind every list of right entries there are entries of the space's own that did what needs
/// nobody else, and then the space is born: for each birth to which it can be brought.
#[tactic(auto, using(crate::proofs::Bridge::alone_law))]
pub fn alone()
    ensures { AloneLaw }
{}

/// So there are entries after which the space is born, for each birth to which it can be brought, and
/// for all bounds that cover what it showed and leave room.
#[tactic(auto, using(crate::proofs::Bridge::bridge_law, crate::proofs::Bridge::bounds_law))]
pub fn bridge()
    ensures births { BridgeLaw }
    ensures bounds { BoundsLaw }
{}
