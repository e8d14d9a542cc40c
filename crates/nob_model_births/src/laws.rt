//! Laws over the definitions: each is the contract of a function that does nothing.

ghost use Rattle.nob_model_births.specs.Reached.{ReachedLaw};

/// For each birth that is in range there are entries after which a space is born so.
#[tactic(auto, using(crate::proofs::Reached::reached_law))]
pub fn reached()
    ensures { ReachedLaw }
{}
