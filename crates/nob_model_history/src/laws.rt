//! Laws over the definitions: each is the contract of a function that does nothing.

ghost use Rattle.nob_model_history.specs.Anew.{AnewLaw};

/// Right after an Opened every word that is read for its peer is a new session's.
#[tactic(auto, using(crate::proofs::Anew::begins_anew))]
pub fn anew()
    ensures { AnewLaw }
{}
