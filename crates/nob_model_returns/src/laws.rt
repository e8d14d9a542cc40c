//! Laws over the definitions: each is the contract of a function that does nothing.

ghost use Rattle.nob_model_returns.specs.Laws.{JoinedLaw, RunLaw, SafeReturnsLaw, FreshLaw};

/// To every run of a world whose spaces die and come back there is a journal to which it is joined:
/// in it each beginning of a life is a bridge of that space's own, and each entry stands as it was,
/// but for higher job numbers.
#[tactic(auto, using(crate::proofs::Runs::joined_law))]
pub fn joined()
    ensures { JoinedLaw }
{}

/// Each such journal is a run of a world, and safe: it has its gapless fronts, no object goes too
/// early, no reference is lost without a cause, none leaks. Asked of what happened: what each Call
/// and Finish handed on is of its types.
#[tactic(auto, using(crate::proofs::Runs::run_law, crate::proofs::Runs::safe_returns_law))]
pub fn runs()
    ensures run { RunLaw }
    ensures safe { SafeReturnsLaw }
{}

/// No space gives a reference twice, in all its lives.
#[tactic(auto, using(crate::proofs::Fresh::fresh_law))]
pub fn fresh()
    ensures { FreshLaw }
{}
