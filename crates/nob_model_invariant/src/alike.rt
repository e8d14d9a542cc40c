//! Laws over the definitions: each is the contract of a function that does nothing.

ghost use Rattle.nob_model_invariant.specs.AlikeLaws.{AlikeLaw, FirstLaw, HistoriesLaw, VerdictsLaw};

/// In every run of a world of n spaces each space speaks of the first n alone: whoever it calls and
/// acts on, the owner of what it gives up, and the owner of each counted reference that comes to it
/// is one of 1 to n. Asked of the run: what each Call and Finish handed on is of its types.
#[tactic(auto, using(crate::proofs::Speaking::first))]
pub fn speaks_of_first()
    ensures { FirstLaw }
{}

/// In every run of a world of n spaces what each space did, has outstanding and gave reads the same
/// where more spaces are counted. Asked of the run: what each Call and Finish handed on is of its
/// types.
#[tactic(auto, using(crate::proofs::Judging::histories))]
pub fn histories()
    ensures { HistoriesLaw }
{}

/// In every run of a world of n spaces the verdicts on it are the same where more spaces are
/// counted. Asked of the run: what each Call and Finish handed on is of its types.
pub fn verdicts()
    ensures { VerdictsLaw }
{}

/// A judge that counts 32 spaces judges each run of a world of fewer as one that knows their
/// number. Asked of the run: what each Call and Finish handed on is of its types.
#[tactic(auto, using(crate::proofs::Judging::alike))]
pub fn alike()
    ensures { AlikeLaw }
{}
