//! Laws over the definitions: each is the contract of a function that does nothing.

ghost use Rattle.nob_model_invariant.specs.Laws.{InvariantLaw};
ghost use Rattle.nob_model_invariant.specs.Safe.{SafeLaw};

/// Every run of a world has the invariant: its sessions, turns, owners' answers, names, listings,
/// holds, settlements, what is under way, Calls and Replies, and losses are as they should be after
/// every entry. Asked of the run: what each Call and Finish handed on is of its types.
#[tactic(auto, using(crate::proofs::Whole::invariant))]
pub fn invariant()
    ensures { InvariantLaw }
{}

/// Every run of a world is safe: gapless fronts, no early withdrawal, no loss without a cause,
/// nothing bad that comes, and no leak. Asked of the run: what each Call and Finish handed on is of
/// its types.
#[tactic(auto, using(crate::proofs::Safe::safe_law))]
pub fn safe()
    ensures { SafeLaw }
{}
