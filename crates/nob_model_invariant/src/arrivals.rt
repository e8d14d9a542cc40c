//! Laws over the definitions: each is the contract of a function that does nothing.

ghost use Rattle.nob_model_invariant.specs.ArrivalLaws.{AnswersLaw, FoundLaw, GuardedLaw};

/// In every run of a world what a client sent to an owner and the owner hasn't acted on is guarded:
/// where it calls an object, the agent aside, or carries a counted reference to one of the owner's,
/// the client is entered for that, and no Dirty or Clean for it is under way before. Asked of the
/// run: what each Call and Finish handed on is of its types.
#[tactic(auto, using(crate::proofs::Guarding::guarded_law))]
pub fn guarded()
    ensures { GuardedLaw }
{}

/// In every run of a world the Calls between two spaces in a session are numbered all different, and
/// so are the Replies; each Reply is of a Call that was acted on, and of one whose message neither
/// waits nor is ready nor runs; and a Call has its Reply acted on, or waits for one, unless its space
/// has closed the session. Asked of the run: what each Call and Finish handed on is of its types.
#[tactic(auto, using(crate::proofs::Answering::answers_law))]
pub fn answers()
    ensures { AnswersLaw }
{}

/// In every run of a world every reference is found: no session is closed for a fault in what came
/// over it. Asked of the run: what each Call and Finish handed on is of its types.
#[tactic(auto, using(crate::proofs::Finding::found_law))]
pub fn found()
    ensures { FoundLaw }
{}
