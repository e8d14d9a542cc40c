//! Laws over the definitions: each is the contract of a function that does nothing.

ghost use Rattle.nob_model_jobs.specs.Alike.{RaisedLaw, BornAlikeLaw, LifeLaw, StayAlikeLaw};

/// After two lists that are alike but for the jobs that were claimed the right answers are the same,
/// with the numbers of jobs raised.
#[tactic(auto, using(crate::proofs::Answers::raised_law))]
pub fn raised()
    ensures { RaisedLaw }
{}

/// Two lists after which a space is born are alike where the births differ in jobs alone.
pub fn born()
    ensures { BornAlikeLaw }
{}

/// The right entries of a life that counts its jobs from fewer are right, with the numbers of jobs
/// raised, behind a birth that differs in jobs alone.
pub fn life()
    ensures { LifeLaw }
{}

/// The two lists of such a life stay alike.
pub fn stay()
    ensures { StayAlikeLaw }
{}
