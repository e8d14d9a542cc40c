//! What is true of all chains.

ghost use Rattle.nob_chain.specs.Laws.{AreWritable, OneChain, OneFault, OneFront, OneProblem};

/// Whatever chain is read can be written: each frame in it has a spelling, each segment a seal.
pub fn chains_are_writable()
    ensures { AreWritable }
{}

/// What begins with a chain begins with that one alone, and the same is left behind it.
pub fn one_front()
    ensures { OneFront }
{}

/// A text spells one chain, so what `decode` reads is what the text says.
pub fn one_chain()
    ensures { OneChain }
{}

/// A text that doesn't begin with a chain is refused for one fault, and one that does for none.
pub fn one_fault()
    ensures { OneFault }
{}

/// The same of a text that should be one chain.
pub fn one_problem()
    ensures { OneProblem }
{}
