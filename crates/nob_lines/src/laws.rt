//! What is true of the lines of all chains.

ghost use Rattle.nob_lines.specs.Laws as spec;

/// What is read of a chain, line by line, are lines of a chain as its definition says, one after the
/// other. It does nothing.
pub fn are_of_chains()
    ensures { spec.AreOfChains }
{}

/// Each line that goes on as the definition of chains says can be read. It does nothing.
pub fn all_are_read()
    ensures { spec.AllAreRead }
{}
