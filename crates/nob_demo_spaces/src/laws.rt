//! A law over the definitions: the contract of a function that does nothing.

ghost use Rattle.nob_demo_spaces.specs.Words.{TakenAreWithin};

/// Where clap takes words that name `spaces` or `draw`, the numbers of its options are in range: no
/// default stands in for a text.
pub fn taken_are_within()
    ensures { TakenAreWithin }
{}
