//! What is true of every shim, whatever its words.

ghost use Rattle.nob_fault.specs.Laws.{OnlyWhatCame};

/// Only parcels that went in come out.
pub fn only_what_came()
    ensures { OnlyWhatCame }
{}
