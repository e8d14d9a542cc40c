//! Laws over the definitions: each is the contract of a function that does nothing.

ghost use Rattle.nob_model_traces.specs.MergingLaws.{OneMerged};

/// Traces have one list of merged entries at most.
pub fn one_merged()
    ensures { OneMerged }
{}
