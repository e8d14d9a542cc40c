//! What is true of all traces.

ghost use Rattle.nob_trace.specs.Laws.{AreKnown, AreWritable, OneEntry, OneFault, OneFaultOfAll, OneFront, OneList, OneResult, OneTrace};

/// Whatever trace is read can be written: each frame in it has a spelling.
pub fn traces_are_writable()
    ensures { AreWritable }
{}

/// Where each frame has a spelling the trace's version can speak of all that stands in it, so what
/// is refused for R5 has no text.
pub fn writable_traces_are_known()
    ensures { AreKnown }
{}

/// A text spells one result, in whichever version, so results of one text are the same.
pub fn one_result()
    ensures { OneResult }
{}

/// A line spells one entry, in whichever version.
pub fn one_entry()
    ensures { OneEntry }
{}

/// What begins with a trace begins with that one alone, and the same is left behind it.
pub fn one_front()
    ensures { OneFront }
{}

/// A text spells one trace, so what `decode` reads is what the text says, and traces of different
/// versions never have one text.
pub fn one_trace()
    ensures { OneTrace }
{}

/// A text is traces, one after the other, in one way.
pub fn one_list()
    ensures { OneList }
{}

/// A text that isn't a trace is refused for one fault at most, and one that is for none.
pub fn one_fault()
    ensures { OneFault }
{}

/// The same of a text that should be traces, one after the other.
pub fn one_fault_of_all()
    ensures { OneFaultOfAll }
{}
