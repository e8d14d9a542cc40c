//! What is true of all spellings, and of all streams of them.

ghost use Rattle.nob_frame.specs.Laws.{NoFront, OneSplit, AllGiven, FaultStands, AnyCut};

/// No spelling of a frame begins another, and what begins with a frame begins with no other frame.
pub fn no_front()
    ensures { NoFront }
{}

/// Bytes are frames, one after the other, and a rest that begins with no whole frame in one way
/// alone.
pub fn one_split()
    ensures { OneSplit }
{}

/// What a `Feed` has given so far and what it keeps are the stream so far.
pub fn all_given()
    ensures { AllGiven }
{}

/// A fault that a `Feed` has met stands in the stream so far, after the frames that it has given.
pub fn fault_stands()
    ensures { FaultStands }
{}

/// How a stream is cut into pieces doesn't matter to what a `Feed` keeps or answers as a fault,
/// nor, where it meets no fault, to the frames that it gives in all: those in front of a fault come
/// only from pushes before it.
pub fn any_cut()
    ensures { AnyCut }
{}
