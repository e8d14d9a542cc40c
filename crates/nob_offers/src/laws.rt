//! Laws over the definitions: each is the contract of a function that does nothing.

ghost use Rattle.nob_offers.specs.Bells.{HeardLaw};
ghost use Rattle.nob_offers.specs.Offers.{NoWaitLaw, OneTurnLaw, SeenLaw};
ghost use Rattle.nob_offers.specs.Retries.{TriedLaw};

/// In every run of any number of threads, over every order of their steps: where all threads rest,
/// all that was handed has been seen by a turn that began after it was handed.
pub fn seen_before_rest()
    ensures { SeenLaw }
{}

/// In every run of any number of threads at most one has the lock at a time.
pub fn one_turn()
    ensures { OneTurnLaw }
{}

/// Whatever the others do, each thread has a step that it can make: none waits for another.
pub fn no_wait()
    ensures { NoWaitLaw }
{}

/// In every run of any number of threads and a sleeper, over every order of their steps: where the
/// sleeper sleeps and all others rest, nothing that was put lies untaken.
pub fn heard_before_sleep()
    ensures { HeardLaw }
{}

/// In every run of any number of threads, over every order of their steps: where all threads rest,
/// what still waits finds no room, and its refusal is noted for who makes room next. So what was
/// refused is tried again by whoever made room since, or by the one who was refused.
pub fn tried_before_rest()
    ensures { TriedLaw }
{}
