//! Laws over the definitions: each is the contract of a function that does nothing.

ghost use Rattle.nob_drawing_choice.specs.Laws.{BothEndsAreIn, LifeIsOfRows, LivesAreOfRows, TurnsAreIn};

/// Of a frame that names the reference whose life is asked for, and is from or to the space that
/// is, both the entry by which it arrives and each that gave it are part of what is asked for.
pub fn both_ends_are_in()
    ensures { BothEndsAreIn }
{}

/// A life has the rows at which its bars begin and end.
pub fn turns_are_in()
    ensures { TurnsAreIn }
{}

/// The references of whose lives a row is part are those that its entry names, and those whose bars
/// begin or end there.
pub fn lives_are_of_rows()
    ensures { LivesAreOfRows }
{}

/// Where the life of a reference is asked for and nothing is wrong, the rows that are drawn are
/// those that are part of its life.
pub fn life_is_of_rows()
    ensures { LifeIsOfRows }
{}
