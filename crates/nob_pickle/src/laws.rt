//! Laws of the grammar, each proved for all values and bytes.

ghost use Rattle.nob_pickle.specs.Laws.{NoFront};

/// No spelling begins another: of two spellings of which one begins the other nothing is left over,
/// and they spell one value.
pub fn no_front()
    ensures { NoFront }
{}
