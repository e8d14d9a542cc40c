//! What is true of all items and their spellings.

ghost use Rattle.nob_item.specs.Laws.{CountedAreRefs, OneItem};

/// Bytes spell one item.
pub fn one_item()
    ensures { OneItem }
{
    nob_pickle::laws::no_front();
}

/// The counted references of an item are those references of its value whose index isn't 0, each as
/// often as it stands there and in that order; a note has none.
pub fn counted_are_refs()
    ensures { CountedAreRefs }
{}
