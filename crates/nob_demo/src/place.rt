//! Where an entry is.

ghost use Rattle.std.specs.Prelude.{◌≡◌, ◌≤◌, length};
ghost use Rattle.nob_model_journal.specs.Journals.{at};
ghost use Rattle.nob_demo.specs.Draws as spec;

use nob_ids::SpaceId;
use nob_model_types::Entry;

// How many entries of a space a journal has.
fn count_of(space: SpaceId, journal: &[Entry]) -> usize
    ensures count { result ≡ length (at space journal.now) }
    ensures bound { result ≤ length journal.now }
{
    journal.iter().filter(|entry| entry.space == space).count()
}

// Whether an entry is the one of a space at this place among the space's own.
fn is_at(space: SpaceId, place: usize, entry: &Entry, older: &[Entry]) -> bool
    ensures { result ≡ spec.is_at space place entry.now older.now }
{
    entry.space == space && count_of(space, older) + 1 == place
}

// The row of the entry of a space at this place among the space's own, in a journal, the newest
// entry of which stands first.
pub(crate) fn row_of(space: SpaceId, place: usize, journal: &[Entry]) -> Option<usize>
    ensures { result ≡ spec.row_of space place journal.now }
{
    for newer in 0..journal.len() {
        let older = journal.split_at(newer + 1).1;
        if is_at(space, place, &journal[newer], older) {
            return Some(older.len() + 1);
        }
    }
    None
}
