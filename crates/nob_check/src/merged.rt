//! The entries of traces that belong together.

ghost use Rattle.std.specs.Prelude.{◌≡◌, length};

use nob_model_types::Entry;
use std::marker::Model;

/// The entries of all traces in order of stamp, ties by space. Contracts see the list, the first
/// entry first.
#[derive(Debug, Drop)]
pub struct Merged {
    entries: Vec<Entry>,
}

impl Model for Merged {
    ghost use Rattle.std.specs.Prelude.{List};
    ghost use Rattle.nob_model_types.specs.declared.entry.Entry.{Entry};

    ghost Value = { List Entry };

    ghost use Rattle.std.specs.Coded.{codes};
    ghost use Rattle.nob_pickle.specs.Marks.{trees_code};

    ghost coded = { Prim.hlevel (codes, trees_code) };

    ghost view = { λ merged. merged.entries.items };
}

impl Merged {
    /// The list of a `Vec`. It takes no memory.
    pub fn from_vec(entries: Vec<Entry>) -> Merged
        ensures { result ≡ entries.items }
    {
        Merged { entries }
    }

    /// How many there are.
    pub fn len(&self) -> usize
        ensures { result ≡ length self.now }
    {
        self.entries.len()
    }

    /// The entries, the first first.
    pub fn entries(&self) -> &[Entry]
        ensures { result.now ≡ self.now }
    {
        self.entries.as_slice()
    }

    /// The entries as a `Vec`. It takes no memory.
    pub fn into_vec(self) -> Vec<Entry>
        ensures { result.items ≡ self }
    {
        self.entries
    }
}
