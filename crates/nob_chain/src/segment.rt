//! Segments of a chain.

ghost use Rattle.std.specs.Prelude.{◌≡◌};

use crate::seal::Seal;
use nob_trace::Entries;
use std::marker::Model;

/// Entries, and the seal behind the last one, where there is one.
#[derive(Debug, Drop)]
pub struct Segment {
    /// The entries, whose stamps rise.
    pub entries: Entries,
    /// The seal.
    pub seal: Option<Seal>,
}

/// Segments. Contracts see the list, the first segment first.
#[derive(Debug, Drop)]
pub struct Segments {
    segments: Vec<Segment>,
}

impl Model for Segments {
    ghost use Rattle.std.specs.Prelude.{List};
    ghost use Rattle.nob_chain.specs.declared.segment.Segment.{Segment};

    ghost Value = { List Segment };

    ghost use Rattle.std.specs.Coded.{codes};
    ghost use Rattle.nob_pickle.specs.Marks.{trees_code};

    ghost coded = { Prim.hlevel (codes, trees_code) };

    ghost view = { λ segments. segments.segments.items };
}

impl Segments {
    /// The list of a `Vec`. It takes no memory.
    pub fn from_vec(segments: Vec<Segment>) -> Segments
        ensures { result ≡ segments.items }
    {
        Segments { segments }
    }

    /// The segments.
    pub fn as_slice(&self) -> &[Segment]
        ensures { result.now ≡ self.now }
    {
        self.segments.as_slice()
    }

    /// The list as a `Vec`. It takes no memory.
    pub fn into_vec(self) -> Vec<Segment>
        ensures { result.items ≡ self }
    {
        self.segments
    }
}
