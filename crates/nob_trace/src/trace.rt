//! Traces: what one space was asked and answered, with stamps.

ghost use Rattle.std.specs.Prelude.{◌≡◌, ◌++◌, ◌∷◌, ◌<◌, [], length, OnOk, OnErr};
ghost use Rattle.nob_trace.specs.Stamps as spec;

use crate::stamped::Stamped;
use nob_frame::Version;
use nob_ids::{Limits, SpaceId};
use std::alloc::{AllocError, Global};
use std::marker::Model;

/// Entries whose stamps are at least 1 and rise. Contracts see the list, the first entry first.
#[derive(Debug, Drop)]
pub struct Entries {
    entries: Vec<Stamped>,
}

impl Model for Entries {
    ghost use Rattle.std.specs.Prelude.{List};
    ghost use Rattle.nob_trace.specs.declared.stamped.Stamped.{Stamped};
    ghost use Rattle.nob_trace.specs.Stamps.{Rise};

    ghost Value = { List Stamped };

    ghost use Rattle.std.specs.Coded.{codes};
    ghost use Rattle.nob_pickle.specs.Marks.{trees_code};

    ghost coded = { Prim.hlevel (codes, trees_code) };

    ghost view = { λ entries. entries.entries.items };

    ghost invariant = { λ entries. Rise 0 entries.entries.items };
}

impl Entries {
    /// No entries. It takes no memory.
    pub fn new(alloc: Global) -> Entries
        ensures { result ≡ [] }
    {
        Entries {
            entries: Vec::new(alloc),
        }
    }

    /// Entries whose stamps are at least 1 and rise, as they stand in a `Vec`. It takes no memory,
    /// and costs the same however many there are.
    pub fn from_vec(entries: Vec<Stamped>) -> Entries
        requires rise { spec.Rise 0 entries.items }
        ensures { result ≡ entries.items }
    {
        Entries { entries }
    }

    /// How many there are.
    pub fn len(&self) -> usize
        ensures { result ≡ length self.now }
    {
        self.entries.len()
    }

    /// The last stamp: 0 where there is no entry. It costs the same however many there are.
    pub fn last_stamp(&self) -> u64
        ensures { result ≡ spec.last_stamp 0 self.now }
    {
        match self.entries.last() {
            Some(entry) => entry.stamp,
            None => 0,
        }
    }

    /// Adds an entry whose stamp is above the last one. Only memory fails it, and then the entry is
    /// gone and the others are as they were.
    pub fn push(&mut self, entry: Stamped) -> Result<(), AllocError>
        requires rise { spec.last_stamp 0 self.old < entry.stamp }
        ensures ok { OnOk result (self.new ≡ self.old ++ entry ∷ []) }
        ensures err { OnErr result (self.new ≡ self.old) }
    {
        self.entries.push(entry)?;
        Ok(())
    }

    /// The entries.
    pub fn as_slice(&self) -> &[Stamped]
        ensures { result.now ≡ self.now }
    {
        self.entries.as_slice()
    }

    /// The stamps rise, whatever the entries are. It does nothing.
    pub fn rise(&self)
        ensures { spec.Rise 0 self.now }
    {
        let _ = &self.entries;
    }

    /// The entries as a `Vec`. It takes no memory.
    pub fn into_vec(self) -> Vec<Stamped>
        ensures items { result.items ≡ self }
        ensures rise { spec.Rise 0 result.items }
    {
        self.entries
    }
}

/// What one space was asked and answered, as it happened.
#[derive(Debug, Drop)]
pub struct Trace {
    /// The version of its frames: in version 1 each is of the first session.
    pub version: Version,
    /// The space.
    pub space: SpaceId,
    /// How many spaces there are, named by the last of them.
    pub n: SpaceId,
    /// The limits of the space's sessions.
    pub limits: Limits,
    /// Its entries, whose stamps rise.
    pub entries: Entries,
}
