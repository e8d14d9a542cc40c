//! The names of an agent.

ghost use Rattle.std.specs.Prelude.{◌≡◌, ◌≤◌, [], true, false, Some, None, Ok, Err, length, IsSome, IfOk, IfErr, OnErr, OnOk, MatchOption};
ghost use Rattle.nob_dispatch_objects.specs.Names as spec;
ghost use Rattle.nob_dispatch_objects.specs.declared.names.NamesError.{NamesError as NamesErrorOf};
ghost use Rattle.nob_dispatch_objects.specs.declared.names.NamesError.TheVariants.{OutOfMemory};

use nob_ids::WireRep;
use std::alloc::{AllocError, AllocFailed, Global};
use std::collections::BTreeMap;
use std::marker::Model;
use thiserror::Error;

/// The maximum number of names at an agent.
pub const MOST_NAMES: usize = 1024;

/// The maximum length of a name, in bytes.
pub const LONGEST_NAME: usize = 255;

/// Why a name isn't put.
#[derive(Clone, Copy, Debug, PartialEq, Eq, Drop, Error)]
pub enum NamesError {
    /// There are as many names as may be, and it is none of them.
    #[error("the table of names is full")]
    Full,
    /// A growth was refused.
    #[error("out of memory")]
    OutOfMemory,
}

impl<T: Drop> From<AllocFailed<T>> for NamesError {
    ghost from_gives = { λ _ e. e ≡ OutOfMemory };

    fn from(_error: AllocFailed<T>) -> NamesError {
        NamesError::OutOfMemory
    }
}

/// A name: 1 to 255 bytes. Contracts see the bytes.
#[derive(Debug, Drop)]
pub struct Name {
    bytes: Vec<u8>,
}

impl Model for Name {
    ghost use Rattle.std.specs.Prelude.{◌≡◌, ℕ, List, true};

    ghost Value = { List ℕ };

    ghost use Rattle.nob_dispatch_objects.specs.Names.{is_name};

    ghost view = { λ name. name.bytes.items };

    ghost invariant = { λ name. is_name name.bytes.items ≡ true };
}

impl Name {
    /// These bytes as a name: `None` where they are none. Only memory fails it.
    pub fn new(alloc: Global, bytes: &[u8]) -> Result<Option<Name>, AllocError>
        ensures name { IfOk result (λ name.
            MatchOption name (spec.is_name bytes.now ≡ false) (λ name. name ≡ bytes.now)) }
        ensures memory { OnErr result (spec.is_name bytes.now ≡ true) }
    {
        if !is_name(bytes) {
            return Ok(None);
        }
        Ok(Some(Name {
            bytes: bytes.to_vec(alloc)?,
        }))
    }

    /// Its bytes.
    pub fn as_bytes(&self) -> &[u8]
        ensures bytes { result.now ≡ self.now }
        ensures name { spec.is_name self.now ≡ true }
    {
        self.bytes.as_slice()
    }
}

/// Whether bytes are a name.
pub fn is_name(bytes: &[u8]) -> bool
    ensures { result ≡ spec.is_name bytes.now }
{
    1 <= bytes.len() && bytes.len() <= LONGEST_NAME
}

/// Names, each with the reference that it stands for. Contracts see them in the order of the names.
#[derive(Debug, Drop)]
pub struct NameTable {
    references: BTreeMap<Vec<u8>, WireRep>,
}

impl Model for NameTable {
    ghost use Rattle.std.specs.Prelude.{◌≤◌, ℕ, List, length};
    ghost use Rattle.nob_ids.specs.declared.wire_rep.WireRep.{WireRep};

    ghost Value = { List (List ℕ × WireRep) };

    ghost use Rattle.nob_dispatch_objects.specs.Entries.{by_bytes};
    ghost use Rattle.nob_dispatch_objects.specs.Names.{most_names};

    ghost view = { λ table. by_bytes table.references.entries };

    ghost invariant = { λ table. length table.references.entries ≤ most_names };
}

impl NameTable {
    /// No names. It takes no memory.
    pub fn new(alloc: Global) -> NameTable
        ensures { result ≡ [] }
    {
        NameTable {
            references: BTreeMap::new(alloc),
        }
    }

    /// How many names there are.
    pub fn len(&self) -> usize
        ensures len { result ≡ length self.now }
        ensures few { result ≤ spec.most_names }
    {
        self.references.len()
    }

    /// The reference that a name stands for. Logarithmic in the names.
    pub fn get(&self, name: &[u8]) -> Option<WireRep>
        ensures { result ≡ spec.reference_of name.now self.now }
    {
        self.references.get(name).copied()
    }

    /// Whether there is no room for a name. Logarithmic in the names.
    pub fn is_full_for(&self, name: &[u8]) -> bool
        ensures { result ≡ spec.is_full_for name.now self.now }
    {
        self.len() >= MOST_NAMES && self.get(name).is_none()
    }

    /// Has a name stand for a reference: the reference that it stood for before. Logarithmic in the
    /// names.
    pub fn put(&mut self, name: Name, rep: WireRep) -> Result<Option<WireRep>, NamesError>
        ensures before { IfOk result (λ before. before ≡ spec.reference_of name self.old) }
        ensures put { OnOk result (self.new ≡ spec.with_name name rep self.old) }
        ensures full { IfErr result (λ error. error ≡ NamesError.Full
            → spec.is_full_for name self.old ≡ true) }
        ensures only { spec.is_full_for name self.old ≡ true → result ≡ Err NamesErrorOf.Full }
        ensures memory { OnErr result (spec.reference_of name self.old ≡ None) }
        ensures err { OnErr result (self.new ≡ self.old) }
    {
        let is_full = self.is_full_for(name.as_bytes());
        if is_full {
            return Err(NamesError::Full);
        }
        let Name { bytes } = name;
        let before = self.references.insert(bytes, rep)?;
        Ok(before)
    }

    /// Takes a name out: the reference that it stood for. Logarithmic in the names.
    pub fn remove(&mut self, name: &[u8]) -> Option<WireRep>
        ensures before { result ≡ spec.reference_of name.now self.old }
        ensures removed { self.new ≡ spec.without_name name.now self.old }
    {
        self.references.remove(name)
    }
}
