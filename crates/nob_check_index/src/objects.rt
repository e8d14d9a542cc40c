//! Which objects a space exported, and which it withdrew.

ghost use Rattle.std.specs.Prelude.{◌≡◌, [], IfOk};
ghost use Rattle.nob_check_index.specs.Exports as words;

use indexmap::IndexSet;
use nob_ids::{SpaceId, WireRep};
use nob_model_types::Deed;
use std::alloc::{AllocError, Global};
use std::marker::Model;

/// The references that Export answered, each once. Contracts see the list, in the order in which
/// they were put in.
pub struct Exports {
    reps: IndexSet<WireRep>,
}

// By hand, so that the table is taken apart here alone and not at each end of each caller.
impl Drop for Exports {
    fn drop(self) {
        let Exports { reps: _ } = self;
    }
}

impl Model for Exports {
    ghost use Rattle.std.specs.Prelude.{List};
    ghost use Rattle.nob_ids.specs.declared.wire_rep.WireRep.{WireRep};

    ghost Value = { List WireRep };

    ghost view = { λ exports. exports.reps.keys };
}

impl Exports {
    /// Nothing was exported.
    pub fn none(alloc: Global) -> Exports
        ensures { result ≡ [] }
    {
        Exports {
            reps: IndexSet::new(alloc),
        }
    }

    /// Whether a reference is among them. Constant time on average.
    pub fn has(&self, rep: &WireRep) -> bool
        ensures { result ≡ words.is_export rep.now self.now }
    {
        self.reps.contains(rep)
    }

    /// These after a deed. Only memory fails it. Constant time on average.
    pub fn after(self, deed: &Deed) -> Result<Exports, AllocError>
        ensures { IfOk result (λ after. after ≡ words.exports_after deed.now self) }
    {
        match deed {
            Deed::Export(rep) => self.with_rep(*rep),
            _ => Ok(self),
        }
    }

    // These with one reference more.
    fn with_rep(self, rep: WireRep) -> Result<Exports, AllocError>
        ensures { IfOk result (λ more. more ≡ words.with_export rep self) }
    {
        let Exports { mut reps } = self;
        reps.insert(rep)?;
        Ok(Exports { reps })
    }
}

/// The indexes of the objects that were withdrawn, each once. Contracts see the list, in the order
/// in which they were put in.
pub struct Withdrawals {
    indexes: IndexSet<u64>,
}

// By hand, so that the table is taken apart here alone and not at each end of each caller.
impl Drop for Withdrawals {
    fn drop(self) {
        let Withdrawals { indexes: _ } = self;
    }
}

impl Model for Withdrawals {
    ghost use Rattle.std.specs.Prelude.{ℕ, List};

    ghost Value = { List ℕ };

    ghost view = { λ withdrawals. withdrawals.indexes.keys };
}

impl Withdrawals {
    /// Nothing was withdrawn.
    pub fn none(alloc: Global) -> Withdrawals
        ensures { result ≡ [] }
    {
        Withdrawals {
            indexes: IndexSet::new(alloc),
        }
    }

    /// Whether an index is among them. Constant time on average.
    pub fn has(&self, index: u64) -> bool
        ensures { result ≡ words.is_withdrawal index self.now }
    {
        self.indexes.contains(&index)
    }

    /// These after a deed. Only memory fails it. Constant time on average.
    pub fn after(self, deed: &Deed) -> Result<Withdrawals, AllocError>
        ensures { IfOk result (λ after. after ≡ words.withdrawals_after deed.now self) }
    {
        match deed {
            Deed::Withdraw(index) => self.with_index(*index),
            _ => Ok(self),
        }
    }

    // These with one index more.
    fn with_index(self, index: u64) -> Result<Withdrawals, AllocError>
        ensures { IfOk result (λ more. more ≡ words.with_withdrawal index self) }
    {
        let Withdrawals { mut indexes } = self;
        indexes.insert(index)?;
        Ok(Withdrawals { indexes })
    }
}

/// The objects of a space: which were exported, and which withdrawn.
#[derive(Drop)]
pub struct Objects {
    /// The references that Export answered.
    pub exports: Exports,
    /// The indexes that were withdrawn.
    pub withdrawals: Withdrawals,
}

impl Objects {
    /// None.
    pub fn none(alloc: Global) -> Objects
        ensures { result ≡ record { exports = []; withdrawals = [] } }
    {
        Objects {
            exports: Exports::none(alloc),
            withdrawals: Withdrawals::none(alloc),
        }
    }

    /// Whether a space exported the object of an index. Constant time on average.
    pub fn is_exported(&self, space: SpaceId, index: u64) -> bool
        ensures { result ≡ words.is_export_of space index self.now.exports }
    {
        let owner = space;
        self.exports.has(&WireRep { owner, index })
    }

    /// Whether the object of an index of a space is live: exported and never withdrawn. Constant
    /// time on average.
    pub fn is_live(&self, space: SpaceId, index: u64) -> bool
        ensures { result ≡ words.is_left space index self.now.exports self.now.withdrawals }
    {
        self.is_exported(space, index) && !self.withdrawals.has(index)
    }

    /// The objects after a deed. Only memory fails it. Constant time on average.
    pub fn after(self, deed: &Deed) -> Result<Objects, AllocError>
        ensures { IfOk result (λ after. after
            ≡ record {
              exports = words.exports_after deed.now self.exports;
              withdrawals = words.withdrawals_after deed.now self.withdrawals;
            }) }
    {
        let Objects {
            exports,
            withdrawals,
        } = self;
        let exports = exports.after(deed)?;
        let withdrawals = withdrawals.after(deed)?;
        Ok(Objects {
            exports,
            withdrawals,
        })
    }
}
