//! What a space did, as a list.

ghost use Rattle.std.specs.Prelude.{◌≡◌, ◌∷◌, [], IfOk};

use nob_model_types::{Deed, Here, List};
use std::alloc::{AllocError, Global};
use std::marker::Model;

/// What a space did, and among how many spaces.
#[derive(Debug, Drop)]
pub struct SpaceDeeds {
    /// The space, and among how many.
    pub here: Here,
    /// What it did, the newest first.
    pub deeds: List<Deed>,
}

/// What a space did, to be kept and not read: each deed stands behind the earlier ones. Contracts
/// see the list, the newest first.
#[derive(Drop)]
pub struct Past {
    // The first first.
    deeds: Vec<Deed>,
}

impl Model for Past {
    ghost use Rattle.std.specs.Prelude.{List, reverse};
    ghost use Rattle.nob_model_types.specs.declared.deed.Deed.{Deed};

    ghost Value = { List Deed };

    ghost use Rattle.std.specs.Coded.{codes};
    ghost use Rattle.nob_pickle.specs.Marks.{trees_code};

    ghost coded = { Prim.hlevel (codes, trees_code) };

    ghost view = { λ past. reverse past.deeds.items };
}

impl Past {
    /// Nothing was done.
    pub fn none(alloc: Global) -> Past
        ensures { result ≡ [] }
    {
        Past {
            deeds: Vec::new(alloc),
        }
    }

    /// These deeds and one more. Only memory fails it. Constant time on average.
    pub fn with_deed(self, deed: Deed) -> Result<Past, AllocError>
        ensures { IfOk result (λ more. more ≡ deed ∷ self) }
    {
        let Past { mut deeds } = self;
        deeds.push(deed)?;
        Ok(Past { deeds })
    }
}
