//! The tables of a space, from one deed to the next.

ghost use Rattle.std.specs.Prelude.{◌≡◌, [], IfOk};
ghost use Rattle.nob_check_index.specs.Lookups as words;

use crate::more::MoreTables;
use nob_check_tables::{Tables, new_tables, with_deed as tables_with_deed};
use nob_model_types::{Deed, Here};
use std::alloc::{AllocError, Global};

/// What is looked up of what a space did.
#[derive(Drop)]
pub struct Lookups {
    /// Which sessions have closed, which items came, and what was asked of owners and answered.
    pub tables: Tables,
    /// What else is looked up.
    pub more: MoreTables,
}

/// The tables of a space that did nothing.
pub fn new_lookups(alloc: Global, here: &Here) -> Lookups
    ensures { result ≡ words.lookups_of here.now.space here.now.n [] }
{
    Lookups {
        tables: new_tables(alloc, *here),
        more: MoreTables::none(alloc),
    }
}

/// The tables after a deed. Only memory fails it. It looks up what the deed touches.
pub fn with_deed(alloc: Global, deed: &Deed, lookups: Lookups) -> Result<Lookups, AllocError>
    ensures { IfOk result (λ after. after ≡ words.lookups_after deed.now lookups) }
{
    let Lookups { tables, more } = lookups;
    let more = more.after(alloc, deed, &tables)?;
    let tables = tables_with_deed(alloc, deed, tables)?;
    Ok(Lookups { tables, more })
}
