//! The references of a row.

ghost use Rattle.std.specs.Prelude.{◌≡◌, ◌++◌, ◌∷◌, [], OnOk};

use nob_ids::WireRep;
use std::alloc::{AllocError, Global};
use std::marker::Model;

/// References. Contracts see their list.
#[derive(Debug, Drop)]
pub struct Names {
    names: Vec<WireRep>,
}

impl Model for Names {
    ghost use Rattle.std.specs.Prelude.{List};
    ghost use Rattle.nob_ids.specs.declared.wire_rep.WireRep.{WireRep};

    ghost Value = { List WireRep };

    ghost view = { λ names. names.names.items };
}

impl Names {
    // These.
    pub(crate) fn from_vec(names: Vec<WireRep>) -> Names
        ensures { result ≡ names.items }
    {
        Names { names }
    }

    /// The references.
    pub fn as_slice(&self) -> &[WireRep]
        ensures { result.now ≡ self.now }
    {
        self.names.as_slice()
    }

    // Puts one more behind them.
    pub(crate) fn push(&mut self, rep: WireRep) -> Result<(), AllocError>
        ensures { OnOk result (self.new ≡ self.old ++ rep ∷ []) }
    {
        self.names.push(rep)?;
        Ok(())
    }
}
