//! A few references, without memory.

ghost use Rattle.std.specs.Prelude.{◌≡◌, ◌<◌, ◌++◌, [], ◌∷◌, length};

use nob_ids::WireRep;
use std::marker::Model;

/// As many references as a value may have: 32 at most. It takes no memory. Contracts see the list.
#[derive(Debug, Drop)]
pub struct FewRefs {
    refs: [WireRep; 32],
    count: usize,
}

impl Model for FewRefs {
    ghost use Rattle.std.specs.Prelude.{List, take, ◌≤◌};
    ghost use Rattle.nob_ids.specs.declared.wire_rep.WireRep.{WireRep};

    ghost Value = { List WireRep };

    ghost view = { λ few. take few.count few.refs };

    ghost invariant = { λ few. few.count ≤ 32 };
}

impl FewRefs {
    /// None: the places are filled with any reference.
    pub fn new(filler: WireRep) -> FewRefs
        ensures { result ≡ [] }
    {
        FewRefs {
            refs: [filler; 32],
            count: 0,
        }
    }

    /// One more, behind the others. The caller's condition: there are fewer than 32.
    pub fn push(&mut self, rep: WireRep)
        requires { length self.old < 32 }
        ensures { self.new ≡ self.old ++ rep ∷ [] }
    {
        self.refs[self.count] = rep;
        self.count += 1;
    }

    /// The references.
    pub fn as_slice(&self) -> &[WireRep]
        ensures { result.now ≡ self.now }
    {
        &self.refs[..self.count]
    }
}
