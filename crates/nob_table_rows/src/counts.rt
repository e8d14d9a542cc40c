//! How often a reference is held.

ghost use Rattle.std.specs.Prelude.{◌≡◌, Some, None, MatchResult};
ghost use Rattle.nob_table_rows.specs.Counts.{hold_limit, release_fault, more, fewer, is_held};

use crate::fault::TableFault;

/// One of the two counts of a reference.
#[derive(Clone, Copy, Debug, PartialEq, Eq)]
pub enum Part {
    /// The holds of the application.
    Hand,
    /// The holds of messages and jobs.
    Lent,
}

/// How often a reference is held.
#[derive(Clone, Copy, Debug, PartialEq, Eq)]
pub struct Counts {
    /// The holds of the application: at most 2^32 - 1.
    pub hand: u32,
    /// The holds of messages and jobs.
    pub lent: u64,
}

impl Counts {
    /// Held by nobody.
    pub const NONE: Counts = Counts { hand: 0, lent: 0 };

    /// Whether anything holds the reference.
    pub fn is_held(&self) -> bool
        ensures { result ≡ is_held self.now }
    {
        self.hand != 0 || self.lent != 0
    }

    /// One hold more in this part: B3 where the part is full.
    pub fn more(self, part: Part) -> Result<Counts, TableFault>
        ensures { MatchResult result (λ counts. (hold_limit part self ≡ None)
            × (counts ≡ more part self)) (λ fault. hold_limit part self ≡ Some fault) }
    {
        match part {
            Part::Hand if self.hand == u32::MAX => Err(TableFault::Limit),
            Part::Lent if self.lent == u64::MAX => Err(TableFault::Limit),
            Part::Hand => Ok(Counts {
                hand: self.hand + 1,
                lent: self.lent,
            }),
            Part::Lent => Ok(Counts {
                hand: self.hand,
                lent: self.lent + 1,
            }),
        }
    }

    /// One hold less in this part: B2 where the part is 0.
    pub fn fewer(self, part: Part) -> Result<Counts, TableFault>
        ensures { MatchResult result (λ counts. (release_fault part self ≡ None)
            × (counts ≡ fewer part self)) (λ fault. release_fault part self ≡ Some fault) }
    {
        match part {
            Part::Hand if self.hand == 0 => Err(TableFault::NotHeld),
            Part::Lent if self.lent == 0 => Err(TableFault::NotHeld),
            Part::Hand => Ok(Counts {
                hand: self.hand - 1,
                lent: self.lent,
            }),
            Part::Lent => Ok(Counts {
                hand: self.hand,
                lent: self.lent - 1,
            }),
        }
    }
}
