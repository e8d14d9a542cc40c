//! A live object of the space.

ghost use Rattle.std.specs.Prelude.{◌≡◌};
ghost use Rattle.nob_table_rows.specs.Counts.{is_unheld_object, is_spare_object};

use crate::counts::Counts;

/// A live object: how often the reference to it is held, and whether it is kept from outside.
#[derive(Clone, Copy, Debug, PartialEq, Eq)]
pub struct Object {
    /// How often the reference is held.
    pub counts: Counts,
    /// Whether the space keeps the object though nothing holds it.
    pub kept: bool,
}

impl Object {
    /// Whether nothing holds the object.
    pub fn is_unheld(&self) -> bool
        ensures { result ≡ is_unheld_object self.now }
    {
        !self.counts.is_held()
    }

    /// Whether nothing holds the object, and it isn't kept from outside.
    pub fn is_spare(&self) -> bool
        ensures { result ≡ is_spare_object self.now }
    {
        self.is_unheld() && !self.kept
    }
}
