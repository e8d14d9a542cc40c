//! How often what happened.

ghost use Rattle.std.specs.Prelude.{◌≡◌, ◌-◌, ◌&&◌, nat_le};
ghost use Rattle.nob_rounds.specs.Notes as spec;

use crate::results::{Kind, count_of};
use nob_model_types::Entry;

/// How often what happened in a world.
#[derive(Clone, Copy, Debug, PartialEq, Eq)]
pub struct Facts {
    /// Objects that were exported.
    pub exports: usize,
    /// Replies that were taken.
    pub replies: usize,
    /// Messages that were settled.
    pub settlements: usize,
    /// References that were given up.
    pub cleanings: usize,
    /// Objects that were withdrawn.
    pub withdrawals: usize,
    /// Sessions that were opened anew, counted at each end.
    pub openings: usize,
}

impl Facts {
    /// Whether replies, settlements, cleanings, withdrawals and openings have all come.
    pub fn is_busy(&self) -> bool
        ensures { result ≡ (nat_le 1 self.now.replies && nat_le 1 self.now.settlements
            && nat_le 1 self.now.cleanings && nat_le 1 self.now.withdrawals
            && nat_le 1 self.now.openings) }
    {
        self.replies >= 1
            && self.settlements >= 1
            && self.cleanings >= 1
            && self.withdrawals >= 1
            && self.openings >= 1
    }

    /// How many objects weren't withdrawn.
    pub fn kept(&self) -> usize
        ensures { result ≡ self.now.exports - self.now.withdrawals }
    {
        self.exports.saturating_sub(self.withdrawals)
    }
}

/// How often what happened, by the entries of all spaces. Linear in the entries.
pub fn facts_of(entries: &[Entry]) -> Facts
    ensures { result ≡ spec.facts_of entries.now }
{
    Facts {
        exports: count_of(Kind::Export, entries),
        replies: count_of(Kind::Reply, entries),
        settlements: count_of(Kind::Settlement, entries),
        cleanings: count_of(Kind::Cleaning, entries),
        withdrawals: count_of(Kind::Withdrawal, entries),
        openings: count_of(Kind::Opening, entries),
    }
}

/// How many entries say something new: items came, one was acted on, a message was settled, a
/// reference was given up, a session closed. Linear in the entries.
pub fn news_in(entries: &[Entry]) -> usize
    ensures { result ≡ spec.news_in entries.now }
{
    count_of(Kind::News, entries)
}
