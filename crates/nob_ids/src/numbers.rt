//! The numbers of items, calls and jobs. Each is any `u64`: which of them can be an item's, a
//! call's or a job's number, the codecs and the space decide where they meet one.

ghost use Rattle.std.specs.Prelude.{◌≡◌};

use std::marker::Model;

/// The number of an item within its session, from 1 on. Contracts see the number.
#[derive(Clone, Copy, Debug, PartialEq, Eq, PartialOrd, Ord, Hash)]
pub struct ItemNo {
    item: u64,
}

impl Model for ItemNo {
    ghost use Rattle.std.specs.Prelude.{ℕ};

    ghost Value = { ℕ };

    ghost view = { λ n. n.item };

    ghost inverse = { λ number. record { item = number } };
}

impl ItemNo {
    /// The item of this number.
    pub fn new(number: u64) -> ItemNo
        ensures { result ≡ number }
    {
        ItemNo { item: number }
    }

    /// The item's number.
    pub fn get(self) -> u64
        ensures { result ≡ self }
    {
        self.item
    }
}

/// The number of a call among the calls of its client, from 1 on. Contracts see the number.
#[derive(Clone, Copy, Debug, PartialEq, Eq, PartialOrd, Ord, Hash)]
pub struct CallNo {
    call: u64,
}

impl Model for CallNo {
    ghost use Rattle.std.specs.Prelude.{ℕ};

    ghost Value = { ℕ };

    ghost view = { λ n. n.call };

    ghost inverse = { λ number. record { call = number } };
}

impl CallNo {
    /// The call of this number.
    pub fn new(number: u64) -> CallNo
        ensures { result ≡ number }
    {
        CallNo { call: number }
    }

    /// The call's number.
    pub fn get(self) -> u64
        ensures { result ≡ self }
    {
        self.call
    }
}

/// The number of a job among the jobs that its space has claimed, from 1 on. Contracts see the
/// number.
#[derive(Clone, Copy, Debug, PartialEq, Eq, PartialOrd, Ord, Hash)]
pub struct JobNo {
    job: u64,
}

impl Model for JobNo {
    ghost use Rattle.std.specs.Prelude.{ℕ};

    ghost Value = { ℕ };

    ghost view = { λ n. n.job };

    ghost inverse = { λ number. record { job = number } };
}

impl JobNo {
    /// The job of this number.
    pub fn new(number: u64) -> JobNo
        ensures { result ≡ number }
    {
        JobNo { job: number }
    }

    /// The job's number.
    pub fn get(self) -> u64
        ensures { result ≡ self }
    {
        self.job
    }
}
