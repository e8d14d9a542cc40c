//! How often references came into the hand, and how often they were released.

ghost use Rattle.std.specs.Prelude.{◌≡◌, [], IfOk};
ghost use Rattle.nob_check_index.specs.Counts as words;

use indexmap::IndexMap;
use nob_ids::WireRep;
use nob_model_types::Deed;
use std::alloc::{AllocError, Global};
use std::marker::Model;

/// How often each reference was counted. Contracts see the pairs, in the order in which the
/// references came.
pub struct RefCounts {
    map: IndexMap<WireRep, u64>,
}

// By hand, so that the table is taken apart here alone and not at each end of each caller.
impl Drop for RefCounts {
    fn drop(self) {
        let RefCounts { map: _ } = self;
    }
}

impl Model for RefCounts {
    ghost use Rattle.std.specs.Prelude.{ℕ, List};
    ghost use Rattle.nob_ids.specs.declared.wire_rep.WireRep.{WireRep};

    ghost Value = { List (WireRep × ℕ) };

    ghost view = { λ counts. counts.map.entries };
}

impl RefCounts {
    /// Nothing was counted.
    pub fn none(alloc: Global) -> RefCounts
        ensures { result ≡ [] }
    {
        RefCounts {
            map: IndexMap::new(alloc),
        }
    }

    /// The count of a reference. Constant time on average.
    pub fn count(&self, rep: &WireRep) -> u64
        ensures { result ≡ words.count_in rep.now self.now }
    {
        match self.map.get(rep) {
            Some(count) => *count,
            None => 0,
        }
    }

    // These with another count of a reference.
    fn with_count(self, rep: WireRep, count: u64) -> Result<RefCounts, AllocError>
        ensures { IfOk result (λ counts. counts ≡ words.with_count rep count self) }
    {
        let RefCounts { mut map } = self;
        map.insert(rep, count)?;
        Ok(RefCounts { map })
    }
}

// These with a reference once more. No journal has so many that they can't be counted.
fn with_one(rep: &WireRep, counts: RefCounts) -> Result<RefCounts, AllocError>
    ensures { IfOk result (λ more. more ≡ words.with_one rep.now counts) }
{
    let Some(count) = counts.count(rep).checked_add(1) else {
        return Err(AllocError);
    };
    counts.with_count(*rep, count)
}

// These with each of some references once more: a value has few.
fn with_all(reps: &[WireRep], counts: RefCounts) -> Result<RefCounts, AllocError>
    ensures { IfOk result (λ more. more ≡ words.with_all reps.now counts) }
{
    match reps {
        [] => Ok(counts),
        [rep, others @ ..] => {
            let more = with_one(rep, counts)?;
            with_all(others, more)
        }
    }
}

// How often references came into the hand, after a deed.
fn gains_after(alloc: Global, deed: &Deed, counts: RefCounts) -> Result<RefCounts, AllocError>
    ensures { IfOk result (λ after. after ≡ words.gains_after deed.now counts) }
{
    match deed {
        Deed::Export(rep) => with_one(rep, counts),
        Deed::Dup(rep) => with_one(rep, counts),
        Deed::TakeReply(_, _, value) => {
            let reps = nob_pickle::refs_of(alloc, value)?;
            with_all(reps.as_slice(), counts)
        }
        _ => Ok(counts),
    }
}

// How often references were released, after a deed.
fn releases_after(deed: &Deed, counts: RefCounts) -> Result<RefCounts, AllocError>
    ensures { IfOk result (λ after. after ≡ words.releases_after deed.now counts) }
{
    match deed {
        Deed::Release(rep) => with_one(rep, counts),
        _ => Ok(counts),
    }
}

/// How often references came into the hand, and how often they were released.
#[derive(Drop)]
pub struct HandCounts {
    /// How often each came into it.
    pub gains: RefCounts,
    /// How often each was released.
    pub releases: RefCounts,
}

impl HandCounts {
    /// Nothing came, and nothing was released.
    pub fn none(alloc: Global) -> HandCounts
        ensures { result ≡ record { gains = []; releases = [] } }
    {
        HandCounts {
            gains: RefCounts::none(alloc),
            releases: RefCounts::none(alloc),
        }
    }

    /// The counts after a deed. Only memory fails it. It looks up each reference that comes or
    /// goes.
    pub fn after(self, alloc: Global, deed: &Deed) -> Result<HandCounts, AllocError>
        ensures { IfOk result (λ after. after
            ≡ record {
              gains = words.gains_after deed.now self.gains;
              releases = words.releases_after deed.now self.releases;
            }) }
    {
        let HandCounts { gains, releases } = self;
        let gains = gains_after(alloc, deed, gains)?;
        let releases = releases_after(deed, releases)?;
        Ok(HandCounts { gains, releases })
    }
}
