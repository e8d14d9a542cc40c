//! How many copies of each owner's references there are.

ghost use Rattle.std.specs.Prelude.{◌≡◌, ◌+◌, ◌-◌, ◌<◌, ◌≤◌, ◌^◌, ℕ, nat_lt, length, filter, if◌then◌else◌};
ghost use Rattle.nob_space_messages.specs.Waiting as words;
ghost use Rattle.nob_space_messages.specs.Copies.{count_at};

use crate::owners::OWNERS;
use nob_ids::SpaceId;
use nob_model_types::message::RefCopy;

/// No copies of any owner's.
pub fn no_copies() -> [u64; OWNERS]
    ensures { (owner : ℕ) → count_at result owner ≡ 0 }
{
    [0; OWNERS]
}

/// Whether there are copies of this owner's. Constant time.
pub fn has_copies(counts: &[u64; OWNERS], owner: SpaceId) -> bool
    ensures { result ≡ nat_lt 0 (count_at counts.now owner) }
{
    counts[owner.get() as usize] > 0
}

// Counts a copy, if its reference is counted.
fn count_one(counts: &mut [u64; OWNERS], copy: &RefCopy)
    requires { count_at counts.old copy.now.rep.owner < 2 ^ 64 - 1 }
    ensures { (owner : ℕ) → count_at counts.new owner
        ≡ count_at counts.old owner + (if words.is_copy_of owner copy.now then 1 else 0) }
{
    if copy.rep.is_counted() {
        counts[copy.rep.owner.get() as usize] += 1;
    }
}

// Counts a copy no longer.
fn uncount_one(counts: &mut [u64; OWNERS], copy: &RefCopy)
    requires { (if words.is_copy_of copy.now.rep.owner copy.now then 1 else 0)
        ≤ count_at counts.old copy.now.rep.owner }
    ensures { (owner : ℕ) → count_at counts.old owner
        ≡ count_at counts.new owner + (if words.is_copy_of owner copy.now then 1 else 0) }
{
    if copy.rep.is_counted() {
        counts[copy.rep.owner.get() as usize] -= 1;
    }
}

/// Counts these copies. Linear in them.
pub fn count_all(counts: &mut [u64; OWNERS], copies: &[RefCopy])
    requires small { (owner : ℕ) → count_at counts.old owner + length copies.now < 2 ^ 64 }
    ensures { (owner : ℕ) → count_at counts.new owner
        ≡ count_at counts.old owner + length (filter (words.is_copy_of owner) copies.now) }
{
    for copy in copies {
        count_one(counts, copy);
    }
}

/// Counts these copies no longer. Linear in them.
pub fn uncount_all(counts: &mut [u64; OWNERS], copies: &[RefCopy])
    requires some { (owner : ℕ) → length (filter (words.is_copy_of owner) copies.now)
        ≤ count_at counts.old owner }
    ensures { (owner : ℕ) → count_at counts.old owner
        ≡ count_at counts.new owner + length (filter (words.is_copy_of owner) copies.now) }
{
    for copy in copies {
        uncount_one(counts, copy);
    }
}
