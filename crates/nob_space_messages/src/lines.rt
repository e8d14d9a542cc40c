//! The lines of all owners' references.

ghost use Rattle.std.specs.Prelude.{◌≡◌, ℕ, ◌+◌, ◌-◌, ◌<◌, ◌≤◌, ◌^◌, ◌==◌, ◌&&◌, [], false, length, Some, IsOk, OnOk, slice_get, if◌then◌else◌};
ghost use Rattle.std.specs.List.{list_any};
ghost use Rattle.std.specs.Map.{keys_of};
ghost use Rattle.nob_ids.specs.Names.{is_same};
ghost use Rattle.nob_ids.specs.declared.wire_rep.WireRep.{WireRep as WireRepOf};
ghost use Rattle.nob_rows.specs.Rows.{IsOnce};
ghost use Rattle.nob_space_messages.specs.Lines.{AreAwaited, has_line, is_link, lines_of, link_at, places_for, reps_in};

use crate::owner_lines::OwnerLines;
use crate::owners::{make_owners, widen};
use nob_ids::{SpaceId, WireRep};
use std::alloc::{AllocError, Global};
use std::marker::Model;

// For how many more places the lines of each owner are made to have room at least.
const MORE: usize = 16;

/// A line for each reference that messages wait for, owner by owner.
pub struct Lines {
    alloc: Global,
    // Those of each owner's references, at its number.
    owners: Vec<OwnerLines>,
    // How many more places fit in the lines of each owner.
    room: usize,
}

// By hand, so that the lines are taken apart here alone and not at each end of each caller.
impl Drop for Lines {
    fn drop(self) {
        let Lines {
            alloc: _,
            owners: _,
            room: _,
        } = self;
    }
}

impl Model for Lines {
    ghost use Rattle.nob_space_messages.specs.Lines.{AreOwners, LineList, lists_of};

    ghost Value = { LineList };

    ghost view = { λ lines. lists_of lines.owners.items lines.room };

    ghost invariant = { λ lines. AreOwners lines.owners.items lines.room };
}

impl Lines {
    /// No lines. It takes no memory before the first place.
    pub fn new(alloc: Global) -> Lines
        ensures { result.owners ≡ [] }
    {
        Lines {
            alloc,
            owners: Vec::new(alloc),
            room: 0,
        }
    }

    /// How many lines the references of an owner have. Constant time.
    pub fn len_of(&self, owner: SpaceId) -> usize
        ensures count { result ≡ length (lines_of self.now owner).rows }
        ensures once { IsOnce (lines_of self.now owner).rows }
        ensures reps { (rep : WireRepOf) → list_any (is_same rep)
            (keys_of (lines_of self.now owner).rows) ≡ (rep.owner == owner && has_line self.now rep) }
    {
        match self.owners.get(owner.get() as usize) {
            Some(lines) => lines.len(),
            None => 0,
        }
    }

    /// The reference whose line is at a place among the lines of an owner. Constant time.
    pub fn rep_at(&self, owner: SpaceId, at: usize) -> WireRep
        requires { at < length (lines_of self.now owner).rows }
        ensures { slice_get (keys_of (lines_of self.now owner).rows) at ≡ Some result }
    {
        let Some(lines) = self.owners.get(owner.get() as usize) else {
            unreachable!();
        };
        lines.rep_at(at)
    }

    /// How many places the line of a reference has. At most 70 steps.
    pub fn count(&self, rep: &WireRep) -> u64
        ensures count { result ≡ places_for self.now rep.now }
        ensures fits { result < 2 ^ 64 }
    {
        match self.owners.get(rep.owner.get() as usize) {
            Some(lines) => lines.count(rep),
            None => 0,
        }
    }

    /// The stamp at a place in the line of a reference. At most 70 steps, and one look-up by numbers.
    pub fn link(&self, rep: &WireRep, place: u64) -> Option<u64>
        ensures { result ≡ link_at self.now rep.now place }
    {
        let Some(lines) = self.owners.get(rep.owner.get() as usize) else {
            return None;
        };
        lines.link(rep, place)
    }

    /// Makes room for so many more places, of whichever owner. Only memory fails it, or that more
    /// places were taken in all than can be counted; the lines are the same in any case. Constant time
    /// on average: it looks at each owner's lines once for sixteen places.
    pub fn reserve(&mut self, additional: usize) -> Result<(), AllocError>
        ensures lines { (owner : ℕ) → lines_of self.new owner ≡ lines_of self.old owner }
        ensures reps { reps_in self.new.owners ≡ reps_in self.old.owners }
        ensures ok { OnOk result (additional ≤ self.new.room) }
        ensures succeeds { additional ≤ self.old.room → IsOk result }
        ensures room { self.old.room ≤ self.new.room }
    {
        if additional <= self.room {
            return Ok(());
        }
        make_owners(self.alloc, &mut self.owners)?;
        let more = additional.max(MORE);
        widen(&mut self.owners, more)?;
        self.room = more;
        Ok(())
    }

    /// Puts a stamp behind the others in the line of a reference. It takes no memory. At most 140
    /// steps, and one look-up by numbers.
    pub fn push(&mut self, rep: &WireRep, stamp: u64)
        requires room { 0 < self.old.room }
        requires small { places_for self.old rep.now < 2 ^ 64 - 1 }
        ensures counts { (other : WireRepOf) → places_for self.new other
            ≡ (if is_same rep.now other then 1 else 0) + places_for self.old other }
        ensures links { (other : WireRepOf) (place : ℕ) → link_at self.new other place
            ≡ (if is_link rep.now (places_for self.old rep.now) other place
            then Some stamp else link_at self.old other place) }
        ensures awaited { AreAwaited self.new }
        ensures room { self.new.room + 1 ≡ self.old.room }
    {
        let place = rep.owner.get() as usize;
        self.owners[place].push(rep, stamp);
        self.room -= 1;
    }

    /// Takes the line of a reference out. It takes no memory. At most 350 steps, and linear in its
    /// places.
    pub fn clear(&mut self, rep: &WireRep)
        ensures counts { (other : WireRepOf) → places_for self.new other
            ≡ (if is_same rep.now other then 0 else places_for self.old other) }
        ensures links { (other : WireRepOf) (place : ℕ) → is_same rep.now other ≡ false
            → link_at self.new other place ≡ link_at self.old other place }
        ensures awaited { AreAwaited self.new }
        ensures room { self.new.room ≡ self.old.room }
    {
        let place = rep.owner.get() as usize;
        if place >= self.owners.len() {
            return;
        }
        self.owners[place].clear(rep);
    }

    /// Takes the lines of an owner's references out. It takes no memory. Linear in them, and in the
    /// most places that they had.
    pub fn clear_of(&mut self, owner: SpaceId)
        ensures counts { (other : WireRepOf) → places_for self.new other
            ≡ (if other.owner == owner then 0 else places_for self.old other) }
        ensures links { (other : WireRepOf) (place : ℕ) → (other.owner == owner) ≡ false
            → link_at self.new other place ≡ link_at self.old other place }
        ensures awaited { AreAwaited self.new }
        ensures room { self.new.room ≡ self.old.room }
    {
        let place = owner.get() as usize;
        if place >= self.owners.len() {
            return;
        }
        self.owners[place].clear_all();
    }
}
