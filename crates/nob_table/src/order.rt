//! The order of last Dirties.

ghost use Rattle.std.specs.Prelude.{◌≡◌, ℕ, ◌==◌, ◌+◌, ◌*◌, ◌<◌, ◌≤◌, ◌^◌, ◌++◌, ◌∷◌, [], length, slice_get, Bool, Some, OnOk, MatchOption, filter, nat_lt, false, if◌then◌else◌, List};
ghost use Rattle.std.specs.Vec.{vec_capacity};
ghost use Rattle.nob_collections.specs.Marks.{has, bound};
ghost use Rattle.nob_ids.specs.declared.wire_rep.WireRep.{WireRep};
ghost use Rattle.nob_table_rows.specs.declared.counts.Counts.{Counts};
ghost use Rattle.nob_table_rows.specs.declared.standing.Surrogate.{Surrogate};
ghost use Rattle.nob_table.specs.Far.{most_owners, AreInOrder, AreSent, HaveMarks, HaveSlots, AreLinked, AreEnds, ArePassing, NonePassing, IsFirstPassing, IsOrdered, is_current, is_idle_in, is_spare_in, passes_slot, passes_at};

use crate::surrogates::Surrogates;
use nob_collections::{Marks, Rows};
use nob_ids::{SpaceId, WireRep};
use nob_table_rows::{Counts, Standing};
use std::alloc::{AllocError, Global};

/// A Dirty that was sent: its place in the order, and the reference that it was for.
#[derive(Clone, Copy, Debug, PartialEq, Eq)]
pub struct Slot {
    /// How many Dirties were sent before.
    pub place: u128,
    /// The reference.
    pub rep: WireRep,
}

/// How many numbers of spaces there are, 0 among them, which no space has.
const OWNERS: usize = SpaceId::MOST as usize + 1;

/// The Dirties sent, in their order. A slot whose surrogate is gone, or has a later Dirty, is a gap.
#[derive(Drop)]
pub struct Order {
    /// The Dirties in the order of their places.
    pub slots: Vec<Slot>,
    /// For each slot: among how many of the first slots all earlier surrogates of its owner are.
    pub before: Vec<usize>,
    /// For each owner: among how many of the first slots all of its surrogates are.
    pub ends: [usize; OWNERS],
    /// The numbers of the slots whose surrogates are granted and without holds.
    pub idle: Marks,
    /// Those of them whose surrogates aren't kept from outside.
    pub spare: Marks,
}

/// A space's number, by which its surrogates are found.
pub fn number_of(owner: SpaceId) -> usize
    ensures value { result ≡ owner }
    ensures small { result < most_owners }
{
    usize::from(owner.get())
}

/// Whether the slot's surrogate is there, and this is its last Dirty.
pub fn is_current(surrogates: &Surrogates, slot: &Slot) -> bool
    ensures { result ≡ is_current surrogates.now.rows slot.now }
{
    match surrogates.get(slot.rep) {
        Some(surrogate) => surrogate.place == slot.place,
        None => false,
    }
}

// Whether the slot's surrogate is there and idle, and whether it isn't kept from outside either.
fn marks_of(counted: &Rows<Counts>, surrogates: &Surrogates, slot: &Slot) -> (bool, bool)
    ensures idle { result.0 ≡ passes_slot (is_idle_in counted.now.rows surrogates.now.rows)
        surrogates.now.rows slot.now }
    ensures spare { result.1 ≡ passes_slot (is_spare_in counted.now.rows surrogates.now.rows
        surrogates.now.kept) surrogates.now.rows slot.now }
{
    let Some(marked) = surrogates.row(slot.rep) else {
        return (false, false);
    };
    let Some(counts) = counted.get(slot.rep) else {
        return (false, false);
    };
    let standing = Standing {
        state: marked.surrogate.grant.state(),
        counts,
    };
    let idle = marked.surrogate.place == slot.place && standing.is_idle();
    (idle, idle && !marked.kept)
}

impl Order {
    /// No Dirty was sent.
    pub fn new(alloc: Global) -> Order
        ensures ordered { IsOrdered [] [] [] result.slots.items result.before.items result.ends
            result.idle result.spare }
        ensures slots { result.slots.items ≡ [] }
        ensures before { result.before.items ≡ [] }
    {
        Order {
            slots: Vec::new(alloc),
            before: Vec::new(alloc),
            ends: [0; OWNERS],
            idle: Marks::new(alloc),
            spare: Marks::new(alloc),
        }
    }

    /// Makes room for so many more slots.
    pub fn reserve(&mut self, additional: usize) -> Result<(), AllocError>
        ensures slots { self.new.slots.items ≡ self.old.slots.items }
        ensures before { self.new.before.items ≡ self.old.before.items }
        ensures ends { self.new.ends ≡ self.old.ends }
        ensures idle { (at : ℕ) → has self.new.idle at ≡ has self.old.idle at }
        ensures spare { (at : ℕ) → has self.new.spare at ≡ has self.old.spare at }
        ensures slots_room { vec_capacity self.old.slots ≤ vec_capacity self.new.slots }
        ensures before_room { vec_capacity self.old.before ≤ vec_capacity self.new.before }
        ensures idle_room { bound self.old.idle ≤ bound self.new.idle }
        ensures spare_room { bound self.old.spare ≤ bound self.new.spare }
        ensures slots_ok { OnOk result (length self.new.slots.items + additional
            ≤ vec_capacity self.new.slots) }
        ensures before_ok { OnOk result (length self.new.before.items + additional
            ≤ vec_capacity self.new.before) }
        ensures idle_ok { OnOk result (length self.new.slots.items + additional
            ≤ bound self.new.idle) }
        ensures spare_ok { OnOk result (length self.new.slots.items + additional
            ≤ bound self.new.spare) }
    {
        self.slots.reserve(additional)?;
        self.before.reserve(additional)?;
        let count = self.slots.len().saturating_add(additional);
        self.idle.reserve(count)?;
        self.spare.reserve(count)
    }

    /// How many slots have a place below this one: the first ones. Logarithmic in the slots.
    pub fn position(&self, place: u128) -> usize
        requires { AreInOrder self.now.slots.items }
        ensures bound { result ≤ length self.now.slots.items }
        ensures below { (at : ℕ) (slot : Slot) → slice_get self.now.slots.items at ≡ Some slot
            → at < result → slot.place < place }
        ensures from { (at : ℕ) (slot : Slot) → slice_get self.now.slots.items at ≡ Some slot
            → result ≤ at → place ≤ slot.place }
    {
        self.slots.partition_point(
            |slot: &Slot| -> bool
                ensures { result ≡ nat_lt slot.now.place place }
            { slot.place < place },
        )
    }

    /// The surrogate with the least place from this one on whose slot is a member, with its place.
    /// Logarithmic in the slots, and then a few words of bits.
    pub fn first(&self, marks: &Marks, place: u128) -> Option<(u128, WireRep)>
        requires { AreInOrder self.now.slots.items }
        ensures { (test : WireRep → Bool) (surrogates : List (WireRep × Surrogate))
            → HaveSlots surrogates self.now.slots.items
            → ArePassing test surrogates self.now.slots.items marks.now
            → MatchOption result (NonePassing test surrogates place)
            (λ found. IsFirstPassing test surrogates place found.0 found.1) }
    {
        let start = self.position(place);
        let Some(at) = marks.first_from(start) else {
            return None;
        };
        let Some(slot) = self.slots.get(at) else {
            return None;
        };
        Some((slot.place, slot.rep))
    }

    /// Writes whether the surrogate of a slot is idle, and whether it is spare. Logarithmic in the
    /// slots.
    pub fn mark(&mut self, counted: &Rows<Counts>, surrogates: &Surrogates, slot: &Slot)
        requires in_order { AreInOrder self.old.slots.items }
        requires there { (at : ℕ) × (slice_get self.old.slots.items at ≡ Some slot.now) }
        requires idle_room { length self.old.slots.items ≤ bound self.old.idle }
        requires spare_room { length self.old.slots.items ≤ bound self.old.spare }
        ensures idle { (at : ℕ) → slice_get self.old.slots.items at ≡ Some slot.now
            → (other : ℕ) → has self.new.idle other ≡ (if other == at then passes_slot
            (is_idle_in counted.now.rows surrogates.now.rows) surrogates.now.rows slot.now
            else has self.old.idle other) }
        ensures spare { (at : ℕ) → slice_get self.old.slots.items at ≡ Some slot.now
            → (other : ℕ) → has self.new.spare other ≡ (if other == at then passes_slot
            (is_spare_in counted.now.rows surrogates.now.rows surrogates.now.kept)
            surrogates.now.rows slot.now else has self.old.spare other) }
        ensures idle_bound { bound self.new.idle ≡ bound self.old.idle }
        ensures spare_bound { bound self.new.spare ≡ bound self.old.spare }
        ensures slots { self.new.slots ≡ self.old.slots }
        ensures before { self.new.before ≡ self.old.before }
        ensures ends { self.new.ends ≡ self.old.ends }
    {
        let at = self.position(slot.place);
        let (idle, spare) = marks_of(counted, surrogates, slot);
        self.idle.write(at, idle);
        self.spare.write(at, spare);
    }

    /// The slot of one Dirty more.
    pub fn push(&mut self, slot: Slot)
        requires slots_room { length self.old.slots.items < vec_capacity self.old.slots }
        requires before_room { length self.old.before.items < vec_capacity self.old.before }
        requires same { length self.old.before.items ≡ length self.old.slots.items }
        ensures slots { self.new.slots.items ≡ self.old.slots.items ++ slot ∷ [] }
        ensures len { length self.new.before.items ≡ length self.old.before.items + 1 }
        ensures idle { self.new.idle ≡ self.old.idle }
        ensures spare { self.new.spare ≡ self.old.spare }
        ensures linked { (surrogates : List (WireRep × Surrogate))
            → AreLinked (self.old.slots.items ++ slot ∷ []) surrogates self.old.before.items
            (length self.old.slots.items)
            → AreEnds (self.old.slots.items ++ slot ∷ []) surrogates self.old.ends
            (length self.old.slots.items)
            → AreLinked self.new.slots.items surrogates self.new.before.items
            (length self.new.slots.items)
            × AreEnds self.new.slots.items surrogates self.new.ends (length self.new.slots.items) }
        ensures slots_kept { vec_capacity self.old.slots ≤ vec_capacity self.new.slots }
        ensures before_kept { vec_capacity self.old.before ≤ vec_capacity self.new.before }
    {
        let at = self.slots.len();
        self.slots.push(slot).unwrap();
        self.before.push(0).unwrap();
        self.link(at);
    }

    // Ties a slot to the earlier ones of its owner.
    fn link(&mut self, at: usize)
        requires at { at < length self.old.slots.items }
        requires same { length self.old.before.items ≡ length self.old.slots.items }
        ensures slots { self.new.slots ≡ self.old.slots }
        ensures idle { self.new.idle ≡ self.old.idle }
        ensures spare { self.new.spare ≡ self.old.spare }
        ensures len { length self.new.before.items ≡ length self.old.before.items }
        ensures kept { vec_capacity self.new.before ≡ vec_capacity self.old.before }
        ensures linked { (surrogates : List (WireRep × Surrogate))
            → AreLinked self.old.slots.items surrogates self.old.before.items at
            → AreEnds self.old.slots.items surrogates self.old.ends at
            → AreLinked self.new.slots.items surrogates self.new.before.items (at + 1)
            × AreEnds self.new.slots.items surrogates self.new.ends (at + 1) }
    {
        let owner = number_of(self.slots[at].rep.owner);
        self.before[at] = self.ends[owner];
        self.ends[owner] = at + 1;
    }

    /// Closes the gaps once they are more than half.
    pub fn tidy(&mut self, counted: &Rows<Counts>, surrogates: &Surrogates)
        requires ordered { IsOrdered counted.now.rows surrogates.now.rows surrogates.now.kept
            self.old.slots.items self.old.before.items self.old.ends self.old.idle self.old.spare }
        requires idle_room { length self.old.slots.items ≤ bound self.old.idle }
        requires spare_room { length self.old.slots.items ≤ bound self.old.spare }
        ensures ordered { IsOrdered counted.now.rows surrogates.now.rows surrogates.now.kept
            self.new.slots.items self.new.before.items self.new.ends self.new.idle self.new.spare }
        ensures sent { (dirties : ℕ) → AreSent self.old.slots.items dirties
            → AreSent self.new.slots.items dirties }
        ensures len { length self.new.slots.items ≤ length self.old.slots.items }
        ensures few { length self.new.slots.items ≤ 2 * length surrogates.now.rows + 1 }
        ensures marks { HaveMarks surrogates.now.rows surrogates.now.kept }
        ensures slots_kept { vec_capacity self.new.slots ≡ vec_capacity self.old.slots }
        ensures before_kept { vec_capacity self.new.before ≡ vec_capacity self.old.before }
        ensures idle_kept { bound self.new.idle ≡ bound self.old.idle }
        ensures spare_kept { bound self.new.spare ≡ bound self.old.spare }
    {
        if self.slots.len() / 2 > surrogates.len() {
            self.close_gaps(counted, surrogates);
        }
    }

    // Closes the gaps.
    fn close_gaps(&mut self, counted: &Rows<Counts>, surrogates: &Surrogates)
        requires ordered { IsOrdered counted.now.rows surrogates.now.rows surrogates.now.kept
            self.old.slots.items self.old.before.items self.old.ends self.old.idle self.old.spare }
        requires idle_room { length self.old.slots.items ≤ bound self.old.idle }
        requires spare_room { length self.old.slots.items ≤ bound self.old.spare }
        ensures ordered { IsOrdered counted.now.rows surrogates.now.rows surrogates.now.kept
            self.new.slots.items self.new.before.items self.new.ends self.new.idle self.new.spare }
        ensures slots { self.new.slots.items
            ≡ filter (is_current surrogates.now.rows) self.old.slots.items }
        ensures slots_kept { vec_capacity self.new.slots ≡ vec_capacity self.old.slots }
        ensures before_kept { vec_capacity self.new.before ≡ vec_capacity self.old.before }
        ensures idle_kept { bound self.new.idle ≡ bound self.old.idle }
        ensures spare_kept { bound self.new.spare ≡ bound self.old.spare }
    {
        let all = self.slots.len();
        self.slots.retain(
            |slot: &Slot| -> bool
                ensures { result ≡ is_current surrogates.entry.now.rows slot.now }
            { is_current(surrogates, slot) },
        );
        self.before.truncate(self.slots.len());
        self.ends = [0; OWNERS];
        mark_all(
            &mut self.idle,
            &mut self.spare,
            &self.slots,
            counted,
            surrogates,
            all,
        );
        self.link_all();
    }

    // Ties all slots to the earlier ones of their owners.
    fn link_all(&mut self)
        requires same { length self.old.before.items ≡ length self.old.slots.items }
        ensures slots { self.new.slots ≡ self.old.slots }
        ensures idle { self.new.idle ≡ self.old.idle }
        ensures spare { self.new.spare ≡ self.old.spare }
        ensures len { length self.new.before.items ≡ length self.old.before.items }
        ensures kept { vec_capacity self.new.before ≡ vec_capacity self.old.before }
        ensures linked { (surrogates : List (WireRep × Surrogate))
            → AreEnds self.old.slots.items surrogates self.old.ends 0
            → AreLinked self.old.slots.items surrogates self.new.before.items
            (length self.old.slots.items)
            × AreEnds self.old.slots.items surrogates self.new.ends
            (length self.old.slots.items) }
    {
        for at in 0..self.slots.len() {
            self.link(at);
        }
    }
}

// Writes which of the slots are idle and spare, where so many were there.
fn mark_all(
    idle: &mut Marks,
    spare: &mut Marks,
    slots: &[Slot],
    counted: &Rows<Counts>,
    surrogates: &Surrogates,
    all: usize,
)
    requires len { length slots.now ≤ all }
    requires idle_room { all ≤ bound idle.old }
    requires spare_room { all ≤ bound spare.old }
    requires idle_past { (at : ℕ) → all ≤ at → has idle.old at ≡ false }
    requires spare_past { (at : ℕ) → all ≤ at → has spare.old at ≡ false }
    ensures idle { ArePassing (is_idle_in counted.now.rows surrogates.now.rows)
        surrogates.now.rows slots.now idle.new }
    ensures spare { ArePassing (is_spare_in counted.now.rows surrogates.now.rows
        surrogates.now.kept) surrogates.now.rows slots.now spare.new }
    ensures idle_bound { bound idle.new ≡ bound idle.old }
    ensures spare_bound { bound spare.new ≡ bound spare.old }
{
    for at in 0..all {
        let (is_idle, is_spare) = marks_at(slots, at, counted, surrogates);
        idle.write(at, is_idle);
        spare.write(at, is_spare);
    }
}

// Whether there is a slot of this number, and its surrogate is idle, and whether it is spare.
fn marks_at(
    slots: &[Slot],
    at: usize,
    counted: &Rows<Counts>,
    surrogates: &Surrogates,
) -> (bool, bool)
    ensures idle { result.0 ≡ passes_at (is_idle_in counted.now.rows surrogates.now.rows)
        surrogates.now.rows (slice_get slots.now at) }
    ensures spare { result.1 ≡ passes_at (is_spare_in counted.now.rows surrogates.now.rows
        surrogates.now.kept) surrogates.now.rows (slice_get slots.now at) }
{
    match slots.get(at) {
        Some(slot) => marks_of(counted, surrogates, slot),
        None => (false, false),
    }
}
