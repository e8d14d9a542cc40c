//! A list of which only the last part has bytes.

ghost use Rattle.std.specs.Prelude.{◌≡◌, ◌↔◌, ◌<◌, ◌+◌, ◌-◌, ◌^◌, ◌++◌, ◌∷◌, [], List, true, length, slice_get, Some, None, IfSome, OnOk};

use std::alloc::{AllocError, Global};
use std::marker::Model;
use std::mem;
use std::snapshot::Snapshot;

/// A list has fewer items than this.
const MAX_LEN: u64 = 1 << 62;

/// A list of which the last items have bytes, or none. Contracts see all of it.
#[cycle(past)]
#[derive(Drop)]
pub struct Past<T: Drop> {
    earlier: Link<T>,
    kept: Vec<T>,
    len: u64,
}

// What was let go.
#[cycle(past)]
#[derive(Drop)]
enum Link<T: Drop> {
    Nothing,
    // A list that was let go.
    List(Snapshot<Past<T>>),
    // A list, and one item behind it that never was in it.
    Item(Snapshot<Past<T>>, Snapshot<T>),
}

impl<T: Drop> Model for Past<T> {
    ghost use Rattle.std.specs.Prelude.{◌≡◌, ◌++◌, ◌-◌, length, vec_capacity};
    ghost use Rattle.nob_past.specs.Lists.{Listed, count};

    ghost Value = { Listed T };

    ghost use Rattle.nob_past.specs.Links.{items, IsFollowed};

    ghost view = { λ past. record {
      items = items past.earlier ++ past.kept.items;
      gone = length (items past.earlier);
      room = vec_capacity past.kept - length past.kept.items;
    } };

    ghost invariant = { λ past. (past.len ≡ length (items past.earlier ++ past.kept.items))
        × IsFollowed past.earlier past.kept.items };

    ghost size = { count };

    ghost use Rattle.std.proofs.Common.{arith, length-append};

    ghost size_decreases = { λ a h. Prim.grind (arith, length-append) };
}

impl<T: Drop> Past<T> {
    /// No item yet. It takes no memory.
    pub fn new(alloc: Global) -> Past<T>
        ensures items { result.items ≡ [] }
        ensures gone { result.gone ≡ 0 }
    {
        Past {
            earlier: Link::Nothing,
            kept: Vec::new(alloc),
            len: 0,
        }
    }

    /// How many items there are, those too that were let go.
    pub fn len(&self) -> u64
        ensures { result ≡ length self.now.items }
    {
        self.len
    }

    /// The last items: those that have bytes.
    pub fn kept(&self) -> &[T]
        ensures { (before : List T) × (self.now.items ≡ before ++ result.now)
            × (length before ≡ self.now.gone) }
    {
        self.kept.as_slice()
    }

    /// The newest item, where it has bytes.
    pub fn last(&self) -> Option<&T>
        ensures some { IfSome result (λ last.
            slice_get self.now.items (length self.now.items - 1) ≡ Some last.now) }
        ensures none { result ≡ None → self.now.gone ≡ length self.now.items }
    {
        self.kept.last()
    }

    /// All items, where none was let go.
    pub fn whole(&self) -> Option<&[T]>
        ensures some { IfSome result (λ whole. whole.now ≡ self.now.items) }
        ensures none { result ≡ None → 0 < self.now.gone }
    {
        if self.len != self.kept.len() as u64 {
            return None;
        }
        Some(self.kept.as_slice())
    }

    /// The last items: those that have bytes.
    pub fn into_kept(self) -> Vec<T>
        ensures { (before : List T) × (self.items ≡ before ++ result.items)
            × (length before ≡ self.gone) }
    {
        let Past {
            earlier: _,
            kept,
            len: _,
        } = self;
        kept
    }

    /// A place for one more. Only memory fails it, or that there are 2^62 items.
    pub fn reserve(&mut self) -> Result<(), AllocError>
        ensures items { self.new.items ≡ self.old.items }
        ensures gone { self.new.gone ≡ self.old.gone }
        ensures room { OnOk result (0 < self.new.room) }
        ensures few { OnOk result (length self.new.items < 2 ^ 62) }
    {
        if self.len >= MAX_LEN {
            return Err(AllocError);
        }
        self.kept.reserve(1)
    }

    /// Whether there is a place for one more.
    pub fn has_room(&self) -> bool
        ensures { (result ≡ true) ↔ ((0 < self.now.room) × (length self.now.items < 2 ^ 62)) }
    {
        self.len < MAX_LEN && self.kept.len() < self.kept.capacity()
    }

    /// One more behind the others, at the place that there is.
    pub fn push_reserved(&mut self, item: T)
        requires room { 0 < self.old.room }
        requires few { length self.old.items < 2 ^ 63 }
        ensures items { self.new.items ≡ self.old.items ++ item ∷ [] }
        ensures gone { self.new.gone ≡ self.old.gone }
    {
        self.len += 1;
        self.kept.push_reserved(item);
    }

    /// One more behind the others, at the place that there is; the others are let go.
    pub fn put_reserved(&mut self, item: T)
        requires room { 0 < self.old.room }
        requires few { length self.old.items < 2 ^ 63 }
        ensures items { self.new.items ≡ self.old.items ++ item ∷ [] }
        ensures gone { self.new.gone ≡ length self.old.items }
    {
        let earlier = Snapshot::of(&*self);
        self.earlier = Link::List(earlier);
        self.kept.clear();
        self.len += 1;
        self.kept.push_reserved(item);
    }

    /// One more behind the others, at the place that there is; all that have bytes, this one too, are
    /// handed out, and contracts see them still. It takes no memory.
    pub fn hand_out(&mut self, item: T) -> Vec<T>
        requires room { 0 < self.old.room }
        requires few { length self.old.items < 2 ^ 63 }
        ensures items { self.new.items ≡ self.old.items ++ item ∷ [] }
        ensures gone { self.new.gone ≡ length self.new.items }
        ensures out { (before : List T) × (self.new.items ≡ before ++ result.items)
            × (length before ≡ self.old.gone) }
    {
        let alloc = *self.kept.allocator();
        let earlier = Snapshot::of(&*self);
        let newest = Snapshot::of(&item);
        self.earlier = Link::Item(earlier, newest);
        self.len += 1;
        self.kept.push_reserved(item);
        mem::replace(&mut self.kept, Vec::new(alloc))
    }

    /// One more behind the others, of which no bytes are kept, as of none before it.
    pub fn pass(&mut self, item: &T)
        requires few { length self.old.items < 2 ^ 63 }
        ensures items { self.new.items ≡ self.old.items ++ item.now ∷ [] }
        ensures gone { self.new.gone ≡ length self.new.items }
    {
        let earlier = Snapshot::of(&*self);
        let one = Snapshot::of(item);
        self.earlier = Link::Item(earlier, one);
        self.kept.clear();
        self.len += 1;
    }
}
