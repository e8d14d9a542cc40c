//! The queues.

ghost use Rattle.std.specs.Prelude.{◌≡◌, ℕ, ◌+◌, ◌-◌, ◌<◌, ◌≤◌, ◌++◌, ◌∷◌, ◌^◌, ◌==◌, [], false, true, length, option_copied, IsOk, IsSome, OnOk, MatchOption, IfSome, Some, None};
ghost use Rattle.std.specs.Borrow.{sem};
ghost use Rattle.std.specs.Map.{remove_entry};
ghost use Rattle.nob_slots.specs.Slots.{item_at, is_number, is_marked, IsAbove, IsFirstMarked, IsRising, NoneMarked, PutsMark};
ghost use Rattle.nob_queues.specs.Keys.{Stands};
ghost use Rattle.nob_queues.specs.Queues.{KeepsBut, SameOthers, marked_at, queue_at, room_at, row_if, rows_at};

use nob_slots::Slots;
use slab::Slab;
use std::alloc::{AllocError, Global};
use std::marker::Model;

/// How many queues there are.
pub const QUEUES: usize = 3;

/// Items in queues, each under a number that rises in its queue, some of them marked. Contracts see
/// each queue as a list of `Slots`, and for how many more items there is room.
///
/// The items stand in one slab, and a queue has their keys. So an item stays where it is as long as it is in a
/// queue, whichever that is.
#[derive(Drop)]
pub struct Queues<T> {
    items: Slab<T>,
    queues: [Slots<usize>; QUEUES],
    // How many more items fit.
    room: usize,
}

impl<T> Model for Queues<T> {
    ghost use Rattle.nob_queues.specs.Queues.{QueueLists, queue_lists_code};

    ghost Value = { QueueLists T };

    ghost coded = { queue_lists_code T.code };

    ghost use Rattle.std.specs.Prelude.{map};
    ghost use Rattle.slab.specs.Slab.{HasRoomFor};
    ghost use Rattle.nob_queues.specs.Keys.{AreKept, queue_of};

    ghost view = { λ q. record {
      queues = map (queue_of q.items.slots) q.queues;
      room = q.room;
    } };

    ghost invariant = { λ q. AreKept q.items.slots q.queues × HasRoomFor q.items q.room };
}

// The key that stands in a queue under a number.
fn key_of(queues: &[Slots<usize>; QUEUES], queue: usize, number: u64) -> usize
    requires queue { queue < 3 }
    requires there { (key : ℕ) × Stands queues.now queue number key }
    ensures key { Stands queues.now queue number result }
    ensures count { length queues.now ≡ 3 }
{
    let Some(key) = queues[queue].get(number) else {
        unreachable!();
    };
    *key
}

impl<T> Queues<T> {
    ghost use Rattle.nob_queues.specs.Lends.{lends_item};

    /// Queues of nothing. They take no memory before the first item.
    pub fn new(alloc: Global) -> Queues<T>
        ensures rows { (queue : ℕ) → rows_at result queue ≡ [] }
        ensures marks { (queue : ℕ) → marked_at result queue ≡ [] }
    {
        Queues {
            items: Slab::new(alloc),
            queues: [Slots::new(alloc), Slots::new(alloc), Slots::new(alloc)],
            room: 0,
        }
    }

    /// How many items a queue has. Constant time.
    pub fn len(&self, queue: usize) -> usize
        requires { queue < 3 }
        ensures count { result ≡ length (rows_at self.now queue) }
        ensures fits { result ≤ 2 ^ 62 }
        ensures rising { IsRising (rows_at self.now queue) }
        ensures there { (number : ℕ) → is_marked (marked_at self.now queue) number ≡ true
            → IsSome (item_at (rows_at self.now queue) number) }
    {
        self.queues[queue].len()
    }

    /// Makes room for so many more items, of whichever queue. Only memory fails it, and the queues
    /// are the same in any case. Constant time on average; an item moves only where the slab grows.
    pub fn reserve(&mut self, additional: usize) -> Result<(), AllocError>
        ensures queues { self.new.queues ≡ self.old.queues }
        ensures ok { OnOk result (additional ≤ self.new.room) }
        ensures succeeds { additional ≤ self.old.room → IsOk result }
        ensures room { self.old.room ≤ self.new.room }
    {
        if additional <= self.room {
            return Ok(());
        }
        self.items.reserve(additional)?;
        self.room = additional;
        Ok(())
    }

    /// Makes room in a queue for so many more items, beside the room for them. Only memory fails it,
    /// and the queue has the same items and marks in any case. Constant time on average; no item
    /// moves.
    pub fn widen(&mut self, queue: usize, additional: usize) -> Result<(), AllocError>
        requires { queue < 3 }
        ensures rows { rows_at self.new queue ≡ rows_at self.old queue }
        ensures marked { marked_at self.new queue ≡ marked_at self.old queue }
        ensures others { SameOthers self.old self.new queue }
        ensures ok { OnOk result (additional ≤ room_at self.new queue) }
        ensures succeeds { additional ≤ room_at self.old queue → IsOk result }
        ensures queue_room { room_at self.old queue ≤ room_at self.new queue }
        ensures room { self.new.room ≡ self.old.room }
    {
        self.queues[queue].reserve(additional)
    }

    /// Puts an item behind all others of a queue, unmarked, where there is room for it and its number
    /// is above theirs. It takes no memory. Constant time.
    pub fn push(&mut self, queue: usize, number: u64, item: T)
        requires queue { queue < 3 }
        requires room { 0 < self.old.room }
        requires queue_room { 0 < room_at self.old queue }
        requires above { IsAbove (rows_at self.old queue) number }
        ensures rows { rows_at self.new queue ≡ rows_at self.old queue ++ (number, item) ∷ [] }
        ensures marked { marked_at self.new queue ≡ marked_at self.old queue }
        ensures others { SameOthers self.old self.new queue }
        ensures queue_room { room_at self.new queue + 1 ≡ room_at self.old queue }
        ensures room { self.new.room + 1 ≡ self.old.room }
    {
        let key = self.items.insert_reserved(item);
        self.queues[queue].push(number, key);
        self.room -= 1;
    }

    /// The item of this number in a queue. Logarithmic in the queue.
    pub fn get(&self, queue: usize, number: u64) -> Option<&T>
        requires { queue < 3 }
        ensures { option_copied result ≡ item_at (rows_at self.now queue) number }
    {
        let Some(key) = self.queues[queue].get(number) else {
            return None;
        };
        self.items.get(*key)
    }

    /// The item of a number that is there in a queue, for writing. Logarithmic in the queue.
    pub fn get_mut(&mut self, queue: usize, number: u64) -> &mut T
        requires queue { queue < 3 }
        requires there { IsSome (item_at (rows_at self.old queue) number) }
        ensures* writes_back { sem 𝓛 (lends_item T.row self.entry queue number result) }
        ensures value { item_at (rows_at self.old queue) number ≡ Some result.now }
        ensures count { length self.old.queues ≡ 3 }
    {
        let key = key_of(&self.queues, queue, number);
        &mut self.items[key]
    }

    /// Marks the item of a number that is there in a queue, or takes its mark away. Logarithmic in
    /// the queue.
    pub fn mark(&mut self, queue: usize, number: u64, on: bool)
        requires queue { queue < 3 }
        requires there { IsSome (item_at (rows_at self.old queue) number) }
        ensures rows { rows_at self.new queue ≡ rows_at self.old queue }
        ensures marked { PutsMark (marked_at self.old queue) (marked_at self.new queue) number on }
        ensures kept { KeepsBut self.old self.new queue }
    {
        self.queues[queue].mark(number, on);
    }

    /// The least number from this one on that is marked in a queue. Logarithmic in the queue, and
    /// then a few words of bits: it passes no item.
    pub fn first_marked(&self, queue: usize, from: u64) -> Option<u64>
        requires { queue < 3 }
        ensures first { MatchOption result (NoneMarked (marked_at self.now queue) from)
            (λ number. IsFirstMarked (marked_at self.now queue) from number) }
        ensures there { IfSome result (λ number. IsSome (item_at (rows_at self.now queue) number)) }
    {
        self.queues[queue].first_marked(from)
    }

    /// Takes the item of this number out of a queue, and its mark: it stands there no longer. It
    /// takes no memory. Logarithmic in the queue, and on average constant time beside that.
    pub fn take(&mut self, queue: usize, number: u64) -> Option<T>
        requires { queue < 3 }
        ensures item { result ≡ item_at (rows_at self.old queue) number }
        ensures rows { rows_at self.new queue
            ≡ remove_entry (is_number number) (rows_at self.old queue) }
        ensures marked { PutsMark (marked_at self.old queue) (marked_at self.new queue) number false }
        ensures kept { KeepsBut self.old self.new queue }
    {
        let Some(key) = self.queues[queue].take(number) else {
            return None;
        };
        Some(self.items.remove(key))
    }

    /// Takes the item of a number from a queue to another one, if it is there: it stands behind all
    /// others there, under a number above theirs, unmarked. The item stays where it is. It takes no
    /// memory. Logarithmic in the queue that it leaves, and on average constant time beside that.
    pub fn shift(&mut self, queue: usize, number: u64, to: usize, under: u64)
        requires queue { queue < 3 }
        requires to { to < 3 }
        requires apart { (to == queue) ≡ false }
        requires queue_room { 0 < room_at self.old to }
        requires above { IsAbove (rows_at self.old to) under }
        ensures from { rows_at self.new queue
            ≡ remove_entry (is_number number) (rows_at self.old queue) }
        ensures to { rows_at self.new to ≡ rows_at self.old to
            ++ row_if under (item_at (rows_at self.old queue) number) }
        ensures marked { PutsMark (marked_at self.old queue) (marked_at self.new queue) number false }
        ensures marked_to { marked_at self.new to ≡ marked_at self.old to }
        ensures others { (other : ℕ) → (other == queue) ≡ false → (other == to) ≡ false
            → queue_at self.new other ≡ queue_at self.old other }
        ensures queue_room { room_at self.new queue ≡ room_at self.old queue }
        ensures room_to { room_at self.new to
            + length (row_if under (item_at (rows_at self.old queue) number))
            ≡ room_at self.old to }
        ensures room { self.new.room ≡ self.old.room }
    {
        let Some(key) = self.queues[queue].take(number) else {
            return;
        };
        self.queues[to].push(under, key);
    }
}
