//! A line for each reference of an owner that messages wait for.

ghost use Rattle.std.specs.Prelude.{◌≡◌, ℕ, ◌+◌, ◌-◌, ◌<◌, ◌≤◌, ◌^◌, [], false, length, Some, None, OnOk, slice_get, if◌then◌else◌};
ghost use Rattle.std.specs.Map.{keys_of};
ghost use Rattle.indexmap.specs.IndexMap.{spare};
ghost use Rattle.nob_ids.specs.Names.{is_same};
ghost use Rattle.nob_ids.specs.declared.wire_rep.WireRep.{WireRep as WireRepOf};
ghost use Rattle.nob_rows.specs.Rows.{IsOnce, Puts, row_at};
ghost use Rattle.nob_space_messages.specs.Lines.{HavePlaces, count_of, has_place, is_link, line_or, longer, place_of, stamp_at, stamp_of};
ghost use Rattle.nob_space_messages.specs.declared.owner_lines.Place.{Place as PlaceOf};

use indexmap::IndexMap;
use nob_ids::WireRep;
use nob_rows::Rows;
use std::alloc::{AllocError, Global};
use std::marker::Model;

/// The line of a reference: its number, and how many places it has.
#[derive(Clone, Copy, Debug, PartialEq, Eq)]
pub struct Line {
    pub number: u64,
    pub count: u64,
}

/// A place in a line, by the number of the line, which no stranger chooses.
#[derive(Clone, Copy, Debug, PartialEq, Eq, Hash)]
pub struct Place {
    pub line: u64,
    pub place: u64,
}

/// The line of each reference of an owner that has one, and the stamp that stands at each place.
#[derive(Drop)]
pub struct OwnerLines {
    lines: Rows<Line>,
    links: IndexMap<Place, u64>,
    // The number of the next line, above all that were given: it rises with each place.
    next: u64,
}

impl Model for OwnerLines {
    ghost use Rattle.nob_space_messages.specs.Lines.{OwnerList};

    ghost Value = { OwnerList };

    ghost use Rattle.std.specs.Prelude.{◌-◌, ◌^◌, min};
    ghost use Rattle.indexmap.specs.IndexMap.{spare};

    ghost view = { λ owner. record {
      lines = record { rows = owner.lines.rows; links = owner.links.entries };
      room = min (min owner.lines.room (spare owner.links)) (2 ^ 64 - 1 - owner.next);
    } };

    ghost use Rattle.nob_space_messages.specs.Lines.{AreNumbered};

    ghost invariant = { λ owner. AreNumbered owner.lines.rows owner.links.entries owner.next };
}

impl OwnerLines {
    /// No lines. It takes no memory before the first place.
    pub fn new(alloc: Global) -> OwnerLines
        ensures rows { result.lines.rows ≡ [] }
        ensures links { result.lines.links ≡ [] }
    {
        OwnerLines {
            lines: Rows::new(alloc),
            links: IndexMap::new(alloc),
            next: 0,
        }
    }

    /// How many lines there are. Constant time.
    pub fn len(&self) -> usize
        ensures count { result ≡ length self.now.lines.rows }
        ensures once { IsOnce self.now.lines.rows }
    {
        self.lines.len()
    }

    /// The reference whose line is at a place among the lines. Constant time.
    pub fn rep_at(&self, at: usize) -> WireRep
        requires { at < length self.now.lines.rows }
        ensures { slice_get (keys_of self.now.lines.rows) at ≡ Some result }
    {
        self.lines.rep_at(at)
    }

    /// How many places the line of a reference has. At most 70 steps.
    pub fn count(&self, rep: &WireRep) -> u64
        ensures count { result ≡ count_of self.now.lines.rows rep.now }
        ensures fits { result < 2 ^ 64 }
    {
        match self.lines.get(*rep) {
            Some(line) => line.count,
            None => 0,
        }
    }

    /// The stamp at a place in the line of a reference. At most 70 steps, and one look-up by numbers.
    pub fn link(&self, rep: &WireRep, place: u64) -> Option<u64>
        ensures { result ≡ stamp_at self.now.lines rep.now place }
    {
        let line = self.lines.get(*rep)?;
        let at = Place {
            line: line.number,
            place,
        };
        self.links.get(&at).copied()
    }

    /// Makes room for so many more places. Only memory fails it, or that more places were taken in
    /// all than can be counted; the lines are the same in any case.
    pub fn reserve(&mut self, additional: usize) -> Result<(), AllocError>
        ensures rows { self.new.lines.rows ≡ self.old.lines.rows }
        ensures links { self.new.lines.links ≡ self.old.lines.links }
        ensures ok { OnOk result (additional ≤ self.new.room) }
        ensures room { self.old.room ≤ self.new.room }
    {
        if additional as u64 > u64::MAX - self.next {
            return Err(AllocError);
        }
        self.lines.reserve(additional)?;
        self.links.reserve(additional)
    }

    /// Puts a stamp behind the others in the line of a reference. It takes no memory. At most 140
    /// steps, and one look-up by numbers.
    pub fn push(&mut self, rep: &WireRep, stamp: u64)
        requires room { 0 < self.old.room }
        requires small { count_of self.old.lines.rows rep.now < 2 ^ 64 - 1 }
        ensures counts { (other : WireRepOf) → count_of self.new.lines.rows other
            ≡ (if is_same rep.now other then 1 else 0) + count_of self.old.lines.rows other }
        ensures links { (other : WireRepOf) (place : ℕ) → stamp_at self.new.lines other place
            ≡ (if is_link rep.now (count_of self.old.lines.rows rep.now) other place
            then Some stamp else stamp_at self.old.lines other place) }
        ensures places { HavePlaces self.new.lines.rows }
        ensures room { self.old.room ≤ self.new.room + 1 }
    {
        let place = lengthen(&mut self.lines, self.next, rep);
        let _none = self.links.insert(place, stamp).unwrap();
        self.next += 1;
    }

    /// Takes the line of a reference out. It takes no memory. At most 350 steps, and linear in its
    /// places.
    pub fn clear(&mut self, rep: &WireRep)
        ensures counts { (other : WireRepOf) → count_of self.new.lines.rows other
            ≡ (if is_same rep.now other then 0 else count_of self.old.lines.rows other) }
        ensures links { (other : WireRepOf) (place : ℕ) → is_same rep.now other ≡ false
            → stamp_at self.new.lines other place ≡ stamp_at self.old.lines other place }
        ensures places { HavePlaces self.new.lines.rows }
        ensures room { self.old.room ≤ self.new.room }
    {
        let Some(line) = self.lines.get(*rep) else {
            return;
        };
        remove_links(&mut self.links, line);
        self.lines.take(rep);
    }

    /// Takes all lines out. It takes no memory. Linear in the lines, and in the most places that
    /// there were.
    pub fn clear_all(&mut self)
        ensures rows { self.new.lines.rows ≡ [] }
        ensures links { self.new.lines.links ≡ [] }
        ensures room { self.old.room ≤ self.new.room }
    {
        self.lines.clear();
        self.links.clear();
    }
}

// Makes the line of a reference one place longer, or a line with this number if it has none: that
// place. At most 140 steps.
fn lengthen(lines: &mut Rows<Line>, number: u64, rep: &WireRep) -> Place
    requires room { 0 < lines.old.room }
    requires small { count_of lines.old.rows rep.now < 2 ^ 64 - 1 }
    ensures place { result ≡ place_of (line_or number (row_at lines.old.rows rep.now))
        (count_of lines.old.rows rep.now) }
    ensures puts { Puts lines.old.rows lines.new.rows rep.now
        (Some (longer (line_or number (row_at lines.old.rows rep.now)))) }
    ensures room { lines.old.room ≤ lines.new.room + 1 }
{
    let Some(Line { number, count }) = lines.get(*rep) else {
        lines.push(rep, Line { number, count: 1 });
        return Place {
            line: number,
            place: 0,
        };
    };
    lines.set(
        rep,
        Line {
            number,
            count: count + 1,
        },
    );
    Place {
        line: number,
        place: count,
    }
}

// Takes the places of a line out. Linear in them.
fn remove_links(links: &mut IndexMap<Place, u64>, line: Line)
    ensures links { (other : PlaceOf) → stamp_of links.new.entries other
        ≡ (if has_place line other then None else stamp_of links.old.entries other) }
    ensures room { spare links.old ≤ spare links.new }
{
    for place in 0..line.count {
        let at = Place {
            line: line.number,
            place,
        };
        let _stamp = links.swap_remove(&at);
    }
}
