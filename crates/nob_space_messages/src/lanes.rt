//! A lane for each target.

ghost use Rattle.std.specs.Prelude.{◌≡◌, ◌+◌, ◌<◌, ◌≤◌, [], IsOk, IsSome, None, Some, OnOk};
ghost use Rattle.nob_space_messages.specs.Lanes.{lane_at, PutsLane, is_used, if_used, last_of};

use indexmap::IndexMap;
use std::alloc::{AllocError, Global};
use std::marker::Model;

/// The jobs of one target.
#[derive(Clone, Copy, Debug, PartialEq, Eq)]
pub struct Lane {
    /// How many of them run.
    pub runs: usize,
    /// The stamp of the first that is ready.
    pub first: Option<u64>,
    /// The stamp of the last that is ready, where there are any.
    pub last: u64,
}

/// The stamp of the last ready job of a lane, if there is any.
pub fn last_of(lane: &Lane) -> Option<u64>
    ensures { result ≡ last_of lane.now }
{
    if lane.first.is_some() {
        Some(lane.last)
    } else {
        None
    }
}

// Whether a job of a lane runs or is ready.
fn is_used(lane: &Lane) -> bool
    ensures { result ≡ is_used lane.now }
{
    lane.runs != 0 || lane.first.is_some()
}

/// Lanes by target.
#[derive(Drop)]
pub struct Lanes {
    map: IndexMap<u64, Lane>,
}

impl Model for Lanes {
    ghost use Rattle.nob_space_messages.specs.Lanes.{LaneList};

    ghost Value = { LaneList };

    ghost use Rattle.indexmap.specs.IndexMap.{spare};

    ghost view = { λ a. record { rows = a.map.entries; room = spare a.map } };
}

impl Lanes {
    /// No lanes.
    pub fn new(alloc: Global) -> Lanes
        ensures { result.rows ≡ [] }
    {
        Lanes {
            map: IndexMap::new(alloc),
        }
    }

    /// The lane of a target. One look-up.
    pub fn get(&self, target: u64) -> Option<Lane>
        ensures { result ≡ lane_at self.now.rows target }
    {
        self.map.get(&target).copied()
    }

    /// Makes room for so many more lanes.
    pub fn reserve(&mut self, additional: usize) -> Result<(), AllocError>
        ensures rows { self.new.rows ≡ self.old.rows }
        ensures ok { OnOk result (additional ≤ self.new.room) }
        ensures room { self.old.room ≤ self.new.room }
    {
        self.map.reserve(additional)
    }

    /// Puts or writes the lane of a target, where there is room for one. One look-up.
    pub fn put(&mut self, target: u64, lane: Lane)
        requires { 0 < self.old.room }
        ensures puts { PutsLane self.old.rows self.new.rows target (Some lane) }
        ensures room { self.old.room ≤ self.new.room + 1 }
    {
        let _old = self.map.insert(target, lane).unwrap();
    }

    /// Writes the lane of a target that has one, or takes it out where it isn't used any more. One
    /// look-up.
    pub fn write(&mut self, target: u64, lane: Lane)
        requires { IsSome (lane_at self.old.rows target) }
        ensures puts { PutsLane self.old.rows self.new.rows target (if_used lane) }
        ensures room { self.old.room ≤ self.new.room }
    {
        if is_used(&lane) {
            self.set(target, lane);
        } else {
            self.take(target);
        }
    }

    // Writes the lane of a target that has one.
    fn set(&mut self, target: u64, lane: Lane)
        requires { IsSome (lane_at self.old.rows target) }
        ensures puts { PutsLane self.old.rows self.new.rows target (Some lane) }
        ensures room { self.new.room ≡ self.old.room }
    {
        if let Some(old) = self.map.get_mut(&target) {
            *old = lane;
        }
    }

    // Takes the lane of a target out.
    fn take(&mut self, target: u64)
        ensures puts { PutsLane self.old.rows self.new.rows target None }
        ensures room { self.old.room ≤ self.new.room }
    {
        let _lane = self.map.swap_remove(&target);
    }
}
