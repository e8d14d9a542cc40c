//! The ready jobs of each target in line.

ghost use Rattle.std.specs.Prelude.{◌≡◌, ℕ, ◌+◌, ◌<◌, ◌≤◌, ◌^◌, [], IsOk, IsSome, None, Some, Option, OnOk, if◌then◌else◌};
ghost use Rattle.nob_slots.specs.Slots.{IsAbove};
ghost use Rattle.nob_space_messages.specs.Lanes.{is_target, lane_at, or_no_jobs, runs_in};
ghost use Rattle.nob_space_messages.specs.InLine.{AreLinked, first_or, lane_taken, target_at, with_at};

use crate::lanes::{Lane, Lanes, last_of};
use crate::links::{Link, mark_first, set_before, set_behind};
use nob_slots::Slots;
use std::alloc::{AllocError, Global};

/// What stands beside the messages of the ready jobs.
#[derive(Drop)]
pub struct InLine {
    /// The link of each job under its stamp. Those are marked that are the first of their targets,
    /// of which none runs.
    pub links: Slots<Link>,
    /// The lane of each target of which a job runs or is ready.
    pub lanes: Lanes,
}

impl InLine {
    /// No jobs.
    pub fn new(alloc: Global) -> InLine
        ensures links { result.links.rows ≡ [] }
        ensures marked { result.links.marked ≡ [] }
        ensures lanes { result.lanes.rows ≡ [] }
    {
        InLine {
            links: Slots::new(alloc),
            lanes: Lanes::new(alloc),
        }
    }

    /// Makes room for so many more jobs.
    pub fn reserve(&mut self, additional: usize) -> Result<(), AllocError>
        ensures links { self.new.links.rows ≡ self.old.links.rows }
        ensures marked { self.new.links.marked ≡ self.old.links.marked }
        ensures lanes { self.new.lanes.rows ≡ self.old.lanes.rows }
        ensures links_ok { OnOk result (additional ≤ self.new.links.room) }
        ensures lanes_ok { OnOk result (additional ≤ self.new.lanes.room) }
        ensures links_room { self.old.links.room ≤ self.new.links.room }
        ensures lanes_room { self.old.lanes.room ≤ self.new.lanes.room }
    {
        self.links.reserve(additional)?;
        self.lanes.reserve(additional)
    }

    /// Puts a job under a stamp behind all others, where there is room for it.
    pub fn push(&mut self, stamp: u64, target: u64)
        requires links_room { 0 < self.old.links.room }
        requires lanes_room { 0 < self.old.lanes.room }
        requires above { IsAbove self.old.links.rows stamp }
        requires lines { AreLinked self.old.links.rows self.old.lanes.rows
            self.old.links.marked }
        ensures targets { (other : ℕ) → target_at self.new.links.rows other
            ≡ with_at (target_at self.old.links.rows) stamp (Some target) other }
        ensures lines { AreLinked self.new.links.rows self.new.lanes.rows
            self.new.links.marked }
        ensures runs { (other : ℕ) → runs_in (lane_at self.new.lanes.rows other)
            ≡ runs_in (lane_at self.old.lanes.rows other) }
        ensures links_room { self.new.links.room + 1 ≡ self.old.links.room }
        ensures lanes_room { self.old.lanes.room ≤ self.new.lanes.room + 1 }
    {
        let lane = self.lane_of(target);
        let before = last_of(&lane);
        set_behind(&mut self.links, before, Some(stamp));
        let behind = None;
        let link = Link {
            target,
            before,
            behind,
        };
        self.links.push(stamp, link);
        let lane = Lane {
            runs: lane.runs,
            first: first_or(lane.first, stamp),
            last: stamp,
        };
        self.lanes.put(target, lane);
        mark_first(&mut self.links, &lane);
    }

    // The lane of a target, or one of no jobs.
    fn lane_of(&self, target: u64) -> Lane
        ensures { result ≡ or_no_jobs (lane_at self.now.lanes.rows target) }
    {
        match self.lanes.get(target) {
            Some(lane) => lane,
            None => Lane {
                runs: 0,
                first: None,
                last: 0,
            },
        }
    }

    /// Takes the job under a stamp out of its line, if there is one.
    pub fn take(&mut self, stamp: u64)
        requires lines { AreLinked self.old.links.rows self.old.lanes.rows
            self.old.links.marked }
        ensures targets { (other : ℕ) → target_at self.new.links.rows other
            ≡ with_at (target_at self.old.links.rows) stamp None other }
        ensures lines { AreLinked self.new.links.rows self.new.lanes.rows
            self.new.links.marked }
        ensures runs { (other : ℕ) → runs_in (lane_at self.new.lanes.rows other)
            ≡ runs_in (lane_at self.old.lanes.rows other) }
        ensures links_room { self.new.links.room ≡ self.old.links.room }
        ensures lanes_room { self.old.lanes.room ≤ self.new.lanes.room }
    {
        // The stamps rise.
        let _count = self.links.len();
        let Some(link) = self.links.take(stamp) else {
            return;
        };
        let Some(lane) = self.lanes.get(link.target) else {
            return;
        };
        set_behind(&mut self.links, link.before, link.behind);
        set_before(&mut self.links, link.behind, link.before);
        let lane = lane_taken(&lane, link.before, link.behind);
        self.lanes.write(link.target, lane);
        mark_first(&mut self.links, &lane);
    }

    /// A job more of a target that has a lane runs.
    pub fn begin(&mut self, target: u64)
        requires lane { IsSome (lane_at self.old.lanes.rows target) }
        requires few { runs_in (lane_at self.old.lanes.rows target) < 2 ^ 63 }
        requires lines { AreLinked self.old.links.rows self.old.lanes.rows
            self.old.links.marked }
        ensures links { self.new.links.rows ≡ self.old.links.rows }
        ensures lines { AreLinked self.new.links.rows self.new.lanes.rows
            self.new.links.marked }
        ensures runs { (other : ℕ) → runs_in (lane_at self.new.lanes.rows other)
            ≡ (if is_target target other then 1 + runs_in (lane_at self.old.lanes.rows other)
            else runs_in (lane_at self.old.lanes.rows other)) }
        ensures links_room { self.new.links.room ≡ self.old.links.room }
        ensures lanes_room { self.old.lanes.room ≤ self.new.lanes.room }
    {
        let Some(lane) = self.lanes.get(target) else {
            return;
        };
        let Lane { runs, first, last } = lane;
        let lane = Lane {
            runs: runs + 1,
            first,
            last,
        };
        self.lanes.write(target, lane);
        mark_first(&mut self.links, &lane);
    }

    /// A job of a target runs no more.
    pub fn end(&mut self, target: u64)
        requires runs { 0 < runs_in (lane_at self.old.lanes.rows target) }
        requires lines { AreLinked self.old.links.rows self.old.lanes.rows
            self.old.links.marked }
        ensures links { self.new.links.rows ≡ self.old.links.rows }
        ensures lines { AreLinked self.new.links.rows self.new.lanes.rows
            self.new.links.marked }
        ensures runs { (other : ℕ) → runs_in (lane_at self.old.lanes.rows other)
            ≡ (if is_target target other then 1 + runs_in (lane_at self.new.lanes.rows other)
            else runs_in (lane_at self.new.lanes.rows other)) }
        ensures links_room { self.new.links.room ≡ self.old.links.room }
        ensures lanes_room { self.old.lanes.room ≤ self.new.lanes.room }
    {
        let Some(lane) = self.lanes.get(target) else {
            return;
        };
        let Lane { runs, first, last } = lane;
        let lane = Lane {
            runs: runs - 1,
            first,
            last,
        };
        self.lanes.write(target, lane);
        mark_first(&mut self.links, &lane);
    }
}

// The first stamp, or this one if there is none.
fn first_or(first: Option<u64>, stamp: u64) -> Option<u64>
    ensures { result ≡ first_or first stamp }
{
    match first {
        Some(_) => first,
        None => Some(stamp),
    }
}

// The lane once a job is taken out of its line, that had these stamps before and behind it.
fn lane_taken(lane: &Lane, before: Option<u64>, behind: Option<u64>) -> Lane
    ensures { result ≡ lane_taken lane.now before behind }
{
    let first = if before.is_some() { lane.first } else { behind };
    let last = if behind.is_some() {
        lane.last
    } else {
        before.unwrap_or(lane.last)
    };
    Lane {
        runs: lane.runs,
        first,
        last,
    }
}
