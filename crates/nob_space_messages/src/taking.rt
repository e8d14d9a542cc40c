//! How ready jobs go.

ghost use Rattle.std.specs.Prelude.{◌≡◌, ℕ, ◌≤◌};
ghost use Rattle.std.specs.Map.{remove_entry};
ghost use Rattle.nob_queues.specs.Queues.{KeepsBut, rows_at};
ghost use Rattle.nob_slots.specs.Numbers.{numbers_of};
ghost use Rattle.nob_slots.specs.Slots.{is_number, IsRising};
ghost use Rattle.nob_space_messages.specs.InLine.{AreLinked};
ghost use Rattle.nob_space_messages.specs.Lanes.{lane_at, runs_in};
ghost use Rattle.nob_space_messages.specs.Lines.{without};
ghost use Rattle.nob_space_messages.specs.Rows.{SameTargets};

use crate::entry::{Entry, READY};
use crate::in_line::InLine;
use nob_ids::SpaceId;
use nob_queues::Queues;
use nob_slots::Numbers;

// Takes the job under a stamp out.
fn drop_job(queues: &mut Queues<Entry>, lines: &mut InLine, stamp: u64)
    requires rising { IsRising (rows_at queues.old 1) }
    requires lines { AreLinked lines.old.links.rows lines.old.lanes.rows lines.old.links.marked }
    requires targets { SameTargets lines.old.links.rows (rows_at queues.old 1) }
    ensures rows { rows_at queues.new 1 ≡ remove_entry (is_number stamp) (rows_at queues.old 1) }
    ensures rising { IsRising (rows_at queues.new 1) }
    ensures kept { KeepsBut queues.old queues.new 1 }
    ensures lines { AreLinked lines.new.links.rows lines.new.lanes.rows lines.new.links.marked }
    ensures targets { SameTargets lines.new.links.rows (rows_at queues.new 1) }
    ensures runs { (target : ℕ) → runs_in (lane_at lines.new.lanes.rows target)
        ≡ runs_in (lane_at lines.old.lanes.rows target) }
    ensures links_room { lines.new.links.room ≡ lines.old.links.room }
    ensures lanes_room { lines.old.lanes.room ≤ lines.new.lanes.room }
{
    lines.take(stamp);
    let _entry = queues.take(READY, stamp);
}

/// Takes the jobs under the stamps of a space out. Linear in them.
pub fn drop_jobs(queues: &mut Queues<Entry>, lines: &mut InLine, froms: &Numbers, peer: SpaceId)
    requires rising { IsRising (rows_at queues.old 1) }
    requires lines { AreLinked lines.old.links.rows lines.old.lanes.rows lines.old.links.marked }
    requires targets { SameTargets lines.old.links.rows (rows_at queues.old 1) }
    ensures rows { rows_at queues.new 1
        ≡ without (numbers_of froms.now peer) (rows_at queues.old 1) }
    ensures kept { KeepsBut queues.old queues.new 1 }
    ensures lines { AreLinked lines.new.links.rows lines.new.lanes.rows lines.new.links.marked }
    ensures targets { SameTargets lines.new.links.rows (rows_at queues.new 1) }
    ensures runs { (target : ℕ) → runs_in (lane_at lines.new.lanes.rows target)
        ≡ runs_in (lane_at lines.old.lanes.rows target) }
    ensures links_room { lines.new.links.room ≡ lines.old.links.room }
    ensures lanes_room { lines.old.lanes.room ≤ lines.new.lanes.room }
{
    for stamp in froms.iter(peer) {
        drop_job(queues, lines, stamp);
    }
}
