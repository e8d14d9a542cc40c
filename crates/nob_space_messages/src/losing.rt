//! What a reference that is lost leaves to the messages that waited for it.

ghost use Rattle.std.specs.Prelude.{◌≡◌, ◌==◌, ◌&&◌, Some};
ghost use Rattle.std.specs.List.{list_any};
ghost use Rattle.std.specs.Map.{keys_of};
ghost use Rattle.nob_ids.specs.Names.{is_same};
ghost use Rattle.nob_ids.specs.declared.wire_rep.WireRep.{WireRep as WireRepOf};
ghost use Rattle.nob_rows.specs.Rows.{IsOnce};
ghost use Rattle.nob_queues.specs.Queues.{KeepsBut, marked_at, rows_at};
ghost use Rattle.nob_slots.specs.Slots.{IsRising};
ghost use Rattle.nob_space_messages.specs.Lines.{AreMarked, has_line, lines_of, lowered, once, times_in, times_of};

use crate::entry::{Entry, WAITING, write_waits};
use crate::lines::Lines;
use nob_ids::{SpaceId, WireRep};
use nob_queues::Queues;

// The entry of a stamp waits for one copy less. Logarithmic in the entries.
fn lower_at(queues: &mut Queues<Entry>, stamp: u64)
    requires rising { IsRising (rows_at queues.old 0) }
    requires marked { AreMarked (rows_at queues.old 0) (marked_at queues.old 0) }
    ensures rows { rows_at queues.new 0 ≡ lowered (once (Some stamp)) (rows_at queues.old 0) }
    ensures marked { AreMarked (rows_at queues.new 0) (marked_at queues.new 0) }
    ensures kept { KeepsBut queues.old queues.new 0 }
{
    let Some(entry) = queues.get(WAITING, stamp) else {
        return;
    };
    let waits = entry.waits.saturating_sub(1);
    write_waits(queues, stamp, waits);
}

// The same of the stamp that stands at a place, if there is any.
fn lower_standing(queues: &mut Queues<Entry>, standing: Option<u64>)
    requires rising { IsRising (rows_at queues.old 0) }
    requires marked { AreMarked (rows_at queues.old 0) (marked_at queues.old 0) }
    ensures rows { rows_at queues.new 0 ≡ lowered (once standing) (rows_at queues.old 0) }
    ensures marked { AreMarked (rows_at queues.new 0) (marked_at queues.new 0) }
    ensures kept { KeepsBut queues.old queues.new 0 }
{
    let Some(stamp) = standing else {
        return;
    };
    lower_at(queues, stamp);
}

/// Each entry in the line of a reference waits for one copy less, for each place that it has
/// there. Linear in those places, each with a look for its entry.
pub fn lower_line(queues: &mut Queues<Entry>, lines: &Lines, rep: &WireRep)
    requires rising { IsRising (rows_at queues.old 0) }
    requires marked { AreMarked (rows_at queues.old 0) (marked_at queues.old 0) }
    ensures rows { rows_at queues.new 0 ≡ lowered (times_in lines.now rep.now) (rows_at queues.old 0) }
    ensures marked { AreMarked (rows_at queues.new 0) (marked_at queues.new 0) }
    ensures kept { KeepsBut queues.old queues.new 0 }
{
    for place in 0..lines.count(rep) {
        let standing = lines.link(rep, place);
        lower_standing(queues, standing);
    }
}

/// The same of all lines of an owner's references. Linear in their places.
pub fn lower_all(queues: &mut Queues<Entry>, lines: &Lines, owner: SpaceId)
    requires rising { IsRising (rows_at queues.old 0) }
    requires marked { AreMarked (rows_at queues.old 0) (marked_at queues.old 0) }
    ensures rows { rows_at queues.new 0
        ≡ lowered (times_of lines.now (keys_of (lines_of lines.now owner).rows)) (rows_at queues.old 0) }
    ensures marked { AreMarked (rows_at queues.new 0) (marked_at queues.new 0) }
    ensures once { IsOnce (lines_of lines.now owner).rows }
    ensures reps { (rep : WireRepOf) → list_any (is_same rep)
        (keys_of (lines_of lines.now owner).rows) ≡ (rep.owner == owner && has_line lines.now rep) }
    ensures kept { KeepsBut queues.old queues.new 0 }
{
    for at in 0..lines.len_of(owner) {
        let rep = lines.rep_at(owner, at);
        lower_line(queues, lines, &rep);
    }
}
