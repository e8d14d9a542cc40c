//! What stands in the queues.

ghost use Rattle.std.specs.Prelude.{◌≡◌, ◌==◌, IsSome, Some};
ghost use Rattle.std.specs.Map.{set_value};
ghost use Rattle.nob_queues.specs.Queues.{KeepsBut, marked_at, rows_at};
ghost use Rattle.nob_slots.specs.Slots.{item_at, is_number, PutsMark};
ghost use Rattle.nob_space_messages.specs.Lines.{with_waits};
ghost use Rattle.nob_space_messages.specs.declared.entry.Entry.{Entry as EntryOf};

use nob_model_types::Message;
use nob_queues::Queues;

/// The queue of the messages that wait, under stamps, in order of acting. Those are marked that may
/// be settled.
pub const WAITING: usize = 0;

/// The queue of the ready jobs, under stamps, in order of becoming ready.
pub const READY: usize = 1;

/// The queue of the jobs that run, under their numbers.
pub const RUNNING: usize = 2;

/// A message, and how many of its copies are due and of a reference that is awaited.
#[derive(Drop)]
pub struct Entry {
    pub message: Message,
    pub waits: u64,
}

/// Writes for how much an entry that waits still waits, marked if that is nothing. Logarithmic in
/// the entries.
pub fn write_waits(queues: &mut Queues<Entry>, stamp: u64, waits: u64)
    requires { IsSome (item_at (rows_at queues.old 0) stamp) }
    ensures rows { (entry : EntryOf) → item_at (rows_at queues.old 0) stamp ≡ Some entry
        → rows_at queues.new 0
        ≡ set_value (is_number stamp) (rows_at queues.old 0) (with_waits waits entry) }
    ensures marked { PutsMark (marked_at queues.old 0) (marked_at queues.new 0) stamp (waits == 0) }
    ensures kept { KeepsBut queues.old queues.new 0 }
{
    let entry = queues.get_mut(WAITING, stamp);
    entry.waits = waits;
    queues.mark(WAITING, stamp, waits == 0);
}
