//! The loans that are made once a reference is granted.

ghost use Rattle.std.specs.Prelude.{◌≡◌, ◌+◌, ◌<◌, ◌^◌, true};
ghost use Rattle.nob_queues.specs.Queues.{KeepsBut, marked_at, rows_at};
ghost use Rattle.nob_slots.specs.Slots.{IsRising, is_number};
ghost use Rattle.nob_space_messages.specs.Waiting as words;
ghost use Rattle.nob_space_messages.specs.Lines.{AreMarked, IsLined, all_lent, is_standing, items_of, lent_where};

use crate::entry::{Entry, WAITING, write_waits};
use crate::lines::Lines;
use nob_ids::WireRep;
use nob_model_types::message::RefCopy;
use nob_model_types::{Loan, Message};
use nob_queues::Queues;

/// Whether a loan is due.
pub fn is_due(loan: Loan) -> bool
    ensures { result ≡ words.is_due loan }
{
    match loan {
        Loan::Due => true,
        Loan::Lent | Loan::Never => false,
    }
}

// Whether a copy is of a reference, and its loan is due.
fn waits_for(rep: &WireRep, copy: &RefCopy) -> bool
    ensures { result ≡ words.waits_for rep.now copy.now }
{
    *rep == copy.rep && is_due(copy.loan)
}

// Makes the loans of a reference that are due to a message: how many.
fn lend_to(rep: &WireRep, message: &mut Message) -> u64
    ensures message { message.new ≡ words.granted_message rep.now message.old }
    ensures count { result ≡ words.due_to rep.now message.old }
{
    let mut lent = 0;
    for place in 0..message.copies.as_slice().len() {
        let copy = message.copies.as_slice()[place];
        if waits_for(rep, &copy) {
            let loan = Loan::Lent;
            message.copies.set(
                place,
                RefCopy {
                    rep: copy.rep,
                    loan,
                },
            );
            lent += 1;
        }
    }
    lent
}

// Makes the loans of a reference that are due to the entry of a stamp: how many. Linear in its
// copies.
fn lend_at(queues: &mut Queues<Entry>, rep: &WireRep, stamp: u64) -> u64
    requires rising { IsRising (rows_at queues.old 0) }
    requires marked { AreMarked (rows_at queues.old 0) (marked_at queues.old 0) }
    ensures rows { rows_at queues.new 0 ≡ lent_where rep.now (is_number stamp) (rows_at queues.old 0) }
    ensures count { result + words.due_to_all rep.now (items_of (rows_at queues.new 0))
        ≡ words.due_to_all rep.now (items_of (rows_at queues.old 0)) }
    ensures marked { AreMarked (rows_at queues.new 0) (marked_at queues.new 0) }
    ensures kept { KeepsBut queues.old queues.new 0 }
{
    let Some(entry) = queues.get(WAITING, stamp) else {
        return 0;
    };
    let waits = entry.waits;
    let entry = queues.get_mut(WAITING, stamp);
    let lent = lend_to(rep, &mut entry.message);
    write_waits(queues, stamp, waits.saturating_sub(lent));
    lent
}

// Whether the same stamp stands at two places.
fn is_same(standing: Option<u64>, last: Option<u64>) -> bool
    ensures { result ≡ true → standing ≡ last }
{
    let Some(stamp) = standing else {
        return false;
    };
    let Some(other) = last else {
        return false;
    };
    stamp == other
}

// The same of the stamp that stands at a place, if there is any, and it isn't the last, to which
// they are made already.
fn lend_unless(
    queues: &mut Queues<Entry>,
    rep: &WireRep,
    standing: Option<u64>,
    last: Option<u64>,
) -> u64
    requires rising { IsRising (rows_at queues.old 0) }
    requires marked { AreMarked (rows_at queues.old 0) (marked_at queues.old 0) }
    requires last { rows_at queues.old 0 ≡ lent_where rep.now (is_standing last) (rows_at queues.old 0) }
    ensures rows { rows_at queues.new 0 ≡ lent_where rep.now (is_standing standing) (rows_at queues.old 0) }
    ensures count { result + words.due_to_all rep.now (items_of (rows_at queues.new 0))
        ≡ words.due_to_all rep.now (items_of (rows_at queues.old 0)) }
    ensures marked { AreMarked (rows_at queues.new 0) (marked_at queues.new 0) }
    ensures kept { KeepsBut queues.old queues.new 0 }
{
    if is_same(standing, last) {
        return 0;
    }
    let Some(stamp) = standing else {
        return 0;
    };
    lend_at(queues, rep, stamp)
}

/// Makes the loans of a reference that are due to the entries in its line: how many. Linear in the
/// copies of those entries, each of which is looked at once: its places in a line follow each other.
pub fn lend_line(queues: &mut Queues<Entry>, lines: &Lines, rep: &WireRep) -> u64
    requires rising { IsRising (rows_at queues.old 0) }
    requires marked { AreMarked (rows_at queues.old 0) (marked_at queues.old 0) }
    requires lined { IsLined lines.now (rows_at queues.old 0) rep.now }
    requires count { words.due_to_all rep.now (items_of (rows_at queues.old 0)) < 2 ^ 64 }
    ensures rows { rows_at queues.new 0 ≡ all_lent rep.now (rows_at queues.old 0) }
    ensures count { result ≡ words.due_to_all rep.now (items_of (rows_at queues.old 0)) }
    ensures marked { AreMarked (rows_at queues.new 0) (marked_at queues.new 0) }
    ensures kept { KeepsBut queues.old queues.new 0 }
{
    let mut lent = 0;
    let mut last = None;
    for place in 0..lines.count(rep) {
        let standing = lines.link(rep, place);
        lent += lend_unless(queues, rep, standing, last);
        last = standing;
    }
    lent
}
