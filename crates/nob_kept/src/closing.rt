//! Whether seats have the receipts of a trace.

ghost use Rattle.std.specs.Prelude.{◌≡◌, ◌↔◌, ◌⊎◌, ◌++◌, ◌<◌, ◌+◌, ◌≤◌, ℕ, List, true, false, length, replicate, get_or, IfOk, IfErr, OnOk, OnErr, vec_len};
ghost use Rattle.std.specs.List.{AllByRecursion};
ghost use Rattle.nob_kept.specs.Closing as closing;
ghost use Rattle.nob_kept.specs.Receipts.{Told, entry_of};
ghost use Rattle.nob_kept.specs.declared.keep.Keep.TheVariants as keeps;
ghost use Rattle.nob_kept.specs.declared.receipt.Receipt.{Receipt as ReceiptOf};

use crate::error::KeeperError;
use crate::kept::Kept;
use crate::receipt::Receipt;
use crate::seat::Seat;
use nob_model::{same_event, same_result};
use nob_trace::Stamped;
use std::alloc::{AllocError, Global};

// Whether a receipt is told of the entries, all of which are kept. It costs what the receipt owns.
pub(crate) fn is_told(receipt: &Receipt, kept: &Kept) -> bool
    requires { kept.now.keep ≡ keeps.All }
    ensures { (result ≡ true) ↔ Told receipt.now kept.now.entries }
{
    if receipt.place == 0 {
        return false;
    }
    match kept.entry_at(receipt.place - 1) {
        Some(entry) => is_entry_of(receipt, entry),
        None => false,
    }
}

// Whether an entry is the one that a receipt tells of.
pub(crate) fn is_entry_of(receipt: &Receipt, entry: &Stamped) -> bool
    ensures { (result ≡ true) ↔ (entry.now ≡ entry_of receipt.now) }
{
    entry.stamp == receipt.stamp
        && same_event(&entry.event, &receipt.event)
        && same_result(&entry.result, &receipt.result)
}

// Marks the places of receipts. False where one isn't told of the entries, or is at a place that is
// marked already.
fn mark(marks: &mut Vec<bool>, kept: &Kept, receipts: &[Receipt]) -> bool
    requires all { kept.now.keep ≡ keeps.All }
    requires len { length marks.old.items ≡ length kept.now.entries }
    ensures len { length marks.new.items ≡ length marks.old.items }
    ensures marks { (before : List ReceiptOf) → result ≡ true
        → closing.AreMarks marks.old.items kept.now.entries before
        → closing.AreMarks marks.new.items kept.now.entries (before ++ receipts.now) }
    ensures fault { (before later : List ReceiptOf) → result ≡ false
        → closing.AreMarks marks.old.items kept.now.entries before
        → closing.AreOf kept.now.entries (before ++ (receipts.now ++ later)) → ⊥ }
{
    for receipt in receipts {
        if !is_told(receipt, kept) {
            return false;
        }
        let place = (receipt.place - 1) as usize;
        if marks[place] {
            return false;
        }
        marks[place] = true;
    }
    true
}

// Marks the places of the receipts of all seats: K4 where one is marked already or isn't told, or
// else a seat has let receipts go.
fn mark_all(marks: &mut Vec<bool>, kept: &Kept, seats: &[Seat]) -> Result<(), KeeperError>
    requires all { kept.now.keep ≡ keeps.All }
    requires len { length marks.old.items ≡ length kept.now.entries }
    ensures len { length marks.new.items ≡ length marks.old.items }
    ensures marks { (before : List ReceiptOf) → OnOk result
        (closing.AreMarks marks.old.items kept.now.entries before
        → closing.AreMarks marks.new.items kept.now.entries (before ++ closing.receipts_of seats.now)) }
    ensures fault { (before later : List ReceiptOf) → IfErr result (λ error.
        error ≡ KeeperError.Seats
        → closing.AreMarks marks.old.items kept.now.entries before
        → closing.AreOf kept.now.entries (before ++ (closing.receipts_of seats.now ++ later)) → ⊥) }
    ensures only { IfErr result (λ error. (error ≡ KeeperError.Seats)
        ⊎ (error ≡ KeeperError.NoTrace)) }
{
    for seat in seats {
        let Some(receipts) = seat.whole() else {
            return Err(KeeperError::NoTrace);
        };
        if !mark(marks, kept, receipts) {
            return Err(KeeperError::Seats);
        }
    }
    Ok(())
}

// `count` marks, none of which is set. Only memory fails it.
fn unmarked(alloc: Global, count: usize) -> Result<Vec<bool>, AllocError>
    ensures { IfOk result (λ marks. marks.items ≡ replicate count false) }
{
    vec![in alloc; false; count]
}

// Whether all marks are set.
fn are_all_set(marks: &[bool]) -> bool
    ensures set { result ≡ true → (place : ℕ) → place < length marks.now
        → get_or marks.now place false ≡ true }
    ensures unset { result ≡ false → (place : ℕ) × (place < length marks.now)
        × (get_or marks.now place false ≡ false) }
{
    for mark in marks {
        if !*mark {
            return false;
        }
    }
    true
}

// Whether the receipts of seats are those of the entries, all of which are kept, each once.
pub(crate) fn judge(alloc: Global, kept: &Kept, seats: &[Seat]) -> Result<(), KeeperError>
    requires all { kept.now.keep ≡ keeps.All }
    ensures ok { OnOk result (closing.AreOf kept.now.entries (closing.receipts_of seats.now)) }
    ensures seats { IfErr result (λ error. error ≡ KeeperError.Seats
        → closing.AreOf kept.now.entries (closing.receipts_of seats.now) → ⊥) }
    ensures only { IfErr result (λ error. (error ≡ KeeperError.Seats)
        ⊎ ((error ≡ KeeperError.OutOfMemory) ⊎ (error ≡ KeeperError.NoTrace))) }
{
    let Ok(mut marks) = unmarked(alloc, kept.len() as usize) else {
        return Err(KeeperError::OutOfMemory);
    };
    match mark_all(&mut marks, kept, seats) {
        Ok(()) => {
            if !are_all_set(marks.as_slice()) {
                return Err(KeeperError::Seats);
            }
            Ok(())
        }
        Err(error) => Err(error),
    }
}
