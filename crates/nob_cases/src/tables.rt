//! Cases of an object table.

ghost use Rattle.std.specs.Prelude.{◌≡◌, ◌≤◌};

use nob_case_texts::{Answer, Refusal, refused_table_call};
use nob_ids::{SpaceId, WireRep};
use nob_table::{ObjectTable, Part, TableError, TableFault};
use std::alloc::{AllocError, Global};

/// A call on the object table, or a new table in its place.
#[derive(Drop)]
pub enum TableCase {
    /// The new table of this space.
    New(SpaceId),
    /// Makes room for so many exports and so many surrogates.
    Reserve(usize, usize),
    /// A new object.
    Export,
    /// Withdraws the object of this index.
    Withdraw(u64),
    /// One hold more.
    Hold(WireRep, Part),
    /// One hold less.
    Release(WireRep, Part),
    /// A Dirty is sent.
    Pending(WireRep),
    /// The owner has granted the reference.
    Grant(WireRep),
    /// The owner has refused the reference.
    Refuse(WireRep),
    /// A Clean is sent.
    Remove(WireRep),
    /// The session with this owner has closed.
    Close(SpaceId),
    /// How a reference stands.
    State(WireRep),
    /// The first idle surrogate from this place on.
    Idle(u64),
    /// The first object from this index on that nothing holds.
    Unheld(u64),
    /// How many objects and surrogates there are.
    Counts,
}

/// A table, and a number that the number of Dirties it was told of doesn't pass.
#[derive(Drop)]
pub struct CountedTable {
    table: ObjectTable,
    most: u64,
    ghost counted: { table.dirties ≤ most },
}

/// Makes a case on the table that was made last. Only memory fails it, and then nothing has
/// changed.
pub fn make(
    alloc: Global,
    counted: &mut Option<CountedTable>,
    case: &TableCase,
) -> Result<Answer, AllocError> {
    if let TableCase::New(me) = case {
        *counted = Some(CountedTable {
            table: ObjectTable::new(alloc, *me),
            most: 0,
        });
        return Ok(Answer::Word("ok"));
    }
    match counted {
        Some(counted) => call(counted, case),
        None => Ok(Answer::Word("no table")),
    }
}

fn call(counted: &mut CountedTable, case: &TableCase) -> Result<Answer, AllocError> {
    if let TableCase::Pending(rep) = case {
        return pending(counted, *rep);
    }
    call_without_dirty(&mut counted.table, case)
}

// A call that tells of no Dirty.
fn call_without_dirty(table: &mut ObjectTable, case: &TableCase) -> Result<Answer, AllocError>
    ensures { table.new.dirties ≡ table.old.dirties }
{
    match case {
        TableCase::New(_) | TableCase::Pending(_) => Ok(Answer::Word("ok")),
        TableCase::Reserve(exports, surrogates) => reserve(table, *exports, *surrogates),
        TableCase::Export => export(table),
        TableCase::Withdraw(index) => Ok(done(table.withdraw(*index))),
        TableCase::Hold(rep, part) => Ok(done(table.hold(*rep, *part))),
        TableCase::Release(rep, part) => Ok(done(table.release(*rep, *part))),
        TableCase::Grant(rep) => Ok(done(table.grant(*rep))),
        TableCase::Refuse(rep) => Ok(done(table.refuse(*rep))),
        TableCase::Remove(rep) => Ok(done(table.remove(*rep))),
        TableCase::Close(owner) => {
            table.close(*owner);
            Ok(Answer::Word("ok"))
        }
        TableCase::State(rep) => Ok(Answer::Stands(table.state(*rep))),
        TableCase::Idle(place) => Ok(idle(table, *place)),
        TableCase::Unheld(index) => Ok(unheld(table, *index)),
        TableCase::Counts => Ok(Answer::Counts(table.object_count(), table.surrogate_count())),
    }
}

fn reserve(table: &mut ObjectTable, exports: usize, surrogates: usize) -> Result<Answer, AllocError>
    ensures { table.new.dirties ≡ table.old.dirties }
{
    table.reserve(exports, surrogates)?;
    Ok(Answer::Word("ok"))
}

fn done(outcome: Result<(), TableFault>) -> Answer {
    match outcome {
        Ok(()) => Answer::Word("ok"),
        Err(fault) => Answer::Refused(Refusal::Table(TableError::Fault(fault))),
    }
}

fn export(table: &mut ObjectTable) -> Result<Answer, AllocError>
    ensures { table.new.dirties ≡ table.old.dirties }
{
    match table.export() {
        Ok(rep) => Ok(Answer::Reference(rep)),
        Err(error) => refused_table_call(error),
    }
}

fn pending(counted: &mut CountedTable, rep: WireRep) -> Result<Answer, AllocError> {
    if counted.most == u64::MAX {
        return Ok(Answer::Word("no call"));
    }
    counted.most += 1;
    match counted.table.pending(rep) {
        Ok(()) => Ok(Answer::Word("ok")),
        Err(error) => refused_table_call(error),
    }
}

fn unheld(table: &ObjectTable, index: u64) -> Answer {
    match table.first_unheld(index) {
        Some(index) => Answer::Number(index),
        None => Answer::Word("none"),
    }
}

fn idle(table: &ObjectTable, place: u64) -> Answer {
    match table.first_idle(u128::from(place)) {
        Some((place, rep)) => Answer::Idle(place, rep),
        None => Answer::Word("none"),
    }
}
