//! Loans of one reference, many at once.

ghost use Rattle.std.specs.Prelude.{replicate};
ghost use Rattle.nob_space_items.specs.Lending.{CanLend, Lends};

use crate::loans::lend;
use nob_ids::WireRep;
use nob_table::ObjectTable;

/// Lends a reference so many times more. Linear in the times.
pub(crate) fn lend_times(table: &mut ObjectTable, rep: &WireRep, times: u64)
    requires { CanLend table.old (replicate times rep.now) }
    ensures { Lends table.old table.new (replicate times rep.now) }
{
    let mut done = 0;
    while done < times {
        lend(table, *rep);
        done += 1;
    }
}
