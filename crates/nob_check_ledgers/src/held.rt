//! What a space holds.

ghost use Rattle.std.specs.Prelude.{◌≡◌, IfOk};
ghost use Rattle.nob_check_ledgers.specs.Ledgers as words;

use crate::ledger::Ledger;
use nob_ids::WireRep;
use nob_plain_history::holds::{lent_in, times};
use std::alloc::{AllocError, Global};

/// Whether the space of a ledger holds a reference. It passes what is outstanding. No journal has so
/// many holds on a reference that they can't be counted.
pub fn is_held(alloc: Global, rep: &WireRep, ledger: &Ledger) -> Result<bool, AllocError>
    ensures { IfOk result (λ answer. answer ≡ words.is_held_by rep.now ledger.now) }
{
    let lent = lent_in(alloc, ledger.index.here().space, &ledger.work)?;
    let came = ledger.index.gain_count(rep);
    let Some(more) = came.checked_add(times(rep, lent.as_slice()) as u64) else {
        return Err(AllocError);
    };
    Ok(more.saturating_sub(ledger.index.release_count(rep)) != 0)
}
