//! The bars of a journal in one pass.

ghost use Rattle.std.specs.Prelude.{◌≡◌, ◌&&◌, IfOk, Some, true};
ghost use Rattle.nob_model_types.specs.Deeds.{deed_in};
ghost use Rattle.nob_check_ledgers.specs.Ledgers.{has_loans_made};
ghost use Rattle.nob_drawing_plan.specs.Bars.{bars as bars_of};
ghost use Rattle.nob_drawing_plan.specs.Passing as spec;

use crate::bar::Bar;
use crate::steps::after_deed;
use nob_check_ledgers::{Ledger, new_ledger};
use nob_ids::SpaceId;
use nob_model_types::{Deed, Entry, Here};
use std::alloc::{AllocError, Global};

/// What a pass over the entries of a journal keeps, the first entry first.
#[derive(Drop)]
pub struct Pass {
    /// The ledgers of the spaces that did something.
    pub ledgers: Vec<Ledger>,
    /// The bars so far.
    pub bars: Vec<Bar>,
    /// Whether each space exported its own objects alone.
    pub own: bool,
}

// Whether a deed exports nothing under another space's name.
fn exports_own(space: SpaceId, deed: &Deed) -> bool
    ensures { result ≡ spec.exports_own space (Some deed.now) }
{
    match deed {
        Deed::Export(rep) => rep.owner == space,
        _ => true,
    }
}

// The ledger of a space, an empty one where there is none, and the other ledgers.
fn taken(
    alloc: Global,
    here: Here,
    mut ledgers: Vec<Ledger>,
) -> Result<(Ledger, Vec<Ledger>), AllocError>
    ensures found { IfOk result (λ taken. taken.0
        ≡ spec.ledger_in here.n here.space ledgers.items) }
    ensures others { IfOk result (λ taken. taken.1.items
        ≡ spec.without here.space ledgers.items) }
{
    if ledgers.is_empty() {
        return Ok((new_ledger(alloc, here), ledgers));
    }
    let first = ledgers.remove(0);
    if first.index.here().space == here.space {
        return Ok((first, ledgers));
    }
    let (found, mut others) = taken(alloc, here, ledgers)?;
    others.insert(0, first)?;
    Ok((found, others))
}

// The ledgers and the bars after a deed of a space at a row.
fn after_did(
    alloc: Global,
    here: Here,
    row: usize,
    deed: Deed,
    ledgers: Vec<Ledger>,
    bars: Vec<Bar>,
) -> Result<(Vec<Ledger>, Vec<Bar>), AllocError>
    requires lent { has_loans_made (spec.ledger_in here.n here.space ledgers.items) ≡ true }
    ensures ledgers { IfOk result (λ after. after.0.items
        ≡ spec.ledgers_after here.n here.space (Some deed) ledgers.items) }
    ensures bars { IfOk result (λ after. after.1.items
        ≡ spec.bars_after_did here.n here.space row (Some deed) ledgers.items bars.items) }
{
    let (ledger, mut others) = taken(alloc, here, ledgers)?;
    let (after, more) = after_deed(alloc, row, deed, ledger, bars)?;
    others.insert(0, after)?;
    Ok((others, more))
}

// What is kept after an entry at a row.
fn after_entry(
    alloc: Global,
    n: u16,
    row: usize,
    entry: &Entry,
    pass: Pass,
) -> Result<Pass, AllocError>
    requires lent { has_loans_made (spec.ledger_in n entry.now.space pass.ledgers.items) ≡ true }
    ensures ledgers { IfOk result (λ after. after.ledgers.items
        ≡ spec.ledgers_after n entry.now.space (deed_in entry.now) pass.ledgers.items) }
    ensures bars { IfOk result (λ after. after.bars.items
        ≡ spec.bars_after_did n entry.now.space row (deed_in entry.now)
        pass.ledgers.items pass.bars.items) }
    ensures own { IfOk result (λ after. after.own
        ≡ (spec.exports_own entry.now.space (deed_in entry.now) && pass.own)) }
{
    let Some(deed) = Deed::of_entry(entry)? else {
        return Ok(pass);
    };
    let space = entry.space;
    let here = Here { space, n };
    let Pass { ledgers, bars, own } = pass;
    let own = exports_own(space, &deed) && own;
    let (ledgers, bars) = after_did(alloc, here, row, deed, ledgers, bars)?;
    Ok(Pass { ledgers, bars, own })
}

/// What is kept of all entries of a journal of so many spaces, the newest entry of which stands
/// first: its bars, where each space exported its own objects alone.
pub fn passed(alloc: Global, n: u16, journal: &[Entry]) -> Result<Pass, AllocError>
    ensures own { IfOk result (λ pass. pass.own ≡ spec.are_own journal.now) }
    ensures bars { IfOk result (λ pass. spec.are_own journal.now ≡ true
        → pass.bars.items ≡ bars_of n journal.now) }
{
    let mut pass = Pass {
        ledgers: Vec::new(alloc),
        bars: Vec::new(alloc),
        own: true,
    };
    for row in 0..journal.len() {
        let entry = &journal[journal.len() - 1 - row];
        pass = after_entry(alloc, n, row + 1, entry, pass)?;
    }
    Ok(pass)
}
