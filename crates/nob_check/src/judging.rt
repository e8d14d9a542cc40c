//! The pass over a journal.

ghost use Rattle.std.specs.Prelude.{◌≡◌, [], reverse, IfOk, true};
ghost use Rattle.nob_model_journal.specs.Verdicts.{IsVerdict, most_spaces};
ghost use Rattle.nob_check.specs.Books.{have_loans_made};
ghost use Rattle.nob_check.specs.Judging as words;

use crate::books::with_entry;
use crate::fronts::keeps_fronts;
use crate::losses::{is_fault_found, is_lossless};
use crate::withdraws::is_unneeded;
use nob_check_ledgers::Ledger;
use nob_model_journal::{Promise, Verdict};
use nob_model_types::{Deed, Entry, Here, List};
use std::alloc::{AllocError, Global};

// As many spaces as there can be.
const MOST_SPACES: u16 = 32;

/// What was seen of the entries so far.
#[derive(Drop)]
pub struct Judging {
    /// The ledgers of all spaces.
    pub books: List<Ledger>,
    /// Whether no object was withdrawn while a space needed it.
    pub withdraws: bool,
    /// Whether no reference was lost without a cause.
    pub losses: bool,
    /// Whether no session was closed for a fault in what came over it.
    pub found: bool,
}

// Before the first entry.
fn no_entry(alloc: Global) -> Judging
    ensures { result ≡ words.no_entry }
{
    Judging {
        books: List::from_vec(Vec::new(alloc)),
        withdraws: true,
        losses: true,
        found: true,
    }
}

// What was seen once there is an entry more.
fn with_next(alloc: Global, n: u16, entry: &Entry, judging: Judging) -> Result<Judging, AllocError>
    requires lent { have_loans_made judging.books ≡ true }
    ensures { IfOk result (λ after. after ≡ words.with_next n entry.now judging) }
{
    let Judging {
        books,
        withdraws,
        losses,
        found,
    } = judging;
    let space = entry.space;
    let here = Here { space, n };
    let deed = Deed::of_entry(entry)?;
    let unneeded = is_unneeded(alloc, space, &deed, books.as_slice())?;
    let lossless = is_lossless(alloc, space, &deed, books.as_slice())?;
    let faultless = !is_fault_found(&entry.result);
    let books = with_entry(alloc, here, deed, books)?;
    Ok(Judging {
        books,
        withdraws: unneeded && withdraws,
        losses: lossless && losses,
        found: faultless && found,
    })
}

// What was seen once there are these entries more, the first first.
fn with_all(
    alloc: Global,
    n: u16,
    journal: &[Entry],
    mut judging: Judging,
) -> Result<Judging, AllocError>
    requires lent { have_loans_made judging.books ≡ true }
    ensures { IfOk result (λ after. after ≡ words.with_all n journal.now judging) }
{
    for entry in journal {
        judging = with_next(alloc, n, entry, judging)?;
    }
    Ok(judging)
}

// What is said where these promises are kept.
fn verdict_by(fronts: bool, withdraws: bool, losses: bool, found: bool) -> Verdict
    ensures { result ≡ words.verdict_by fronts withdraws losses found }
{
    if !fronts {
        return Verdict::No(Promise::Fronts);
    }
    if !withdraws {
        return Verdict::No(Promise::Withdraws);
    }
    if !losses {
        return Verdict::No(Promise::Losses);
    }
    if !found {
        return Verdict::No(Promise::Found);
    }
    Verdict::Yes
}

// What is said of all that was seen.
fn verdict_on(alloc: Global, judging: &Judging) -> Result<Verdict, AllocError>
    ensures { IfOk result (λ verdict. verdict ≡ words.verdict_on judging.now) }
{
    let fronts = keeps_fronts(alloc, judging.books.as_slice())?;
    Ok(verdict_by(fronts, judging.withdraws, judging.losses, judging.found))
}

/// The verdict on a journal of 32 spaces, the first entry first: yes where all four promises are
/// kept, else the first that isn't. Only memory fails it. It passes the entries once and keeps a
/// ledger of each space; an entry costs what its space's ledger does: it looks up what the entry
/// touches, and some entries look along what is outstanding there (README.md says which). A Withdraw
/// looks at all ledgers.
pub fn judge(alloc: Global, journal: &[Entry]) -> Result<Verdict, AllocError>
    ensures { IfOk result (λ verdict. IsVerdict most_spaces (reverse journal.now) verdict) }
{
    let judging = with_all(alloc, MOST_SPACES, journal, no_entry(alloc))?;
    let verdict = verdict_on(alloc, &judging)?;
    Ok(verdict)
}
