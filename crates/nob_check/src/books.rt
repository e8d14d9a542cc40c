//! The ledgers of all spaces.

ghost use Rattle.std.specs.Prelude.{◌≡◌, ◌==◌, IfOk, true};
ghost use Rattle.std.specs.List.{list_any};
ghost use Rattle.std.specs.Option.{option_map};
ghost use Rattle.nob_check.specs.Books as words;

use nob_check_ledgers::{Ledger, new_ledger, with_deed};
use nob_ids::{SpaceId, WireRep};
use nob_model_types::{Deed, Here, List};
use std::alloc::{AllocError, Global};

/// The ledger of a space, where there is one. Linear in the spaces.
pub fn find_ledger(space: SpaceId, books: &[Ledger]) -> Option<&Ledger>
    ensures { option_map (λ ledger. ledger.now) result ≡ words.find_ledger space books.now }
{
    match books {
        [] => None,
        [ledger, others @ ..] => {
            if ledger.index.here().space == space {
                return Some(ledger);
            }
            find_ledger(space, others)
        }
    }
}

/// Whether the session with a peer has closed at a space.
pub fn closed_at(space: SpaceId, peer: SpaceId, books: &[Ledger]) -> bool
    ensures { result ≡ words.closed_by (words.did_by books.now) space peer }
{
    match find_ledger(space, books) {
        Some(ledger) => ledger.index.is_closed(peer),
        None => false,
    }
}

/// The number of the session with a peer in which a space is.
pub fn number_at(space: SpaceId, peer: SpaceId, books: &[Ledger]) -> u32
    ensures { result ≡ words.number_by (words.did_by books.now) space peer }
{
    match find_ledger(space, books) {
        Some(ledger) => ledger.index.number(peer),
        None => 1,
    }
}

/// Whether two spaces are in one session with each other, and it is open at both ends.
pub fn both_open(space: SpaceId, other: SpaceId, books: &[Ledger]) -> bool
    ensures { result ≡ words.both_open_by (words.did_by books.now) space other }
{
    number_at(space, other, books) == number_at(other, space, books)
        && (!closed_at(space, other, books) && !closed_at(other, space, books))
}

/// Whether a space is the owner of a reference, or its session with the owner is open at both ends.
pub fn reaches_owner(space: SpaceId, rep: &WireRep, books: &[Ledger]) -> bool
    ensures { result ≡ words.reaches_owner_by (words.did_by books.now) space rep.now }
{
    rep.owner == space || both_open(space, rep.owner, books)
}

/// Whether a space is the owner of a reference, or in a session of this number with the owner.
pub fn is_with_owner(space: SpaceId, rep: &WireRep, session: u32, books: &[Ledger]) -> bool
    ensures { result
        ≡ words.is_with_owner_by (words.did_by books.now) space rep.now session }
{
    rep.owner == space || session == number_at(space, rep.owner, books)
}

// Whether a space has a ledger.
fn has_ledger(space: SpaceId, books: &[Ledger]) -> bool
    ensures { result ≡ list_any (λ ledger. ledger.index.here.space == space) books.now }
{
    books
        .iter()
        .any(|ledger| ledger.index.here().space == space)
}

// The ledgers with one of a space, an empty one where there is none.
fn with_ledger(
    alloc: Global,
    here: Here,
    mut ledgers: Vec<Ledger>,
) -> Result<Vec<Ledger>, AllocError>
    ensures { IfOk result (λ more. more.items ≡ words.with_ledger here.n here.space ledgers.items) }
{
    if has_ledger(here.space, ledgers.as_slice()) {
        return Ok(ledgers);
    }
    ledgers.insert(0, new_ledger(alloc, here))?;
    Ok(ledgers)
}

// The ledgers after a deed of a space.
fn ledgers_after(
    alloc: Global,
    space: SpaceId,
    deed: Deed,
    mut ledgers: Vec<Ledger>,
) -> Result<Vec<Ledger>, AllocError>
    requires lent { words.have_loans_made ledgers.items ≡ true }
    ensures { IfOk result (λ after. after.items ≡ words.ledgers_after space deed ledgers.items) }
{
    if ledgers.as_slice().is_empty() {
        return Ok(ledgers);
    }
    let first = ledgers.remove(0);
    if first.index.here().space == space {
        let after = with_deed(alloc, deed, first)?;
        ledgers.insert(0, after)?;
        return Ok(ledgers);
    }
    let mut rest = ledgers_after(alloc, space, deed, ledgers)?;
    rest.insert(0, first)?;
    Ok(rest)
}

/// The ledgers after an entry of a space that did this, where no loan is due before that can be
/// made. The space's own ledger changes, and no other.
#[tactic(auto, using(crate::proofs::Loaning::ledger_lent))]
pub fn with_entry(
    alloc: Global,
    here: Here,
    deed: Option<Deed>,
    books: List<Ledger>,
) -> Result<List<Ledger>, AllocError>
    requires lent { words.have_loans_made books ≡ true }
    ensures { IfOk result (λ after. after ≡ words.with_entry here.n here.space deed books) }
{
    let ledgers = with_ledger(alloc, here, books.into_vec())?;
    match deed {
        Some(deed) => Ok(List::from_vec(ledgers_after(alloc, here.space, deed, ledgers)?)),
        None => Ok(List::from_vec(ledgers)),
    }
}
