//! No object is withdrawn too early.

ghost use Rattle.std.specs.Prelude.{◌≡◌, IfOk, not};
ghost use Rattle.std.specs.List.{list_any, list_all};
ghost use Rattle.nob_check.specs.Books as books_words;
ghost use Rattle.nob_check.specs.Checks as words;

use crate::books::{both_open, is_with_owner, number_at, reaches_owner};
use nob_check_ledgers::{Ledger, Place, is_held};
use nob_ids::{SpaceId, WireRep};
use nob_model_types::Deed;
use std::alloc::{AllocError, Global};

// Whether the sessions in which a space sent a reference to a place are open.
fn is_open_for(sender: SpaceId, rep: &WireRep, place: &Place, books: &[Ledger]) -> bool
    ensures { result ≡ words.is_open_for_by
        (books_words.did_by books.now) sender rep.now place.now }
{
    if place.session != number_at(sender, place.to, books) {
        return false;
    }
    if !both_open(sender, place.to, books) {
        return false;
    }
    is_with_owner(sender, rep, place.with_owner, books) && reaches_owner(sender, rep, books)
}

// Whether what the space of a ledger sent to a place isn't settled, and its sessions are open.
fn is_open_place(rep: &WireRep, ledger: &Ledger, place: &Place, books: &[Ledger]) -> bool
    ensures { result ≡ words.is_open_place_by
        (books_words.did_by books.now) rep.now ledger.now place.now }
{
    !ledger.index.is_settled(place.to, place.number)
        && is_open_for(ledger.index.here().space, rep, place, books)
}

// Whether one of these places is such a one.
fn is_any_open(rep: &WireRep, ledger: &Ledger, places: &[Place], books: &[Ledger]) -> bool
    ensures { result ≡ list_any (words.is_open_place_by
        (books_words.did_by books.now) rep.now ledger.now) places.now }
{
    for place in places {
        if is_open_place(rep, ledger, place, books) {
            return true;
        }
    }
    false
}

// Whether something that the space of a ledger sent carries a reference in open transit.
fn has_open_copy(rep: &WireRep, ledger: &Ledger, books: &[Ledger]) -> bool
    ensures { result ≡ list_any (words.is_open_copy_by
        (books_words.did_by books.now) rep.now ledger.now) ledger.now.sent_items }
{
    is_any_open(rep, ledger, ledger.sent_items.places(rep), books)
}

// Whether the space of a ledger can use a reference: it holds it, and reaches its owner.
fn can_use(
    alloc: Global,
    rep: &WireRep,
    ledger: &Ledger,
    books: &[Ledger],
) -> Result<bool, AllocError>
    ensures { IfOk result (λ answer. answer
        ≡ words.can_use_by (books_words.did_by books.now) rep.now ledger.now) }
{
    if !is_held(alloc, rep, ledger)? {
        return Ok(false);
    }
    Ok(reaches_owner(ledger.index.here().space, rep, books))
}

// Whether the space of a ledger needs a reference.
fn needs(
    alloc: Global,
    rep: &WireRep,
    ledger: &Ledger,
    books: &[Ledger],
) -> Result<bool, AllocError>
    ensures { IfOk result (λ answer. answer
        ≡ words.needs_by (books_words.did_by books.now) rep.now ledger.now) }
{
    if can_use(alloc, rep, ledger, books)? {
        return Ok(true);
    }
    Ok(has_open_copy(rep, ledger, books))
}

// Whether none of the spaces of these ledgers needs a reference.
fn no_space_needs(
    alloc: Global,
    rep: &WireRep,
    ledgers: &[Ledger],
    books: &[Ledger],
) -> Result<bool, AllocError>
    ensures { IfOk result (λ answer. answer
        ≡ list_all (λ ledger. not (words.needs_by (books_words.did_by books.now) rep.now ledger))
        ledgers.now) }
{
    match ledgers {
        [] => Ok(true),
        [ledger, others @ ..] => {
            if needs(alloc, rep, ledger, books)? {
                return Ok(false);
            }
            no_space_needs(alloc, rep, others, books)
        }
    }
}

/// Whether a deed of a space isn't the withdrawal of an object that a space needs. For a Withdraw
/// it passes all ledgers, what each has outstanding and where each sent the reference; it looks at none
/// for any other deed.
pub fn is_unneeded(
    alloc: Global,
    owner: SpaceId,
    deed: &Option<Deed>,
    books: &[Ledger],
) -> Result<bool, AllocError>
    ensures { IfOk result (λ answer. answer ≡ words.is_unneeded_by owner deed.now books.now) }
{
    match deed {
        Some(Deed::Withdraw(index)) => {
            let index = *index;
            let rep = WireRep { owner, index };
            no_space_needs(alloc, &rep, books, books)
        }
        _ => Ok(true),
    }
}
