//! The ledger of a space, from one deed to the next.

ghost use Rattle.std.specs.Prelude.{◌≡◌, [], IfOk, true};
ghost use Rattle.nob_model_types.specs.Sessions.{item_at as item_word};
ghost use Rattle.nob_model_history.specs.Transit.{with_gifts as with_gifts_word};
ghost use Rattle.nob_check_ledgers.specs.Ledgers as words;

use crate::giving::gifts;
use crate::lists::ActedItem;
use crate::sent::SentItems;
use crate::working;
use nob_check_index::DeedIndex;
use nob_ids::{ItemNo, SpaceId};
use nob_item::Item;
use nob_model_types::{Deed, Here, List};
use nob_model_work::{Gift, Outstanding};
use std::alloc::{AllocError, Global};

/// What one pass over a journal keeps of a space.
#[derive(Drop)]
pub struct Ledger {
    /// What it did, and among how many spaces, to be looked up.
    pub index: DeedIndex,
    /// What it has outstanding.
    pub work: Outstanding,
    /// What it sent, with the numbers, the first first.
    pub sent_items: SentItems,
    /// What it acted on, the first first.
    pub acted_items: List<ActedItem>,
    /// Whether it acted on nothing after the session with the sender closed.
    pub acts_open: bool,
    /// Whether it sent nothing after the session with the receiver closed.
    pub sends_open: bool,
}

/// The ledger of a space that did nothing.
pub fn new_ledger(alloc: Global, here: Here) -> Ledger
    ensures { result ≡ words.ledger_of here.space here.n [] }
{
    Ledger {
        index: DeedIndex::new(alloc, here),
        work: Outstanding::none(alloc),
        sent_items: SentItems::none(alloc),
        acted_items: List::from_vec(Vec::new(alloc)),
        acts_open: true,
        sends_open: true,
    }
}

// What was sent with some gifts more: a deed gives few.
fn with_gifts(
    alloc: Global,
    past: &DeedIndex,
    gifts: &[Gift],
    sent_items: SentItems,
) -> Result<SentItems, AllocError>
    ensures { IfOk result (λ more. more
        ≡ with_gifts_word past.now.deeds sent_items gifts.now) }
{
    match gifts {
        [] => Ok(sent_items),
        [gift, rest @ ..] => {
            let more = sent_items.with_gift(alloc, past, gift)?;
            let all = with_gifts(alloc, past, rest, more)?;
            Ok(all)
        }
    }
}

// Whether the sessions with the receivers of gifts are open.
fn are_open(gifts: &[Gift], past: &DeedIndex) -> bool
    ensures { result ≡ words.are_open gifts.now past.now.deeds }
{
    match gifts {
        [] => true,
        [gift, others @ ..] => !past.is_closed(gift.to) && are_open(others, past),
    }
}

// An item from a peer, where its payload came and spells one.
fn item_at(from: SpaceId, number: ItemNo, past: &DeedIndex) -> Result<Option<Item>, AllocError>
    ensures { IfOk result (λ item. item ≡ item_word from number past.now.deeds) }
{
    match past.item_at(from, number) {
        Some(item) => Ok(Some(item.copy()?)),
        None => Ok(None),
    }
}

// What was acted on after a deed, behind these.
fn acted_after(
    deed: &Deed,
    past: &DeedIndex,
    acted_items: List<ActedItem>,
) -> Result<List<ActedItem>, AllocError>
    ensures { IfOk result (λ after. after ≡ words.acted_after deed.now past.now.deeds acted_items) }
{
    match deed {
        Deed::Act(from, number) => {
            let item = item_at(*from, *number, past)?;
            let mut items = acted_items.into_vec();
            items.push(ActedItem {
                from: *from,
                session: past.number(*from),
                number: *number,
                item,
            })?;
            Ok(List::from_vec(items))
        }
        _ => Ok(acted_items),
    }
}

// Whether nothing was acted on after its session closed, after a deed.
fn acts_open_after(deed: &Deed, past: &DeedIndex, before: bool) -> bool
    ensures { result ≡ words.acts_open_after deed.now past.now.deeds before }
{
    match deed {
        Deed::Act(from, _) => !past.is_closed(*from) && before,
        _ => before,
    }
}

/// The ledger after a deed, where no loan is due before that can be made. Only memory fails it. It
/// looks up what the deed touches, and what is outstanding costs what `working::with_deed` says.
pub fn with_deed(alloc: Global, deed: Deed, ledger: Ledger) -> Result<Ledger, AllocError>
    requires lent { words.has_loans_made ledger ≡ true }
    ensures step { IfOk result (λ after. after ≡ words.ledger_after deed ledger) }
{
    let Ledger {
        index,
        work,
        sent_items,
        acted_items,
        acts_open,
        sends_open,
    } = ledger;
    let given = gifts(alloc, &deed, &index, &work)?;
    let sends_open = are_open(given.as_slice(), &index) && sends_open;
    let sent_items = with_gifts(alloc, &index, given.as_slice(), sent_items)?;
    let acts_open = acts_open_after(&deed, &index, acts_open);
    let acted_items = acted_after(&deed, &index, acted_items)?;
    let (index, work) = working::with_deed(alloc, deed, index, work)?;
    Ok(Ledger {
        index,
        work,
        sent_items,
        acted_items,
        acts_open,
        sends_open,
    })
}
