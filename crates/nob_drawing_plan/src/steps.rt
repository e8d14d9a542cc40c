//! What one deed changes of the bars of its space.

ghost use Rattle.std.specs.Prelude.{◌≡◌, IfOk, Some, true, map, drop};
ghost use Rattle.nob_model_history.specs.Transit.{is_pinned as is_pinned_word};
ghost use Rattle.nob_check_ledgers.specs.Ledgers.{ledger_after, has_loans_made};
ghost use Rattle.nob_drawing_plan.specs.Steps as spec;

use crate::bar::{Bar, with_begun};
use crate::mark::Mark;
use crate::marks::{is_quiet_deed, pins_of};
use nob_check_index::DeedIndex;
use nob_check_ledgers::{Ledger, with_deed};
use nob_ids::{SpaceId, WireRep};
use nob_item::Item;
use nob_model_history::SentItem;
use nob_model_types::Deed;
use std::alloc::{AllocError, Global};

/// What a deed changes of the marks of its space, the pins of what it sends aside.
#[derive(Clone, Copy, Debug)]
pub enum Change {
    /// An object is exported under this reference.
    Exported(WireRep),
    /// A client's Dirty for the object of an index is acted on.
    Asked(SpaceId, u64),
    /// A client's Clean for it is.
    GaveUp(SpaceId, u64),
    /// The session with a peer is opened anew.
    Opened(SpaceId),
    /// Another.
    Other,
}

// What acting on an item from a peer changes.
fn change_by(from: SpaceId, item: &Item) -> Change
    ensures { result ≡ spec.change_by from (Some item.now) }
{
    match item {
        Item::Dirty(index) => Change::Asked(from, *index),
        Item::Clean(index) => Change::GaveUp(from, *index),
        _ => Change::Other,
    }
}

// What a deed changes, by what was done before it.
fn change_of(deed: &Deed, past: &DeedIndex) -> Change
    ensures { result ≡ spec.change_of deed.now past.now.deeds }
{
    match deed {
        Deed::Export(rep) => Change::Exported(*rep),
        Deed::Act(from, number) => match past.item_at(*from, *number) {
            Some(item) => change_by(*from, item),
            None => Change::Other,
        },
        Deed::Open(peer, _) => Change::Opened(*peer),
        _ => Change::Other,
    }
}

// Whether a client that had entered itself for an index is entered after a change.
fn is_entered_still(change: &Change, after: &DeedIndex, index: u64, client: SpaceId) -> bool
    ensures { result
        ≡ spec.is_entered_still after.now.here.space index client change.now after.now.deeds }
{
    match change {
        Change::Asked(from, asked) => {
            if *from == client && *asked == index {
                return after.is_live(*asked);
            }
            true
        }
        Change::GaveUp(from, given) => !(*from == client && *given == index),
        Change::Opened(peer) => *peer != client,
        _ => true,
    }
}

// Whether a mark that held before a change holds after it.
fn holds_still(change: &Change, after: &DeedIndex, mark: Mark) -> bool
    ensures { result ≡ spec.holds_still after.now.here.space change.now after.now.deeds mark }
{
    match mark {
        Mark::Live(rep) => after.is_live(rep.index),
        Mark::Listed(rep, client) => {
            !after.is_closed(client) && is_entered_still(change, after, rep.index, client)
        }
        Mark::Pinned(_, peer, session, item) => {
            session == after.number(peer) && !after.is_settled(peer, item) && !after.is_closed(peer)
        }
    }
}

// The mark that holds after a change and perhaps not before, where there is one.
fn first_new(change: &Change, after: &DeedIndex) -> Option<Mark>
    ensures { result ≡ spec.first_new after.now.here.space change.now after.now.deeds }
{
    match change {
        Change::Exported(rep) => {
            if after.is_live(rep.index) {
                return Some(Mark::Live(*rep));
            }
            None
        }
        Change::Asked(client, index) => {
            if after.is_live(*index) && !after.is_closed(*client) {
                let owner = after.here().space;
                let rep = WireRep {
                    owner,
                    index: *index,
                };
                return Some(Mark::Listed(rep, *client));
            }
            None
        }
        _ => None,
    }
}

// Whether what was sent has pins.
fn is_pinned(alloc: Global, after: &DeedIndex, sent_item: &SentItem) -> Result<bool, AllocError>
    ensures { IfOk result (λ answer. answer ≡ is_pinned_word after.now.deeds sent_item.now) }
{
    let reps = nob_item::counted_refs(alloc, &sent_item.item)?;
    if reps.as_slice().is_empty() {
        return Ok(false);
    }
    if sent_item.session != after.number(sent_item.to) {
        return Ok(false);
    }
    if after.is_settled(sent_item.to, sent_item.number) {
        return Ok(false);
    }
    Ok(!after.is_closed(sent_item.to))
}

// The pins of what was sent of these items.
fn new_pins(
    alloc: Global,
    after: &DeedIndex,
    sent_items: &[SentItem],
) -> Result<Vec<Mark>, AllocError>
    ensures { IfOk result (λ found. found.items ≡ spec.new_pins after.now.deeds sent_items.now) }
{
    match sent_items {
        [] => Ok(Vec::new(alloc)),
        [sent_item, others @ ..] => {
            let mut rest = new_pins(alloc, after, others)?;
            if !is_pinned(alloc, after, sent_item)? {
                return Ok(rest);
            }
            let mut found = pins_of(alloc, sent_item)?;
            found.append(&mut rest)?;
            Ok(found)
        }
    }
}

// A bar after a change at a row of its space.
fn ended_by(change: &Change, after: &DeedIndex, row: usize, bar: &Bar) -> Bar
    ensures { result ≡ spec.ended_by after.now.here.space row change.now after.now.deeds bar.now }
{
    if bar.goes_on(after.here().space) && !holds_still(change, after, bar.mark) {
        return Bar {
            space: bar.space,
            mark: bar.mark,
            lane: bar.lane,
            start: bar.start,
            end: Some(row),
        };
    }
    *bar
}

// The bars after a change at a row of its space, without those that begin.
fn with_ended_by(
    alloc: Global,
    change: &Change,
    after: &DeedIndex,
    row: usize,
    bars: &[Bar],
) -> Result<Vec<Bar>, AllocError>
    ensures { IfOk result (λ left. left.items
        ≡ map (spec.ended_by after.now.here.space row change.now after.now.deeds) bars.now) }
{
    bars.iter()
        .map(|bar| ended_by(change, after, row, bar))
        .collect(alloc)
}

// The bars with that of a mark, where there is one that has none.
fn one_begun(
    alloc: Global,
    space: SpaceId,
    row: usize,
    mark: Option<Mark>,
    bars: Vec<Bar>,
) -> Result<Vec<Bar>, AllocError>
    ensures { IfOk result (λ more. more.items ≡ spec.one_begun space row mark bars.items) }
{
    match mark {
        Some(mark) => with_begun(alloc, space, row, &[mark], bars),
        None => Ok(bars),
    }
}

// The bars after a change at a row of its space, by which these items were sent.
fn bars_by(
    alloc: Global,
    change: &Change,
    after: &DeedIndex,
    sent_items: &[SentItem],
    row: usize,
    bars: &[Bar],
) -> Result<Vec<Bar>, AllocError>
    ensures { IfOk result (λ found. found.items
        ≡ spec.bars_by after.now.here.space row change.now after.now.deeds sent_items.now
        bars.now) }
{
    let space = after.here().space;
    let left = with_ended_by(alloc, change, after, row, bars)?;
    let more = one_begun(alloc, space, row, first_new(change, after), left)?;
    let pins = new_pins(alloc, after, sent_items)?;
    with_begun(alloc, space, row, pins.as_slice(), more)
}

// The items behind so many.
fn behind(count: usize, sent_items: &[SentItem]) -> &[SentItem]
    ensures { result.now ≡ drop count sent_items.now }
{
    if count > sent_items.len() {
        return &[];
    }
    sent_items.split_at(count).1
}

// How many items of those that were sent before a deed get no pin by it, where so many were: all of
// them, unless it opens a session anew.
fn passed_over(deed: &Deed, count: usize) -> usize
    ensures { result ≡ spec.passed_over deed.now count }
{
    match deed {
        Deed::Open(_, _) => 0,
        _ => count,
    }
}

/// A space's ledger and the bars after a deed of it at a row, where no loan is due before that can
/// be made. Only memory fails it. It looks up what the deed touches and whether the marks still
/// hold that have a bar which goes on; where it opens a session anew, it looks at all that was sent.
pub fn after_deed(
    alloc: Global,
    row: usize,
    deed: Deed,
    ledger: Ledger,
    bars: Vec<Bar>,
) -> Result<(Ledger, Vec<Bar>), AllocError>
    requires lent { has_loans_made ledger ≡ true }
    ensures ledger { IfOk result (λ found. found.0 ≡ ledger_after deed ledger) }
    ensures bars { IfOk result (λ found. found.1.items
        ≡ spec.bars_by_deed row deed ledger bars.items) }
{
    if is_quiet_deed(&deed) {
        let after = with_deed(alloc, deed, ledger)?;
        return Ok((after, bars));
    }
    let change = change_of(&deed, &ledger.index);
    let count = passed_over(&deed, ledger.sent_items.as_slice().len());
    let after = with_deed(alloc, deed, ledger)?;
    let sent_items = behind(count, after.sent_items.as_slice());
    let more = bars_by(
        alloc,
        &change,
        &after.index,
        sent_items,
        row,
        bars.as_slice(),
    )?;
    Ok((after, more))
}
