//! Who is listed for an object and what is in transit, and what the table keeps from outside for that.

ghost use Rattle.std.specs.Prelude.{◌≡◌, MatchResult, true, false};
ghost use Rattle.std.specs.List.{list_any};
ghost use Rattle.nob_ids.specs.Names.{is_same};
ghost use Rattle.nob_dirty.specs.Sets.{Leaves, LeavesAll};
ghost use Rattle.nob_pins.specs.Bundles.{TakesOut, TakesOutAll, has_bundle, Unchanged};
ghost use Rattle.nob_pins.specs.Evidence.{AreOf, AreTo, reps_of};
ghost use Rattle.nob_table.specs.Table.{Marked};
ghost use Rattle.nob_space_state.specs.Looks.{has_clients, is_used, HaveUsers, IsAmong, KeepsMore, LetsGo};

use nob_dirty::DirtySets;
use nob_ids::{SpaceId, WireRep};
use nob_pins::{PinFault, PinTable, Settled, TransitPin};
use nob_session::Closed;
use nob_table::ObjectTable;
use std::collections::BTreeSet;

// Whether a client is listed at an index.
pub(crate) fn has_clients(dirty: &DirtySets, index: u64) -> bool
    ensures { result ≡ has_clients dirty.now index }
{
    !dirty.is_empty(index)
}

// Whether something outside uses a reference: it is in transit from here, or to an object of this
// space that a client is listed for.
fn is_used(pins: &PinTable, dirty: &DirtySets, me: SpaceId, rep: &WireRep) -> bool
    ensures { result ≡ is_used me pins.now.bundles dirty.now rep.now }
{
    pins.count(*rep) != 0 || rep.owner == me && has_clients(dirty, rep.index)
}

// Lets a reference go that nothing outside uses any more.
fn let_go_of(
    table: &mut ObjectTable,
    pins: &PinTable,
    dirty: &DirtySets,
    me: SpaceId,
    rep: &WireRep,
)
    ensures table { Marked table.old table.new }
    ensures kept { LetsGo me (λ other. rep.now ≡ other) table.old table.new pins.now.bundles
        dirty.now }
{
    if is_used(pins, dirty, me, rep) {
        return;
    }
    table.let_go(rep);
}

// Keeps these references from outside, as they are in transit now. It takes no memory. A look-up for
// each.
pub(crate) fn keep_all(table: &mut ObjectTable, reps: &[WireRep])
    ensures table { Marked table.old table.new }
    ensures kept { KeepsMore table.old table.new reps.now }
{
    for rep in reps {
        table.keep(rep);
    }
}

/// Lists a client at an index no longer. Where nobody is listed there any more and no reference to it
/// is in transit, the object isn't kept from outside. It takes no memory. A look-up for each client.
pub fn unlist(
    table: &mut ObjectTable,
    pins: &PinTable,
    dirty: &mut DirtySets,
    me: SpaceId,
    index: u64,
    client: SpaceId,
)
    ensures listed { Leaves dirty.old dirty.new index client }
    ensures table { Marked table.old table.new }
    ensures kept { HaveUsers me table.old pins.now.bundles dirty.old
        → HaveUsers me table.new pins.now.bundles dirty.new }
{
    dirty.clean(index, client);
    let_go_of(table, pins, dirty, me, &WireRep { owner: me, index });
}

// Lets the objects of these indexes go that nothing outside uses any more.
fn let_all_go(
    table: &mut ObjectTable,
    pins: &PinTable,
    dirty: &DirtySets,
    me: SpaceId,
    indexes: &BTreeSet<u64>,
)
    ensures table { Marked table.old table.new }
    ensures kept { LetsGo me (λ rep. IsAmong me indexes.now.keys rep) table.old table.new
        pins.now.bundles dirty.now }
{
    for index in indexes.iter().copied() {
        let_go_of(table, pins, dirty, me, &WireRep { owner: me, index });
    }
}

// Lists a client nowhere any longer: what nothing else outside uses isn't kept from there. It takes
// no memory. A look-up for each client at each index where this one was listed.
pub(crate) fn unlist_all(
    table: &mut ObjectTable,
    pins: &PinTable,
    dirty: &mut DirtySets,
    me: SpaceId,
    client: SpaceId,
)
    ensures listed { LeavesAll dirty.old dirty.new client }
    ensures table { Marked table.old table.new }
    ensures kept { HaveUsers me table.old pins.now.bundles dirty.old
        → HaveUsers me table.new pins.now.bundles dirty.new }
{
    let indexes = dirty.take_indexes(client);
    let_all_go(table, pins, dirty, me, &indexes);
}

// Spends the pins of an item that is settled, and lets go what nothing outside uses any more.
fn spend_all(
    table: &mut ObjectTable,
    pins: &PinTable,
    dirty: &DirtySets,
    me: SpaceId,
    ended: Vec<TransitPin>,
    settled: &Settled,
)
    requires { AreOf settled.now.peer settled.now.item ended.items }
    ensures table { Marked table.old table.new }
    ensures kept { LetsGo me (λ rep. list_any (is_same rep) (reps_of ended.items) ≡ true) table.old table.new
        pins.now.bundles dirty.now }
{
    let mut left = ended;
    while let Some(pin) = left.pop() {
        let rep = pin.rep();
        pin.spend(settled);
        let_go_of(table, pins, dirty, me, &rep);
    }
    left.destroy_empty();
}

/// Ends the pins of an item that is settled: what nothing outside uses any more isn't kept from
/// there. `NoBundle` where the item has no pins. It takes no memory. Linear in the pins of that item.
pub fn settle_pins(
    table: &mut ObjectTable,
    pins: &mut PinTable,
    dirty: &DirtySets,
    me: SpaceId,
    settled: &Settled,
) -> Result<(), PinFault>
    ensures answer { MatchResult result
        (λ _. TakesOut pins.old.bundles pins.new.bundles settled.now.peer settled.now.item)
        (λ fault. (has_bundle pins.old.bundles settled.now.peer settled.now.item ≡ false)
        × Unchanged pins.old pins.new) }
    ensures table { Marked table.old table.new }
    ensures kept { HaveUsers me table.old pins.old.bundles dirty.now
        → HaveUsers me table.new pins.new.bundles dirty.now }
{
    let ended = pins.take(settled)?;
    spend_all(table, pins, dirty, me, ended, settled);
    Ok(())
}

// Gives the pins of an item to a peer up whose session has closed, and lets go what nothing outside
// uses any more.
fn give_up_all(
    table: &mut ObjectTable,
    pins: &PinTable,
    dirty: &DirtySets,
    me: SpaceId,
    lost: Vec<TransitPin>,
    closed: &Closed,
)
    requires { AreTo closed.now.peer lost.items }
    ensures table { Marked table.old table.new }
    ensures kept { LetsGo me (λ rep. list_any (is_same rep) (reps_of lost.items) ≡ true) table.old table.new
        pins.now.bundles dirty.now }
{
    let mut left = lost;
    while let Some(pin) = left.pop() {
        let rep = pin.rep();
        pin.give_up(closed);
        let_go_of(table, pins, dirty, me, &rep);
    }
    left.destroy_empty();
}

// Ends the pins to a peer whose session has closed: what nothing outside uses any more isn't kept
// from there. It takes no memory. Linear in these pins.
pub(crate) fn close_pins(
    table: &mut ObjectTable,
    pins: &mut PinTable,
    dirty: &DirtySets,
    me: SpaceId,
    closed: &Closed,
)
    ensures pins { TakesOutAll pins.old.bundles pins.new.bundles closed.now.peer }
    ensures table { Marked table.old table.new }
    ensures kept { HaveUsers me table.old pins.old.bundles dirty.now
        → HaveUsers me table.new pins.new.bundles dirty.now }
{
    while let Some(lost) = pins.pop(closed.peer()) {
        give_up_all(table, pins, dirty, me, lost, closed);
    }
}
