//! Which items that a space sent were settled.

ghost use Rattle.std.specs.Prelude.{◌≡◌, [], IfOk};
ghost use Rattle.std.specs.Option.{option_map};
ghost use Rattle.nob_check_index.specs.Settlements as words;

use indexmap::IndexSet;
use nob_check_tables::Came;
use nob_ids::{ItemNo, SpaceId};
use nob_item::Item;
use nob_model_types::Deed;
use std::alloc::{AllocError, Global};
use std::marker::Model;

/// A peer, and the number of an item to it that it settled.
#[derive(Clone, Copy, Debug, PartialEq, Eq, Hash)]
pub struct Settlement {
    /// The peer.
    pub peer: SpaceId,
    /// The item's number.
    pub number: u64,
}

/// The items whose Settle was acted on in the session with their receiver, each once. Contracts see
/// the list, in the order in which they were put in.
pub struct Settlements {
    set: IndexSet<Settlement>,
}

// By hand, so that the table is taken apart here alone and not at each end of each caller.
impl Drop for Settlements {
    fn drop(self) {
        let Settlements { set: _ } = self;
    }
}

impl Model for Settlements {
    ghost use Rattle.std.specs.Prelude.{List};
    ghost use Rattle.nob_check_index.specs.declared.settlements.Settlement.{Settlement};

    ghost Value = { List Settlement };

    ghost view = { λ settlements. settlements.set.keys };
}

impl Settlements {
    /// Nothing was settled.
    pub fn none(alloc: Global) -> Settlements
        ensures { result ≡ [] }
    {
        Settlements {
            set: IndexSet::new(alloc),
        }
    }

    /// Whether a peer settled the item of a number. Constant time on average.
    pub fn has(&self, peer: SpaceId, number: ItemNo) -> bool
        ensures { result ≡ words.is_settlement peer number self.now }
    {
        let settlement = Settlement {
            peer,
            number: number.get(),
        };
        self.set.contains(&settlement)
    }

    // These with one more.
    fn with_settlement(self, settlement: Settlement) -> Result<Settlements, AllocError>
        ensures { IfOk result (λ more. more ≡ words.with_settlement settlement self) }
    {
        let Settlements { mut set } = self;
        set.insert(settlement)?;
        Ok(Settlements { set })
    }

    // These without those of a peer. Linear in them.
    fn without_peer(self, peer: SpaceId) -> Settlements
        ensures { result ≡ words.without_peer peer self }
    {
        let Settlements { set } = self;
        Settlements {
            set: others(peer, set),
        }
    }
}

// Those of the other peers.
fn others(peer: SpaceId, mut set: IndexSet<Settlement>) -> IndexSet<Settlement>
    ensures { result.keys ≡ words.without_peer peer set.keys }
{
    set.retain(|settlement| peer != settlement.peer);
    set
}

// These once an item from a peer was acted on.
fn with_item(
    peer: SpaceId,
    item: Option<&Item>,
    settlements: Settlements,
) -> Result<Settlements, AllocError>
    ensures { IfOk result (λ more. more ≡ words.with_item peer
        (option_map (λ found. found.now) item.entry) settlements) }
{
    match item {
        Some(item) => match item {
            Item::Settle(number) => settlements.with_settlement(Settlement {
                peer,
                number: number.get(),
            }),
            _ => Ok(settlements),
        },
        None => Ok(settlements),
    }
}

/// These after a deed, by the items that came before it. Only memory fails it. It looks up the item
/// that is acted on. Where a session opens anew, it walks all of them.
pub fn settlements_after(
    deed: &Deed,
    came: &Came,
    settlements: Settlements,
) -> Result<Settlements, AllocError>
    ensures { IfOk result (λ after. after ≡ words.settlements_after deed.now came.now settlements) }
{
    match deed {
        Deed::Act(from, number) => {
            let item = came.item_at(*from, *number);
            with_item(*from, item, settlements)
        }
        Deed::Open(peer, _) => Ok(settlements.without_peer(*peer)),
        _ => Ok(settlements),
    }
}
