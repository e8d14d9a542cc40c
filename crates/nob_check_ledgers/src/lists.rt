//! The lists that a ledger keeps.

ghost use Rattle.std.specs.Prelude.{◌≡◌};

use nob_ids::{ItemNo, SpaceId};
use nob_item::Item;

/// An item that was acted on.
#[derive(Debug, Drop)]
pub struct ActedItem {
    /// The space that sent it.
    pub from: SpaceId,
    /// The number of the session in which it came.
    pub session: u32,
    /// The number that was answered.
    pub number: ItemNo,
    /// The item, where its payload came and spells one.
    pub item: Option<Item>,
}
