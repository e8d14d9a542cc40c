//! Which numbers an item may have.

ghost use Rattle.std.specs.Prelude.{◌≡◌, ◌↔◌, IsTrue};
ghost use Rattle.nob_item.specs.Spelling.{IsCallNumber, IsItemNumber, IsStatus};
ghost use Rattle.nob_item.specs.Judging.{is_call_number, is_item_number, is_status};

use nob_ids::{CallNo, ItemNo};

/// The greatest number of a call.
const LAST_CALL: u64 = 1 << 48;

/// The greatest number of an item.
const LAST_ITEM: u64 = 1 << 40;

/// The greatest status.
const LAST_STATUS: u8 = 3;

/// Whether a call may have this number.
pub(crate) fn is_call_number(call: CallNo) -> bool
    ensures value { result ≡ is_call_number call }
    ensures in_range { IsTrue result ↔ IsCallNumber call }
{
    call.get() >= 1 && call.get() <= LAST_CALL
}

/// Whether an item may have this number.
pub(crate) fn is_item_number(item: ItemNo) -> bool
    ensures value { result ≡ is_item_number item }
    ensures in_range { IsTrue result ↔ IsItemNumber item }
{
    item.get() >= 1 && item.get() <= LAST_ITEM
}

/// Whether there is such a status.
pub(crate) fn is_status(status: u8) -> bool
    ensures value { result ≡ is_status status }
    ensures in_range { IsTrue result ↔ IsStatus status }
{
    status <= LAST_STATUS
}
