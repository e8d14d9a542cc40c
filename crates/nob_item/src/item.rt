//! What an item is.

ghost use Rattle.std.specs.Prelude.{◌≡◌, IsTrue, IfOk, OnErr};
ghost use Rattle.nob_item.specs.Kinds.{is_note, has_value_inside};

use nob_ids::{CallNo, ItemNo};
use nob_pickle::Value;
use std::alloc::AllocError;

/// What one space sends another in its place in their session, whatever stands in its fields:
/// `encode` says whether it has a spelling. All but Calls and Replies are notes.
#[derive(Debug, Drop)]
pub enum Item {
    /// A call of an object of the receiver's.
    Call {
        /// The number of the call among those of its sender.
        call: CallNo,
        /// The index of the object that is called.
        target: u64,
        /// The number of the method.
        method: u16,
        /// The argument.
        value: Value,
    },
    /// The answer to a call.
    Reply {
        /// The number that the call came with.
        call: CallNo,
        /// 0 answered, 1 the method's fault, 2 no such method, 3 a lost reference.
        status: u8,
        /// The result.
        value: Value,
    },
    /// The references that came with the item of this number have been dealt with.
    Settle(ItemNo),
    /// The sender wants to be listed for the object of this index.
    Dirty(u64),
    /// The receiver is listed for the object of this index.
    DirtyOk(u64),
    /// The receiver isn't listed for the object of this index: there is none.
    DirtyNo(u64),
    /// The sender has no use any more for the object of this index.
    Clean(u64),
}

impl Item {
    /// An equal item. Only memory fails it, and a note takes none, nor does an item whose value has
    /// nothing in it. It recurses once for each level of the value.
    pub fn copy(&self) -> Result<Item, AllocError>
        ensures same { IfOk result (λ item. item ≡ self.now) }
        ensures memory { OnErr result (IsTrue (has_value_inside self.now)) }
    {
        match self {
            Item::Call {
                call,
                target,
                method,
                value,
            } => Ok(Item::Call {
                call: *call,
                target: *target,
                method: *method,
                value: value.copy()?,
            }),
            Item::Reply {
                call,
                status,
                value,
            } => Ok(Item::Reply {
                call: *call,
                status: *status,
                value: value.copy()?,
            }),
            Item::Settle(item) => Ok(Item::Settle(*item)),
            Item::Dirty(index) => Ok(Item::Dirty(*index)),
            Item::DirtyOk(index) => Ok(Item::DirtyOk(*index)),
            Item::DirtyNo(index) => Ok(Item::DirtyNo(*index)),
            Item::Clean(index) => Ok(Item::Clean(*index)),
        }
    }

    /// Whether it is a note: neither a Call nor a Reply.
    pub fn is_note(&self) -> bool
        ensures { result ≡ is_note self.now }
    {
        match self {
            Item::Call { .. } | Item::Reply { .. } => false,
            Item::Settle(_)
            | Item::Dirty(_)
            | Item::DirtyOk(_)
            | Item::DirtyNo(_)
            | Item::Clean(_) => true,
        }
    }
}
