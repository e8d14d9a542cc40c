//! Loans that are made.

ghost use Rattle.std.specs.Prelude.{◌≡◌, [], ◌∷◌};
ghost use Rattle.nob_model_history.specs.Holds as words;
ghost use Rattle.nob_model_history.specs.Holds.{copies_lent, target_lent, loans_of};
ghost use Rattle.nob_space_items.specs.Lending.{CanLend, Lends};

use nob_ids::{SpaceId, WireRep};
use nob_item::Item;
use nob_model::{Loan, Message, RefCopy};
use nob_table::{ObjectTable, Part};

// Lends a reference once more.
pub(crate) fn lend(table: &mut ObjectTable, rep: WireRep)
    requires { CanLend table.old (rep ∷ []) }
    ensures { Lends table.old table.new (rep ∷ []) }
{
    match table.hold(rep, Part::Lent) {
        Ok(()) => {}
        Err(_) => unreachable!(),
    }
}

// Whether a loan is made.
fn is_lent(loan: Loan) -> bool
    ensures { result ≡ words.is_lent loan }
{
    match loan {
        Loan::Lent => true,
        Loan::Due | Loan::Never => false,
    }
}

// Lends the reference of a copy whose loan is made.
fn lend_copy(table: &mut ObjectTable, copy: &RefCopy)
    requires { CanLend table.old (copies_lent (copy.now ∷ [])) }
    ensures { Lends table.old table.new (copies_lent (copy.now ∷ [])) }
{
    if !is_lent(copy.loan) {
        return;
    }
    lend(table, copy.rep);
}

// Lends those of copies whose loans are made.
fn lend_copies(table: &mut ObjectTable, copies: &[RefCopy])
    requires { CanLend table.old (copies_lent copies.now) }
    ensures { Lends table.old table.new (copies_lent copies.now) }
{
    match copies {
        [] => {}
        [copy, others @ ..] => {
            lend_copy(table, copy);
            lend_copies(table, others);
        }
    }
}

// Lends the target of a Call.
fn lend_target(table: &mut ObjectTable, me: SpaceId, item: &Item)
    requires { CanLend table.old (target_lent me item.now) }
    ensures { Lends table.old table.new (target_lent me item.now) }
{
    let Item::Call { target, .. } = item else {
        return;
    };
    if *target == 0 {
        return;
    }
    lend(
        table,
        WireRep {
            owner: me,
            index: *target,
        },
    );
}

// Lends all that a message lends: the target of a Call, and its copies whose loans are made.
pub(crate) fn lend_message(table: &mut ObjectTable, me: SpaceId, message: &Message)
    requires { CanLend table.old (loans_of me message.now) }
    ensures { Lends table.old table.new (loans_of me message.now) }
{
    lend_target(table, me, &message.item);
    lend_copies(table, message.copies.as_slice());
}
