//! The ledger of a space: what one pass over a journal keeps of it. It has what the space did, to
//! be looked up, and has outstanding, what it sent and what it acted on, and whether it did so on open
//! sessions; and it goes from one deed to the next. It is kept for every list of deeds, run or not.
#![tactic(auto)]

mod giving;
mod held;
pub mod laws;
mod ledger;
mod lending;
mod lists;
mod losses;
mod making;
mod sent;
mod standing;
mod working;

pub use held::is_held;
pub use ledger::{Ledger, new_ledger, with_deed};
pub use lists::ActedItem;
pub use losses::{is_carried, is_loss};
pub use sent::{Carriers, Place, Places, SentCounts, SentItems};
