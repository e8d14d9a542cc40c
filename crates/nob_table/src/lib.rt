//! The object table of one space: for each counted reference how it stands here, and how often it
//! is held.
//!
//! A reference is known here in one of two ways. A reference to an object of this space is live
//! from its export to its withdrawal. A reference to an object of another space is a surrogate:
//! pending while its Dirty waits for the answer, then granted or refused. Once the session with its
//! owner has closed it is lost, and known only as long as it is held. The table takes no events and
//! knows no sessions: the space above says what happened.
#![tactic(auto)]

mod far;
mod losing;
mod order;
mod surrogates;
mod table;

pub use nob_table_rows::{Counts, Part, Standing, State, TableError, TableFault};
pub use table::ObjectTable;
