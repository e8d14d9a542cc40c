//! What a space did, with tables in which each question about it is looked up: the judge of a
//! journal asks here in place of reading the deeds again.
#![tactic(auto)]

mod acted;
mod counts;
mod index;
mod lists;
mod lookups;
mod more;
mod objects;
mod settlements;
mod sources;
mod traffic;

pub use index::DeedIndex;
pub use lists::SpaceDeeds;
