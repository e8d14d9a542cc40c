//! Cases of dirty sets.

use nob_case_texts::Answer;
use nob_dirty::DirtySets;
use nob_ids::SpaceId;
use std::alloc::{AllocError, Global};

/// A call on the dirty sets, or new sets in their place.
#[derive(Drop)]
pub enum SetCase {
    /// Sets that list nobody.
    New,
    /// Lists the client at the index.
    Dirty(u64, SpaceId),
    /// Lists the client at the index no longer.
    Clean(u64, SpaceId),
    /// Lists the client nowhere any longer.
    Close(SpaceId),
    /// Whether the client is listed at the index.
    Lists(u64, SpaceId),
    /// Whether nobody is listed at the index.
    IsEmpty(u64),
    /// The clients at the index.
    Clients(u64),
}

/// Makes a case on the sets. Only memory fails it, and then nothing has changed.
pub fn make(alloc: Global, sets: &mut DirtySets, case: &SetCase) -> Result<Answer, AllocError> {
    match case {
        SetCase::New => *sets = DirtySets::new(alloc),
        SetCase::Dirty(index, client) => sets.dirty(*index, *client)?,
        SetCase::Clean(index, client) => sets.clean(*index, *client),
        SetCase::Close(client) => sets.close(*client),
        SetCase::Lists(index, client) => return Ok(Answer::of_test(sets.lists(*index, *client))),
        SetCase::IsEmpty(index) => return Ok(Answer::of_test(sets.is_empty(*index))),
        SetCase::Clients(index) => return Ok(Answer::Spaces(sets.clients(*index)?)),
    }
    Ok(Answer::Word("ok"))
}
