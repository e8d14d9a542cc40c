//! New keepers.

use nob_ids::{Limits, SpaceId};
use nob_keeper::{Keeper, KeeperError, Space};
use std::alloc::Global;

/// A keeper of a new space, one of two: `None` where there is no memory.
pub(crate) fn new_keeper(alloc: Global, id: SpaceId) -> Option<Keeper> {
    let Ok(space) = Space::new(alloc, id, 2, Limits::default()) else {
        return None;
    };
    match Keeper::new(alloc, space) {
        Ok(keeper) => Some(keeper),
        Err(space) => {
            space.shut();
            None
        }
    }
}

/// The same with segments of so many entries. Sizes that no segment may have must be refused.
pub(crate) fn with_segments(alloc: Global, id: SpaceId, size: u32) -> Option<Keeper> {
    if !refuses(alloc, id, 0) || !refuses(alloc, id, 65_537) {
        return None;
    }
    let Ok(space) = Space::new(alloc, id, 2, Limits::default()) else {
        return None;
    };
    match Keeper::with_segment(alloc, space, size) {
        Ok(keeper) => Some(keeper),
        Err((_, space)) => {
            space.shut();
            None
        }
    }
}

// Whether a new space is handed back, since no segment may have so many entries.
fn refuses(alloc: Global, id: SpaceId, size: u32) -> bool {
    let Ok(space) = Space::new(alloc, id, 2, Limits::default()) else {
        return false;
    };
    match Keeper::with_segment(alloc, space, size) {
        Ok(keeper) => {
            keeper.shut();
            false
        }
        Err((error, space)) => {
            space.shut();
            error == KeeperError::Size
        }
    }
}

/// The first space.
pub(crate) fn first() -> SpaceId {
    match SpaceId::new(1) {
        Some(id) => id,
        None => unreachable!(),
    }
}

/// The second space.
pub(crate) fn second() -> SpaceId {
    match SpaceId::new(2) {
        Some(id) => id,
        None => unreachable!(),
    }
}
