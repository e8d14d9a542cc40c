//! Who carries parcels between two nodes, until the ends of their links are let go.

use nob_link::{Parcel, PutEnd, TakeEnd, TryPutError};
use std::sync::Wait;

/// How many parcels are carried one way at most before the other comes.
const MAX_ONE_WAY: u32 = 32;

/// The way of parcels from one node to another, over two links.
#[derive(Drop)]
pub(crate) struct Way {
    take: TakeEnd,
    put: PutEnd,
    // What the second link had no room for.
    late: Option<Parcel>,
}

impl Way {
    // The way from the end of one link to that of another.
    pub(crate) fn new(take: TakeEnd, put: PutEnd) -> Way {
        Way {
            take,
            put,
            late: None,
        }
    }

    // Carries the next parcel on, if there is one and there is room for it: whether it did. `None`
    // where nothing comes any more, or nothing is taken any more.
    fn carry<R: Wait>(&mut self, rt: &R) -> Option<bool> {
        let parcel = match self.late.take() {
            Some(parcel) => parcel,
            None => match self.take.try_take_as(rt) {
                Ok(parcel) => parcel,
                Err(nob_link::TryTakeError::Empty) => return Some(false),
                Err(nob_link::TryTakeError::Gone) => return None,
            },
        };
        match self.put.try_put_as(rt, parcel) {
            Ok(()) => Some(true),
            Err(TryPutError::Full { parcel }) => {
                self.late = Some(parcel);
                Some(false)
            }
            Err(TryPutError::Gone(_)) => None,
        }
    }

    // Carries what there is on: how many parcels, or `None` where it ends.
    fn carry_some<R: Wait>(&mut self, rt: &R) -> Option<u64> {
        let mut count: u64 = 0;
        for _ in 0..MAX_ONE_WAY {
            if !self.carry(rt)? {
                break;
            }
            count = count.saturating_add(1);
        }
        Some(count)
    }
}

/// Who carries parcels between two nodes, there and back, until so many were carried: then all four
/// ends are let go.
#[derive(Drop)]
pub(crate) struct Carrier {
    there: Option<Way>,
    back: Option<Way>,
    left: u64,
}

impl Carrier {
    // Who carries so many.
    pub(crate) fn new(there: Way, back: Way, left: u64) -> Carrier {
        Carrier {
            there: Some(there),
            back: Some(back),
            left,
        }
    }

    // Whether it has ends of links.
    pub(crate) fn is_there(&self) -> bool {
        self.there.is_some() || self.back.is_some()
    }

    // Carries what there is each way: whether there was something.
    pub(crate) fn turn<R: Wait>(&mut self, rt: &R) -> bool {
        let count = turn_of(rt, &mut self.there).saturating_add(turn_of(rt, &mut self.back));
        self.left = self.left.saturating_sub(count);
        if self.left == 0 {
            self.there = None;
            self.back = None;
        }
        count > 0
    }
}

// Carries what there is one way: how much. Where nothing more can be carried its ends are let go.
fn turn_of<R: Wait>(rt: &R, way: &mut Option<Way>) -> u64 {
    let Some(carried) = way else {
        return 0;
    };
    match carried.carry_some(rt) {
        Some(count) => count,
        None => {
            *way = None;
            0
        }
    }
}
