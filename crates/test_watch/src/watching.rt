//! What a checker that follows says.

use nob_chain::{Chain, ChainParts, Segment};
use nob_ids::{Limits, SpaceId};
use nob_model_types::Entry;
use nob_recall::{Dated, SegmentSeal, WatchError, WatchFault};
use nob_trace::Stamped;
use nob_watch::Watch;
use std::alloc::{AllocError, Global};

// The limits of each space, by its number.
fn limits_of(alloc: Global, chains: &[Chain]) -> Result<Vec<Limits>, AllocError> {
    let mut limits = vec![in alloc; Limits::default(); chains.len()]?;
    for chain in chains {
        if let Some(own) = limits.get_mut(chain.parts().space.place()) {
            *own = chain.parts().limits;
        }
    }
    Ok(limits)
}

// An entry of a space.
fn dated_of(space: SpaceId, stamped: Stamped) -> Dated {
    let Stamped {
        stamp,
        event,
        result,
    } = stamped;
    Dated {
        stamp,
        entry: Entry {
            space,
            event,
            result,
        },
        seal: None,
    }
}

// The entries of a chain, the last first.
fn turned(alloc: Global, chain: Chain) -> Result<Vec<Dated>, AllocError> {
    let mut all: Vec<Dated> = Vec::new(alloc);
    let ChainParts {
        space,
        segments,
        ..
    } = chain.into_parts();
    let mut number = 0u64;
    for segment in segments.into_vec() {
        let Segment { entries, seal } = segment;
        number = number.saturating_add(1);
        for stamped in entries.into_vec() {
            all.push(dated_of(space, stamped))?;
        }
        if let Some(seal) = seal {
            if let Some(mut last) = all.pop() {
                last.seal = Some(SegmentSeal { number, seal });
                all.push(last)?;
            }
        }
    }
    all.reverse();
    Ok(all)
}

/// How many entries a checker that follows passes, or what stops it.
pub fn stopped(alloc: Global, span: usize, chains: Vec<Chain>) -> Result<u64, WatchError> {
    let limits = limits_of(alloc, chains.as_slice())?;
    let mut left: Vec<(SpaceId, Vec<Dated>)> = Vec::new(alloc);
    for chain in chains {
        let space = chain.parts().space;
        left.push((space, turned(alloc, chain)?))?;
    }
    watched(alloc, span, limits, &mut left)
}

// The same of entries, the last first, of spaces with these limits.
fn watched(
    alloc: Global,
    span: usize,
    limits: Vec<Limits>,
    left: &mut Vec<(SpaceId, Vec<Dated>)>,
) -> Result<u64, WatchError> {
    if limits.is_empty() || limits.len() > 32 {
        return Ok(0);
    }
    let mut watch = Watch::new(alloc, span, limits)?;
    let told = follow(&mut watch, left);
    watch.shut();
    told
}

// Tells and passes all entries.
fn follow(watch: &mut Watch, left: &mut Vec<(SpaceId, Vec<Dated>)>) -> Result<u64, WatchError> {
    for _ in 0..u64::MAX {
        tell_all(watch, left);
        match watch.go_on() {
            Ok(true) => {}
            Ok(false) => return Ok(watch.len()),
            Err(error) => return Err(error),
        }
    }
    Ok(0)
}

// Tells the next entry of each space that has one, and whether it has more.
fn tell_all(watch: &mut Watch, left: &mut Vec<(SpaceId, Vec<Dated>)>) {
    for own in left.iter_mut() {
        if watch.wants(own.0) {
            match own.1.pop() {
                Some(dated) => {
                    let _ = watch.tell(dated);
                }
                None => watch.end(own.0),
            }
        }
    }
}
