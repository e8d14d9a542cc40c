//! The closes that are tried in a script.

use crate::closes::course::SessionCut;
use nob_ids::SpaceId;
use std::alloc::{AllocError, Global};

/// A close at each place of a script of so many steps, behind all of them too, of the session of
/// each two spaces, by each of the two. The spaces are named by the last of them. Only memory fails
/// it.
pub fn cuts_of(alloc: Global, n: SpaceId, steps: usize) -> Result<Vec<SessionCut>, AllocError> {
    let mut cuts = Vec::new(alloc);
    for place in 0..=steps {
        for space in 0..n.get() {
            for peer in 0..n.get() {
                if let Some(cut) = cut_of(place, space, peer) {
                    cuts.push(cut)?;
                }
            }
        }
    }
    Ok(cuts)
}

// The close behind so many steps of the session of the spaces at two places, where they are two.
fn cut_of(place: usize, space: u16, peer: u16) -> Option<SessionCut> {
    if space == peer {
        return None;
    }
    let space = SpaceId::new(space.saturating_add(1))?;
    let peer = SpaceId::new(peer.saturating_add(1))?;
    Some(SessionCut { place, space, peer })
}
