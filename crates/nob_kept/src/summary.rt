//! What a keeper says of its space in numbers.

ghost use Rattle.std.specs.Prelude.{◌≡◌, ◌++◌, ◌∷◌, [], IfOk, IfErr, OnOk};
ghost use Rattle.nob_ids.specs.Names.{IsSpace};
ghost use Rattle.nob_kept.specs.Seats.{HasAll, AreAllThere};
ghost use Rattle.nob_kept.specs.Segments as segments;
ghost use Rattle.nob_kept.specs.Summaries as summaries;

use crate::error::KeeperError;
use crate::kept::Kept;
use crate::seat::Seat;
use nob_chain::Chain;
use nob_ids::SpaceId;
use nob_model_types::{List, Tally};
use std::alloc::{AllocError, Global};

/// What went each way on the session with a peer.
#[derive(Clone, Copy, Debug, PartialEq, Eq)]
pub struct PeerTally {
    /// The peer.
    pub peer: SpaceId,
    /// What went each way.
    pub tally: Tally,
}

/// What is left of a space of which no trace is kept.
#[derive(Debug, Drop)]
pub struct Summary {
    /// The space.
    pub space: SpaceId,
    /// How many spaces there are, named by the last of them.
    pub n: SpaceId,
    /// How many entries its trace had.
    pub entries: u64,
    /// The last stamp: 0 where there was no entry.
    pub last_stamp: u64,
    /// How many of its objects were live.
    pub live: u64,
    /// What went each way on each session, by rising peer.
    pub peers: List<PeerTally>,
}

/// What a keeper leaves at its end.
#[derive(Debug, Drop)]
pub enum Record {
    /// All entries, in sealed segments, where all were kept.
    Chain(Chain),
    /// What they come to, where nothing was kept.
    Summary(Summary),
}

impl Record {
    /// The chain, if there is one.
    pub fn into_chain(self) -> Option<Chain>
        ensures { summaries.chain_in self ≡ result }
    {
        match self {
            Record::Chain(chain) => Some(chain),
            Record::Summary(_) => None,
        }
    }
}

// The tallies of the sessions with all peers, by rising peer. Only memory fails it.
pub(crate) fn tallies_of(alloc: Global, kept: &Kept) -> Result<Vec<PeerTally>, AllocError>
    ensures { IfOk result (λ tallies. tallies.items
        ≡ summaries.tallies_among kept.now (segments.spaces_to kept.now.n)) }
{
    let mut tallies = Vec::new(alloc);
    let end = kept.n().get() + 1;
    for number in 1..end {
        add_tally(&mut tallies, kept, number)?;
    }
    Ok(tallies)
}

// The tally of the session with the space of a number, where it is a peer. Only memory fails it.
fn add_tally(tallies: &mut Vec<PeerTally>, kept: &Kept, number: u16) -> Result<(), AllocError>
    requires { IsSpace number }
    ensures { OnOk result (tallies.new.items
        ≡ tallies.old.items ++ summaries.tallies_among kept.now (number ∷ [])) }
{
    let Some(peer) = SpaceId::new(number) else {
        return Ok(());
    };
    if let Some(tally) = kept.tally(peer) {
        tallies.push(PeerTally { peer, tally })?;
    }
    Ok(())
}

// K4 where the newest receipt of some seat isn't told of what is kept, or its entry isn't there.
pub(crate) fn check_all(kept: &Kept, seats: &[Seat]) -> Result<(), KeeperError>
    ensures ok { OnOk result (HasAll kept.now.entries seats.now) }
    ensures err { IfErr result (λ error. (error ≡ KeeperError.Seats)
        × (HasAll kept.now.entries seats.now → AreAllThere kept.now seats.now → ⊥)) }
{
    match seats {
        [] => Ok(()),
        [seat, rest @ ..] => {
            kept.check(seat)?;
            check_all(kept, rest)
        }
    }
}
