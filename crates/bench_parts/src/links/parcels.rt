//! The parcels: frames that carry nothing, so that no memory is taken for them.

ghost use Rattle.std.specs.Prelude.{◌≡◌, ◌↔◌, ◌<◌, ◌^◌, ◌∷◌, [], List, true};
ghost use Rattle.nob_frame.specs.declared.frame.FrameKind.TheVariants as kinds;
ghost use Rattle.nob_link.specs.declared.parcel.Parcel.{Parcel as ParcelOf};
ghost use Rattle.nob_link.specs.declared.parcel.Parcel.TheVariants as parcels;
ghost use Rattle.bench_parts.specs.Counting.{AreInOrder, IsOf};

use nob_frame::{Bytes, Frame, FrameKind};
use nob_ids::SpaceId;
use nob_link::Parcel;
use std::alloc::Global;

/// The two spaces between which the frames go.
#[derive(Drop)]
pub(crate) struct Spaces {
    pub(crate) from: SpaceId,
    pub(crate) to: SpaceId,
}

impl Spaces {
    /// Spaces 1 and 2.
    pub(crate) fn new() -> Option<Spaces> {
        Some(Spaces {
            from: SpaceId::new(1)?,
            to: SpaceId::new(2)?,
        })
    }

    /// The parcel of this number.
    pub(crate) fn parcel(&self, alloc: Global, number: u64) -> Parcel
        ensures { result ≡ parcels.Frame number (record {
          kind = kinds.Ack;
          from = self.now.from;
          to = self.now.to;
          session = 1;
          seq = 0;
          ack = number;
          payload = [];
        }) }
    {
        Parcel::Frame {
            stamp: number,
            frame: Frame {
                kind: FrameKind::Ack,
                from: self.from,
                to: self.to,
                session: 1,
                seq: 0,
                ack: number,
                payload: Bytes::from_vec(Vec::new(alloc)),
            },
        }
    }
}

/// How many parcels have come in order, once this one has come after others of which so many had.
pub(crate) fn count_with(came: u128, parcel: &Parcel) -> u128
    ensures { (before : List ParcelOf) → AreInOrder came before
        → AreInOrder result (parcel.now ∷ before) }
{
    if is_of(parcel, came) {
        return came + 1;
    }
    came
}

// Whether a parcel is that of a number.
fn is_of(parcel: &Parcel, number: u128) -> bool
    ensures is { (result ≡ true) ↔ IsOf number parcel.now }
    ensures fits { result ≡ true → number < 2 ^ 64 }
{
    match parcel {
        Parcel::Frame { stamp, frame } => {
            u128::from(*stamp) == number && u128::from(frame.ack) == number
        }
        Parcel::End => false,
    }
}
