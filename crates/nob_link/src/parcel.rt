//! What travels over a link.

ghost use Rattle.std.specs.Prelude.{◌≡◌, IfOk, OnErr};
ghost use Rattle.nob_link.specs.Ends.{IsLoaded};

use nob_frame::Frame;
use std::alloc::AllocError;

/// What travels over a link: a frame with the stamp of the entry that transmitted it, or the end.
#[derive(Debug, Drop)]
pub enum Parcel {
    /// A frame on its way.
    Frame {
        /// The stamp of the Transmit that gave the frame.
        stamp: u64,
        /// The frame.
        frame: Frame,
    },
    /// Nothing comes any more.
    End,
}

impl Parcel {
    /// An equal parcel. Only memory fails it, and a parcel that carries no bytes takes none.
    pub fn copy(&self) -> Result<Parcel, AllocError>
        ensures same { IfOk result (λ parcel. parcel ≡ self.now) }
        ensures memory { OnErr result (IsLoaded self.now) }
    {
        match self {
            Parcel::Frame { stamp, frame } => Ok(Parcel::Frame {
                stamp: *stamp,
                frame: frame.copy()?,
            }),
            Parcel::End => Ok(Parcel::End),
        }
    }
}
