//! Whether two frames are the same.

ghost use Rattle.std.specs.Prelude.{◌≡◌, ◌↔◌, true};

use nob_frame::Frame;
use nob_model_session::Frames;

/// Whether two frames are the same. It costs what they carry, and no more than a look where another
/// field differs.
pub fn same_frame(frame: &Frame, other: &Frame) -> bool
    ensures { (result ≡ true) ↔ (frame.now ≡ other.now) }
{
    frame.kind == other.kind
        && frame.from == other.from
        && frame.to == other.to
        && frame.session == other.session
        && frame.seq == other.seq
        && frame.ack == other.ack
        && frame.payload.as_slice() == other.payload.as_slice()
}

/// Whether frames are the same, one after the other.
pub fn same_frames(frames: &Frames, others: &Frames) -> bool
    ensures { (result ≡ true) ↔ (frames.now ≡ others.now) }
{
    same_slices(frames.as_slice(), others.as_slice())
}

// Whether frames are the same, one after the other. It recurses once for each, and a Transmit gives
// no more than a window of them.
fn same_slices(frames: &[Frame], others: &[Frame]) -> bool
    ensures { (result ≡ true) ↔ (frames.now ≡ others.now) }
{
    match frames {
        [] => others.is_empty(),
        [frame, after @ ..] => match others {
            [] => false,
            [other, rest @ ..] => {
                if !same_frame(frame, other) {
                    return false;
                }
                same_slices(after, rest)
            }
        },
    }
}
