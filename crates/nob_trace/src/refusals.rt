//! What is written of an input that is refused.

ghost use Rattle.std.specs.Prelude.{◌≡◌};
ghost use Rattle.nob_trace.specs.Faults as spec;

use crate::fault::{TraceError, TraceFault};

/// The fault's name on a line, or the line `memory`.
pub fn refusal_line(error: TraceError) -> &'static [u8]
    ensures { result.now ≡ spec.refusal_line error }
{
    match error {
        TraceError::Fault(TraceFault::Short) => b"R1\n",
        TraceError::Fault(TraceFault::Entry) => b"R2\n",
        TraceError::Fault(TraceFault::Stamp) => b"R3\n",
        TraceError::Fault(TraceFault::Trailing) => b"R4\n",
        TraceError::Fault(TraceFault::Version) => b"R5\n",
        TraceError::OutOfMemory => b"memory\n",
    }
}
