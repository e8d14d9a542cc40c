//! What is written of an input that is refused.

ghost use Rattle.std.specs.Prelude.{◌≡◌};
ghost use Rattle.nob_chain.specs.Faults as spec;

use crate::fault::{ChainError, ChainFault};

/// The fault's name on a line, or the line `memory`.
pub fn refusal_line(error: ChainError) -> &'static [u8]
    ensures { result.now ≡ spec.refusal_line error }
{
    match error {
        ChainError::Fault(ChainFault::Short) => b"R1\n",
        ChainError::Fault(ChainFault::Entry) => b"R2\n",
        ChainError::Fault(ChainFault::Stamp) => b"R3\n",
        ChainError::Fault(ChainFault::Trailing) => b"R4\n",
        ChainError::Fault(ChainFault::Segment) => b"R6\n",
        ChainError::OutOfMemory => b"memory\n",
    }
}
