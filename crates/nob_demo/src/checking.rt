//! What `nobj check` does with a whole input.

ghost use Rattle.std.specs.Prelude.{◌≡◌, ◌++◌, [], ℕ, List, IfOk};
ghost use Rattle.nob_chain.specs.Inputs.{AreSpelt};
ghost use Rattle.nob_demo.specs.Checks as spec;

use crate::texts::{fault_line, merged_line};
use nob_chain::{Chain, ChainError, decode_all, refusal_line};
use nob_chain_check::{SetError, check};
use nob_model_journal::Verdict;
use nob_script_text::verdict_line;
use std::alloc::{AllocError, Global};

/// How a check ends.
#[derive(Clone, Copy, Debug, PartialEq, Eq)]
pub enum CheckEnding {
    /// The chains are a run of a world, and their seals are right.
    Accepted,
    /// They aren't, or the input isn't chains: the line that is written says why.
    Refused,
    /// Memory ran out.
    OutOfMemory,
}

impl CheckEnding {
    /// The last line, behind what was written before.
    pub fn last_line(self) -> &'static [u8]
        ensures { result.now ≡ spec.last_line self }
    {
        match self {
            CheckEnding::Accepted => verdict_line(Verdict::Yes),
            CheckEnding::Refused => b"",
            CheckEnding::OutOfMemory => b"memory\n",
        }
    }
}

/// Writes what is said of an input, which should be chains and traces one after the other, onto an
/// empty text:
/// how many entries they have, where together they are a run of a world, or the one fault. The
/// ending's last line is still to follow: the verdict, which is never no, since it is proved of
/// every set of chains that is accepted. Linear in the input, and in what its events cost.
pub fn play(alloc: Global, input: &[u8], text: &mut Vec<u8>) -> CheckEnding
    requires { text.old.items ≡ [] }
    ensures { spec.Checks input.now (text.new.items ++ spec.last_line result) result }
{
    let Ok((line, ending)) = line_of(alloc, input) else {
        return CheckEnding::OutOfMemory;
    };
    match text.extend_from_slice(line.as_slice()) {
        Ok(()) => ending,
        Err(_) => CheckEnding::OutOfMemory,
    }
}

// The line that is said of an input, and how the check ends.
fn line_of(alloc: Global, input: &[u8]) -> Result<(Vec<u8>, CheckEnding), AllocError>
    ensures { IfOk result (λ said. spec.Checks input.now
        (said.0.items ++ spec.last_line said.1) said.1) }
{
    match decode_all(alloc, input) {
        Ok(chains) => line_of_chains(alloc, chains),
        Err(ChainError::OutOfMemory) => Err(AllocError),
        Err(ChainError::Fault(fault)) => Ok((
            refusal_line(ChainError::Fault(fault)).to_vec(alloc)?,
            CheckEnding::Refused,
        )),
    }
}

// The line that is said of chains, and how the check ends.
fn line_of_chains(alloc: Global, chains: Vec<Chain>) -> Result<(Vec<u8>, CheckEnding), AllocError>
    ensures { (input : List ℕ) → AreSpelt input chains.items → IfOk result (λ said.
        spec.Checks input (said.0.items ++ spec.last_line said.1) said.1) }
{
    match check(alloc, chains) {
        Ok(merged) => Ok((
            merged_line(alloc, merged.len())?.into_bytes(),
            CheckEnding::Accepted,
        )),
        Err(SetError::Fault(fault)) => {
            Ok((fault_line(alloc, fault)?.into_bytes(), CheckEnding::Refused))
        }
        Err(SetError::OutOfMemory) => Err(AllocError),
    }
}
