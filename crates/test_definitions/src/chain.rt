//! A chain, written again.

ghost use Rattle.std.specs.Prelude.{◌≡◌, IfOk};
ghost use Rattle.std.specs.String.{string_bytes};
ghost use Rattle.nob_chain.specs.Chains.{IsChain, chain_text};
ghost use Rattle.nob_chain.specs.Reading as reading;
ghost use Rattle.test_definitions.specs.Outputs.{IsChainCopy};

use nob_chain::{Chain, ChainError, decode, encode, refusal_line};
use nob_trace::TraceError;
use std::alloc::{AllocError, Global};

/// What is written for an input that should be one chain: the chain, or what the first line that
/// isn't as it should be is refused for.
pub fn output_of(alloc: Global, input: &[u8]) -> Result<Vec<u8>, TraceError> {
    match copy_of(alloc, input) {
        Ok(text) => Ok(text),
        Err(ChainError::OutOfMemory) => Err(TraceError::OutOfMemory),
        Err(ChainError::Fault(fault)) => {
            Ok(refusal_line(ChainError::Fault(fault)).to_vec(alloc)?)
        }
    }
}

// The one chain of an input, as it is written; or what it is refused for.
fn copy_of(alloc: Global, input: &[u8]) -> Result<Vec<u8>, ChainError>
    ensures { reading.Answers (λ text. IsChainCopy input.now text.items)
        (reading.ChainProblem input.now) result }
{
    let chain = decode(alloc, input)?;
    Ok(text_of(alloc, &chain)?.into_bytes())
}

// The text of a chain that was read. Only memory fails it.
fn text_of(alloc: Global, chain: &Chain) -> Result<String, AllocError>
    requires { IsChain chain.now }
    ensures { IfOk result (λ text. string_bytes text ≡ chain_text chain.now) }
{
    match encode(alloc, chain) {
        Ok(text) => Ok(text),
        Err(ChainError::Fault(_)) => unreachable!(),
        Err(ChainError::OutOfMemory) => Err(AllocError),
    }
}
