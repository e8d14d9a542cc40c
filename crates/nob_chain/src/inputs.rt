//! Inputs to chains: chains and traces, one after the other.

ghost use Rattle.std.specs.Prelude.{◌≡◌, ◌++◌, ℕ, List, true, false};
ghost use Rattle.nob_trace.specs.declared.trace.Trace.{Trace as TraceOf};
ghost use Rattle.nob_trace.specs.declared.fault.TraceFault.{TraceFault as FaultOf};
ghost use Rattle.nob_trace.specs.Traces.{trace_text, IsTrace};
ghost use Rattle.nob_trace.specs.Reading.{TextFault};
ghost use Rattle.nob_chain.specs.declared.chain.ChainParts.{ChainParts as PartsOf};
ghost use Rattle.nob_chain.specs.Chains.{chain_text, IsChain};
ghost use Rattle.nob_chain.specs.Reading as reading;
ghost use Rattle.nob_chain.specs.Inputs as spec;

use crate::chain::Chain;
use crate::fault::{ChainError, ChainFault};
use crate::reading::chain_at;
use nob_trace::{Trace, TraceError, TraceFault, trace_at};
use std::alloc::Global;

// Whether a text begins as chains do.
fn begins_as_chain(text: &[u8]) -> bool
    ensures yes { result ≡ true → spec.BeginsAsChain text.now }
    ensures no { result ≡ false → spec.BeginsAsChain text.now → ⊥ }
{
    match text {
        [b'c', b'h', b'a', b'i', b'n', b' ', ..] => true,
        _ => false,
    }
}

// The fault of a trace as one of a chain.
fn fault_as(fault: TraceFault) -> ChainFault
    ensures { result ≡ spec.fault_as fault }
{
    match fault {
        TraceFault::Short => ChainFault::Short,
        TraceFault::Entry => ChainFault::Entry,
        TraceFault::Stamp => ChainFault::Stamp,
        TraceFault::Trailing => ChainFault::Trailing,
        TraceFault::Version => ChainFault::Entry,
    }
}

// The error of a trace as one of a chain.
fn error_as(error: TraceError) -> ChainError
    ensures { result ≡ spec.error_as error }
{
    match error {
        TraceError::Fault(fault) => ChainError::Fault(fault_as(fault)),
        TraceError::OutOfMemory => ChainError::OutOfMemory,
    }
}

// A trace as a chain. Only memory fails it.
#[tactic(auto, using(crate::proofs::ReadInputs::chain_is))]
fn whole_chain(alloc: Global, trace: Trace) -> Result<Chain, ChainError>
    ensures { reading.Finds (λ chain. chain ≡ spec.of_trace trace) result }
{
    match Chain::of_trace(alloc, trace) {
        Ok(chain) => Ok(chain),
        Err(_) => Err(ChainError::OutOfMemory),
    }
}

// The trace with which a text begins, as a chain, and what is left; or R1, R2 or R3.
fn trace_front(alloc: Global, text: &[u8]) -> Result<(Chain, &[u8]), ChainError>
    ensures found { reading.Answers (λ parts. (trace : TraceOf) × IsTrace trace
        × (text.now ≡ trace_text trace ++ parts.1.now) × (parts.0 ≡ spec.of_trace trace))
        (λ fault. (own : FaultOf) × TextFault text.now own × (fault ≡ spec.fault_as own)) result }
    ensures only { (trace : TraceOf) (rest : List ℕ) → IsTrace trace
        → text.now ≡ trace_text trace ++ rest
        → reading.Finds (λ parts. (parts.0 ≡ spec.of_trace trace) × (parts.1.now ≡ rest)) result }
{
    match trace_at(alloc, text) {
        Ok((trace, rest)) => {
            let chain = whole_chain(alloc, trace)?;
            Ok((chain, rest))
        }
        Err(error) => Err(error_as(error)),
    }
}

// The chain or trace with which a text begins, as a chain, and what is left; or R1, R2, R3 or R6.
fn front_of(alloc: Global, text: &[u8]) -> Result<(Chain, &[u8]), ChainError>
    ensures found { reading.Answers (λ parts. (front : List ℕ) × spec.Spells front parts.0
        × (text.now ≡ front ++ parts.1.now))
        (λ fault. spec.StartFault text.now fault) result }
    ensures only { (front rest : List ℕ) (chain : PartsOf) → spec.Spells front chain
        → text.now ≡ front ++ rest
        → reading.Finds (λ parts. (parts.0 ≡ chain) × (parts.1.now ≡ rest)) result }
{
    if begins_as_chain(text) {
        return chain_at(alloc, text);
    }
    trace_front(alloc, text)
}

/// The chains that an input is, one after the other, each spelt as a chain or as a trace of either
/// version; or what the first line that isn't as it should be is refused for: R1, R2, R3 or R6. An
/// empty input is no chains. It costs time and memory in proportion to the input.
pub fn decode_all(alloc: Global, input: &[u8]) -> Result<Vec<Chain>, ChainError>
    ensures found { reading.Answers (λ all. spec.AreSpelt input.now all.items)
        (λ fault. spec.IsWrongInput input.now fault) result }
    ensures only { (all : List PartsOf) → spec.AreSpelt input.now all
        → reading.Finds (λ r. r.items ≡ all) result }
{
    let mut all = Vec::new(alloc);
    let mut left = input;
    while !left.is_empty() {
        let (chain, rest) = front_of(alloc, left)?;
        all.push(chain)?;
        left = rest;
    }
    Ok(all)
}
