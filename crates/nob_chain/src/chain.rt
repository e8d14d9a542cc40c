//! Chains: what one space was asked and answered, in segments.

ghost use Rattle.std.specs.Prelude.{◌≡◌, IfOk, IfErr};
ghost use Rattle.nob_chain.specs.Chains as spec;

use crate::segment::{Segment, Segments};
use nob_ids::{Limits, SpaceId};
use nob_trace::Trace;
use std::alloc::Global;
use std::marker::Model;

/// What a chain consists of.
#[derive(Debug, Drop)]
pub struct ChainParts {
    /// The space.
    pub space: SpaceId,
    /// How many spaces there are, named by the last of them.
    pub n: SpaceId,
    /// The limits of the space's sessions.
    pub limits: Limits,
    /// The segments.
    pub segments: Segments,
}

/// What one space was asked and answered, as it happened, in segments: the stamps are at least 1
/// and rise over all segments, no segment is empty, and the peers of each seal are all spaces but
/// the chain's own, rising. Contracts see its parts.
#[derive(Debug, Drop)]
pub struct Chain {
    parts: ChainParts,
}

impl Model for Chain {
    ghost use Rattle.nob_chain.specs.declared.chain.ChainParts.{ChainParts};
    ghost use Rattle.nob_chain.specs.Chains.{IsKept};

    ghost Value = { ChainParts };

    ghost use Rattle.std.specs.Coded.{codes};
    ghost use Rattle.nob_pickle.specs.Marks.{trees_code};

    ghost coded = { Prim.hlevel (codes, trees_code) };

    ghost view = { λ chain. chain.parts };

    ghost invariant = { λ chain. IsKept chain.parts };
}

impl Chain {
    /// The chain of these parts. It takes no memory, and costs the same however many entries there
    /// are.
    pub fn from_parts(parts: ChainParts) -> Chain
        requires kept { spec.IsKept parts }
        ensures { result ≡ parts }
    {
        Chain { parts }
    }

    /// A trace as a chain: one segment without a seal, or none where the trace is empty. Only
    /// memory fails it, for one place, and then the trace is handed back. It costs the same however
    /// many entries there are.
    pub fn of_trace(alloc: Global, trace: Trace) -> Result<Chain, Trace>
        ensures space { IfOk result (λ chain. chain.space ≡ trace.space) }
        ensures n { IfOk result (λ chain. chain.n ≡ trace.n) }
        ensures limits { IfOk result (λ chain. chain.limits ≡ trace.limits) }
        ensures segments { IfOk result (λ chain. chain.segments ≡ spec.whole trace.entries) }
        ensures back { IfErr result (λ back. back ≡ trace) }
    {
        let mut segments = Vec::new(alloc);
        if segments.reserve(1).is_err() {
            return Err(trace);
        }
        let Trace {
            version: _,
            space,
            n,
            limits,
            entries,
        } = trace;
        if entries.len() > 0 {
            segments.push_reserved(Segment {
                entries,
                seal: None,
            });
        }
        Ok(Chain {
            parts: ChainParts {
                space,
                n,
                limits,
                segments: Segments::from_vec(segments),
            },
        })
    }

    /// The parts.
    pub fn parts(&self) -> &ChainParts
        ensures { result.now ≡ self.now }
    {
        &self.parts
    }

    /// What the type keeps of the parts, whatever they are. It does nothing.
    pub fn kept(&self)
        ensures { spec.IsKept self.now }
    {
        let _ = &self.parts;
    }

    /// The parts, apart. It takes no memory.
    pub fn into_parts(self) -> ChainParts
        ensures parts { result ≡ self }
        ensures kept { spec.IsKept result }
    {
        self.parts
    }
}
