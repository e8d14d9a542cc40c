//! The lines that are written.

ghost use Rattle.std.specs.Prelude.{◌≡◌, IfOk};
ghost use Rattle.std.specs.String.{string_bytes};
ghost use Rattle.nob_demo.specs.Checks as spec;

use nob_model_chains::SetFault;
use nob_model_traces::CheckFault;
use std::alloc::{AllocError, Global};

// The line that says how many entries were merged.
pub(crate) fn merged_line(alloc: Global, count: usize) -> Result<String, AllocError>
    ensures { IfOk result (λ text. string_bytes text ≡ spec.merged_line count) }
{
    format!(in alloc; "merged {count}\n")
}

// The line of a fault in a set of chains.
pub(crate) fn fault_line(alloc: Global, fault: SetFault) -> Result<String, AllocError>
    ensures { IfOk result (λ text. string_bytes text ≡ spec.fault_line fault) }
{
    match fault {
        SetFault::Traces(own) => trace_fault_line(alloc, own),
        SetFault::Seal(space, number) => format!(in alloc; "C5 {space} {number}\n"),
    }
}

// The line of a fault in the traces that chains are.
fn trace_fault_line(alloc: Global, fault: CheckFault) -> Result<String, AllocError>
    ensures { IfOk result (λ text. string_bytes text ≡ spec.trace_fault_line fault) }
{
    match fault {
        CheckFault::Set => String::from_str(alloc, "C4\n"),
        CheckFault::NotARun(space, place) => format!(in alloc; "C1 {space} {place}\n"),
        CheckFault::NoOrigin(space, place) => format!(in alloc; "C2 {space} {place}\n"),
        CheckFault::Stamp(space, place) => format!(in alloc; "C3 {space} {place}\n"),
    }
}
