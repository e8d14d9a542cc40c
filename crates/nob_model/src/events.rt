//! Whether two events are the same.

ghost use Rattle.std.specs.Prelude.{◌≡◌, ◌↔◌, true};
ghost use Rattle.nob_model_types.specs.declared.event.Event.TheVariants as events;

use crate::frames::same_frame;
use crate::values::same_value;
use nob_frame::Frame;
use nob_ids::{CallNo, JobNo, SpaceId, WireRep};
use nob_model_types::{Event, Outcome};
use nob_pickle::Value;

/// Whether two outcomes are the same. It recurses once for each level of a value.
pub fn same_outcome(outcome: &Outcome, other: &Outcome) -> bool
    ensures { (result ≡ true) ↔ (outcome.now ≡ other.now) }
{
    match outcome {
        Outcome::Answer(value) => match other {
            Outcome::Answer(twin) => same_value(value, twin),
            _ => false,
        },
        Outcome::Fault(value) => match other {
            Outcome::Fault(twin) => same_value(value, twin),
            _ => false,
        },
        Outcome::NoMethod => match other {
            Outcome::NoMethod => true,
            _ => false,
        },
    }
}

/// Whether two events are the same. It recurses once for each level of a value.
pub fn same_event(event: &Event, other: &Event) -> bool
    ensures { (result ≡ true) ↔ (event.now ≡ other.now) }
{
    match event {
        Event::Export => matches!(other, Event::Export),
        Event::Dup(rep) => matches!(other, Event::Dup(twin) if *rep == *twin),
        Event::Release(rep) => matches!(other, Event::Release(twin) if *rep == *twin),
        Event::Call {
            target,
            method,
            value,
        } => is_call(other, *target, *method, value),
        Event::TakeReply(call) => matches!(other, Event::TakeReply(twin) if *call == *twin),
        Event::Claim => matches!(other, Event::Claim),
        Event::Finish(job, outcome) => is_finish(other, *job, outcome),
        Event::Act(peer) => matches!(other, Event::Act(twin) if *peer == *twin),
        Event::Settle => matches!(other, Event::Settle),
        Event::Clean => matches!(other, Event::Clean),
        Event::Withdraw(index) => matches!(other, Event::Withdraw(twin) if *index == *twin),
        Event::Transmit(peer) => matches!(other, Event::Transmit(twin) if *peer == *twin),
        Event::Arrive(frame) => is_arrive(other, frame),
        Event::Tick(peer) => matches!(other, Event::Tick(twin) if *peer == *twin),
        Event::Close(peer) => matches!(other, Event::Close(twin) if *peer == *twin),
        Event::Open(peer) => matches!(other, Event::Open(twin) if *peer == *twin),
    }
}

// Whether an event is this Call.
fn is_call(event: &Event, target: WireRep, method: u16, value: &Value) -> bool
    ensures { (result ≡ true) ↔ (events.Call target method value.now ≡ event.now) }
{
    match event {
        Event::Call {
            target: twin,
            method: number,
            value: argument,
        } => target == *twin && method == *number && same_value(value, argument),
        _ => false,
    }
}

// Whether an event is this Finish.
fn is_finish(event: &Event, job: JobNo, outcome: &Outcome) -> bool
    ensures { (result ≡ true) ↔ (events.Finish job outcome.now ≡ event.now) }
{
    match event {
        Event::Finish(twin, end) => job == *twin && same_outcome(outcome, end),
        _ => false,
    }
}

// Whether an event is the arrival of this frame.
fn is_arrive(event: &Event, frame: &Frame) -> bool
    ensures { (result ≡ true) ↔ (events.Arrive frame.now ≡ event.now) }
{
    match event {
        Event::Arrive(twin) => same_frame(frame, twin),
        _ => false,
    }
}
