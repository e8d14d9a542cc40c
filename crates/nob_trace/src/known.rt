//! Whether a version can speak of all that stands in a trace.

ghost use Rattle.std.specs.Prelude.{◌≡◌};
ghost use Rattle.std.specs.List.{list_all};
ghost use Rattle.nob_trace.specs.Sessions as spec;

use crate::stamped::Stamped;
use crate::trace::Trace;
use nob_frame::{Frame, Version};
use nob_model_types::{Answer, Event, Refusal};

// Whether the trace's version can speak of all that stands in it. It takes no memory.
pub fn is_known(trace: &Trace) -> bool
    ensures { result ≡ spec.is_known trace.now }
{
    match trace.version {
        Version::One => speak_of_first(trace.entries.as_slice()),
        Version::Two => true,
    }
}

// Whether no entry speaks of a session after the first.
fn speak_of_first(entries: &[Stamped]) -> bool
    ensures { result ≡ list_all spec.speaks_of_first entries.now }
{
    entries.iter().all(|entry| speaks_of_first(entry))
}

// Whether an entry speaks of no session after the first.
fn speaks_of_first(entry: &Stamped) -> bool
    ensures { result ≡ spec.speaks_of_first entry.now }
{
    is_of_first(&entry.event) && gives_first(&entry.result)
}

// Whether an event speaks of no session after the first.
fn is_of_first(event: &Event) -> bool
    ensures { result ≡ spec.is_of_first event.now }
{
    match event {
        Event::Arrive(frame) => frame.session <= 1,
        Event::Open(_) => false,
        _ => true,
    }
}

// Whether a result gives no frame of a session after the first.
fn gives_first(response: &Result<Answer, Refusal>) -> bool
    ensures { result ≡ spec.gives_first response.now }
{
    match response {
        Ok(Answer::Frames(list)) => name_first(list.as_slice()),
        Ok(_) => true,
        Err(_) => true,
    }
}

// Whether no frame names a session after the first.
fn name_first(frames: &[Frame]) -> bool
    ensures { result ≡ list_all spec.names_first frames.now }
{
    frames.iter().all(|frame| frame.session <= 1)
}
