//! Gates: what a method passes before it begins and after its job has ended.

use nob_ids::JobNo;

/// What each job passes on its way. A gate may hold a job up.
pub trait Gate {
    /// Before the method of a job begins.
    fn enter(&self, job: JobNo);

    /// After the job has ended.
    fn leave(&self, job: JobNo);
}

/// A gate that holds nothing up.
#[derive(Clone, Copy, Debug)]
pub struct OpenGate;

impl Gate for OpenGate {
    fn enter(&self, _job: JobNo) {}

    fn leave(&self, _job: JobNo) {}
}
