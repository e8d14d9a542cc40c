//! Errands: jobs with their objects.

use nob_ids::JobNo;
use nob_model_types::Job;

/// A job with its object: what a worker is given.
#[derive(Drop)]
pub struct Errand<O: Drop> {
    /// The job.
    pub job: Job,
    /// The object that it calls.
    pub object: O,
}

/// An object that comes back from the job that it was away with.
#[derive(Drop)]
pub struct Return<O: Drop> {
    /// The number of the job.
    pub job: JobNo,
    /// The object's index.
    pub index: u64,
    /// The object.
    pub object: O,
}
