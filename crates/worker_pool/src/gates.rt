//! Gates: what a worker asks before it computes a job.

use std::sync::Wait;
use std::time::Clock;
use tenant_jobs::jobs::JobId;

/// Asked by a worker before it computes a job, outside the desk's lock. While the gate waits, only that worker waits.
pub trait Gate {
    /// Returns when the job of this name may be computed.
    fn enter<R: Wait + Clock>(&self, rt: &R, id: &JobId);
}

/// Lets each job through at once.
#[derive(Drop)]
pub struct Free;

impl Gate for Free {
    fn enter<R: Wait + Clock>(&self, _rt: &R, _id: &JobId) {}
}
