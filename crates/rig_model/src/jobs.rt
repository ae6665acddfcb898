//! The names of jobs.

ghost use Rattle.std.specs.Prelude.{◌≡◌};

use giotto_tasks::names::Name;
use tenant_lines::config::TenantId;

/// The name of a job, never used twice in one host.
#[derive(PartialEq, Eq, PartialOrd, Ord, Drop)]
pub struct JobId {
    pub tenant: TenantId,
    /// The number of the instant that released the job.
    pub tick: u64,
    pub task: Name,
}

impl JobId {
    /// An equal name.
    pub fn copy(&self) -> JobId
        ensures { result ≡ self.now }
    {
        JobId {
            tenant: self.tenant,
            tick: self.tick,
            task: self.task.copy(),
        }
    }
}
