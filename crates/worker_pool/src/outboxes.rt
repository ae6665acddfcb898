//! Outboxes: they take jobs to be run, or give them back.

ghost use Rattle.std.specs.Prelude.{◌≡◌, [], ◌∷◌, List, Option, None, IfErr, OnOk};
ghost use Rattle.tenant_jobs.specs.Jobs.{JobValue};
ghost use Rattle.host_core.specs.Adding.{Adds};
ghost use Rattle.worker_pool.specs.Unsent.{AreSent};

use std::sync::Wait;
use tenant_jobs::jobs::{Job, Jobs};

/// Takes jobs, to have them run.
pub trait Outbox {
    // the jobs that it took, the first one first, if they are known
    ghost taken: { Self → Option (List JobValue) } = { λ _. None };

    /// Takes a job.
    ///
    /// # Errors
    /// The job, if it can't be taken.
    fn put<R: Wait>(&mut self, rt: &R, job: Job) -> Result<(), Job>
        ensures taken { OnOk result (Adds (taken self.old) (taken self.new) (job ∷ [])) }
        ensures refused { IfErr result (λ back. (back ≡ job) × Adds (taken self.old) (taken self.new) []) };
}

/// Puts jobs into an outbox, the first one first. Returns those that it didn't take, in their order. Takes no memory except the outbox's.
pub fn send_all<R: Wait, O: Outbox>(rt: &R, outbox: &mut O, jobs: Jobs) -> Jobs
    ensures { AreSent (O.taken outbox.old) (O.taken outbox.new) result.jobs jobs.jobs }
{
    let mut unsent = jobs;
    for _job in 0..unsent.len() {
        let Some(job) = unsent.take() else {
            unreachable!()
        };
        if let Err(job) = outbox.put(rt, job) {
            unsent.put(job);
        }
    }
    unsent
}
