//! The jobs of a tenant that are released and not yet at their deadlines, as the events of a script show them.

use giotto_tasks::names::Name;
use rig_model::jobs::JobId;
use rig_model::lines::replies::Status;
use std::alloc::{AllocError, Global};
use tenant_dumps::ports::TaskState;

// A job that is not yet at its deadline.
#[derive(Drop)]
struct OpenJob {
    task: Name,
    // The instant that released it, and that at which it is due.
    tick: u64,
    deadline: u64,
    is_completed: bool,
}

/// The open jobs of a tenant, and the tasks that were late at the last instant.
#[derive(Drop)]
pub(crate) struct OpenJobs {
    jobs: Vec<OpenJob>,
    late: Vec<Name>,
}

impl OpenJobs {
    /// No jobs.
    pub(crate) fn new(alloc: Global) -> OpenJobs {
        OpenJobs {
            jobs: Vec::new(alloc),
            late: Vec::new(alloc),
        }
    }

    /// Notes that the job of this name was completed.
    pub(crate) fn complete(&mut self, id: &JobId) {
        for job in self.jobs.iter_mut() {
            if job.tick == id.tick && job.task == id.task {
                job.is_completed = true;
            }
        }
    }

    /// Notes that the tenant was stopped.
    pub(crate) fn stop(&mut self) {
        self.jobs.clear();
    }

    /// Notes that no task is late any more, after the stamp of an instant.
    pub(crate) fn forget_late(&mut self) {
        self.late.clear();
    }

    /// Notes what this instant did to the open jobs, given the status after it.
    ///
    /// # Errors
    /// Out of memory.
    pub(crate) fn end_due(&mut self, tick: u64, status: &Status) -> Result<(), AllocError> {
        match status {
            Status::Running(_, _) => self.jobs.retain(|job| tick < job.deadline),
            Status::StoppedOverrun(_) => {
                self.note_late(tick)?;
                self.jobs.clear();
            }
            _ => self.jobs.clear(),
        }
        Ok(())
    }

    // Notes the tasks that were due at this instant and not completed.
    fn note_late(&mut self, tick: u64) -> Result<(), AllocError> {
        for job in &self.jobs {
            if job.deadline <= tick && !job.is_completed {
                self.late.push(job.task.copy())?;
            }
        }
        Ok(())
    }

    /// Adds the job of this name, which is due this many ticks after its release.
    ///
    /// # Errors
    /// Out of memory.
    pub(crate) fn release(&mut self, id: &JobId, period: u64) -> Result<(), AllocError> {
        self.jobs.push(OpenJob {
            task: id.task.copy(),
            tick: id.tick,
            deadline: id.tick.saturating_add(period),
            is_completed: false,
        })?;
        Ok(())
    }

    /// What a stamp has of this task.
    pub(crate) fn state_of(&self, task: &Name) -> TaskState {
        let job = self.jobs.iter().find(|it| it.task == *task);
        TaskState {
            is_active: job.is_some(),
            is_worked: job.is_some_and(|it| it.is_completed),
            is_late: self.late.as_slice().contains(task),
        }
    }
}
