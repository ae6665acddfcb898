//! Recorders of the events of a script's lines.

ghost use Rattle.std.specs.Prelude.{◌≡◌, ◌<◌, ◌++◌, ◌∷◌, [], List, length, map, OnOk};
ghost use Rattle.host_core.specs.HostStanding.{outstanding_jobs, outstanding_of};
ghost use Rattle.rig_model.specs.declared.events.Event.{Event};
ghost use Rattle.rig_script.specs.inner.Records.{IsRecorded};

use giotto_tasks::lists::List;
use host_core::events::Event;
use host_core::hosts::Host;
use rig_model::config::TenantId;
use rig_model::lines::commands::Command;
use std::alloc::{AllocError, Global};
use tenant_jobs::jobs::JobId;

/// A recorder of the events of lines. A tenant's command is one event, whether it is answered or refused. An instant is one event. `work` is
/// one event for each job that it completes, in the order of the roster. Every other line has no event.
pub(crate) trait Record {
    // it has recorded these events, the oldest first
    ghost has_recorded: { Self → List Event → Type 0 };

    /// A command, which is carried out next.
    ///
    /// # Errors
    /// Out of memory.
    fn command(
        &mut self,
        alloc: Global,
        tenant: TenantId,
        command: &Command,
    ) -> Result<(), AllocError>
        ensures { OnOk result (IsRecorded (has_recorded self.old) (has_recorded self.new) (Event.Own tenant command.now ∷ [])) };

    /// An instant with this frame, which has happened.
    ///
    /// # Errors
    /// Out of memory.
    fn tick(&mut self, alloc: Global, frame: &[i64]) -> Result<(), AllocError>
        ensures { OnOk result (IsRecorded (has_recorded self.old) (has_recorded self.new) (Event.Tick frame.now ∷ [])) };

    /// The completions of all outstanding jobs of a host. The jobs are completed next.
    ///
    /// # Errors
    /// Out of memory.
    fn work(&mut self, host: &Host) -> Result<(), AllocError>
        ensures { OnOk result (IsRecorded (has_recorded self.old) (has_recorded self.new) (map Event.Done (outstanding_jobs host.now))) };

    /// The completions of one tenant's outstanding jobs. The jobs are completed next.
    ///
    /// # Errors
    /// Out of memory.
    fn work_of(&mut self, host: &Host, tenant: TenantId) -> Result<(), AllocError>
        requires { tenant < length host.now.config.tenants }
        ensures { OnOk result (IsRecorded (has_recorded self.old) (has_recorded self.new) (map Event.Done (outstanding_of host.now tenant))) };
}

/// Records nothing.
#[derive(Drop)]
pub(crate) struct Unrecorded;

impl Record for Unrecorded {
    ghost use Rattle.std.specs.Prelude.{⊤};

    ghost has_recorded = { λ nobody events. ⊤ };

    fn command(
        &mut self,
        _alloc: Global,
        _tenant: TenantId,
        _command: &Command,
    ) -> Result<(), AllocError> {
        Ok(())
    }

    fn tick(&mut self, _alloc: Global, _frame: &[i64]) -> Result<(), AllocError> {
        Ok(())
    }

    fn work(&mut self, _host: &Host) -> Result<(), AllocError> {
        Ok(())
    }

    fn work_of(&mut self, _host: &Host, _tenant: TenantId) -> Result<(), AllocError> {
        Ok(())
    }
}

/// Records the events of the lines, the oldest first.
impl Record for Vec<Event> {
    ghost use Rattle.std.specs.Prelude.{◌≡◌};

    ghost has_recorded = { λ recorded events. recorded.items ≡ events };

    fn command(
        &mut self,
        alloc: Global,
        tenant: TenantId,
        command: &Command,
    ) -> Result<(), AllocError> {
        let copy = command.copy()?;
        self.push(Event::Own(tenant, copy))?;
        Ok(())
    }

    fn tick(&mut self, alloc: Global, frame: &[i64]) -> Result<(), AllocError> {
        let values = Vec::from_slice(alloc, frame)?;
        self.push(Event::Tick(List::from_vec(values)))?;
        Ok(())
    }

    fn work(&mut self, host: &Host) -> Result<(), AllocError> {
        add_completions(self, host.outstanding_jobs()?)
    }

    fn work_of(&mut self, host: &Host, tenant: TenantId) -> Result<(), AllocError> {
        add_completions(self, host.outstanding_jobs_of(tenant)?)
    }
}

// Appends the completions of these jobs to the events.
fn add_completions(events: &mut Vec<Event>, jobs: Vec<JobId>) -> Result<(), AllocError>
    ensures { OnOk result (events.new.items ≡ events.old.items ++ map Event.Done jobs.items) }
{
    for job in jobs {
        events.push(Event::Done(job))?;
    }
    Ok(())
}
