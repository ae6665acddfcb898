//! What happens to a host.

ghost use Rattle.std.specs.Prelude.{◌≡◌, ◌<◌, ℕ, ℤ, List, length, IfOk, IsErr, IsOk, IsTrue};
ghost use Rattle.tenant_lines.specs.cited.Copies.{has_text};
ghost use Rattle.tenant_lines.specs.declared.commands.Command.{Command};
ghost use Rattle.rig_model.specs.declared.jobs.JobId.{JobId};

use crate::frames::copy_of_frame;
use crate::jobs::JobId;
use giotto_tasks::lists::List;
use std::alloc::{AllocError, Global};
use tenant_lines::commands::Command;
use tenant_lines::config::TenantId;

/// An event of the host.
#[derive(Drop)]
pub enum Event {
    /// A command of one tenant.
    Own(TenantId, Command),
    /// An instant of all tenants, with the input value of each line.
    Tick(List<i64>),
    /// The completion of a job.
    Done(JobId),
}

impl Event {
    /// An equal event, which shares the text of a `load` or a `replace`. Allocates for the values of an instant if there are any, and
    /// nothing otherwise.
    ///
    /// # Errors
    /// Out of memory for these values, or a share of that text is refused. Never if it is empty.
    pub fn copy(&self, alloc: Global) -> Result<Event, AllocError>
        ensures same { IfOk result (λ event. event ≡ self.now) }
        ensures command { (tenant : ℕ) (command : Command) → self.now ≡ Event.Own tenant command → IsErr result → IsTrue (has_text command) }
        ensures instant { (frame : List ℤ) → self.now ≡ Event.Tick frame → IsErr result → 0 < length frame }
        ensures completion { (id : JobId) → self.now ≡ Event.Done id → IsOk result }
    {
        Ok(match self {
            Event::Own(tenant, command) => Event::Own(*tenant, command.copy()?),
            Event::Tick(frame) => Event::Tick(copy_of_frame(alloc, frame.as_slice())?),
            Event::Done(id) => Event::Done(id.copy()),
        })
    }
}
