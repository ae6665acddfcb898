//! What a tenant shows: its status, and the values of its ports.

ghost use Rattle.std.specs.Prelude.{◌≡◌, ◌≢◌, Err, false, IfOk, IfErr};
ghost use Rattle.rig_model.specs.declared.lines.replies.Refusal.{Refusal};
ghost use Rattle.rig_model.specs.declared.lines.replies.Reply.{Reply};
ghost use Rattle.rig_model.specs.Commands.{show_all, show_port, status_of};
ghost use Rattle.rig_model.specs.Row.{Row};
ghost use Rattle.tenant_state.specs.cited.Standing.{IsRefused};
ghost use Rattle.tenant_state.specs.Memory.{has_port};
ghost use Rattle.tenant_state.specs.Standing.{StandsFor};

use crate::tenants::{Reason, State, Tenant};
use giotto_tasks::lists::List;
use giotto_tasks::names::Name;
use rig_model::lines::ports::{PortName, PortValue};
use rig_model::lines::replies::{Refusal, Status};
use tenant_programs::shown::port_values;
use tenant_slots::names::port_value;

impl Tenant {
    // What the tenant is doing.
    pub(crate) fn status(&self) -> Status
        ensures { (row : Row) → StandsFor self.now row → result ≡ status_of row }
    {
        let mode = match &self.program {
            Some(checked) => checked.program().modes()[self.mode].name.copy(),
            None => Name::default(),
        };
        match &self.state {
            State::Empty => Status::Empty,
            State::Loaded => Status::Loaded(mode),
            State::Running => Status::Running(mode, self.mode_time),
            State::Stopped(Reason::Asked) => Status::StoppedAsked,
            State::Stopped(Reason::Overrun(task)) => Status::StoppedOverrun(task.copy()),
        }
    }

    /// The value of a port of the program. If a task is named, the port is one of its inputs or states, else a sensor, an
    /// actuator or an output. Takes no memory.
    ///
    /// # Errors
    /// `NotLoaded` if the tenant has no program. `NoPort` if the program has no such port.
    #[inline(always)]
    pub fn port_value(&self, port: &PortName) -> Result<i64, Refusal>
        ensures room { result ≢ Err Refusal.Memory }
        ensures refused { IfErr result (λ r. IsRefused self.now (λ row. show_port port.now row row.program) r) }
        ensures shown { IfOk result (λ z. (row : Row) → StandsFor self.now row
            → show_port port.now row row.program ≡ record { row = row; reply = Reply.Port (record { port = port.now; value = z }) }) }
    {
        let Some(checked) = &self.program else {
            return Err(Refusal::NotLoaded);
        };
        let values = self.values.as_slice();
        let task = match &port.task {
            Some(task) => Some(task),
            None => None,
        };
        match port_value(checked, task, &port.name, values) {
            Some(value) => Ok(value),
            None => Err(Refusal::NoPort),
        }
    }

    // The values of all ports of the program. Takes no memory if there is no program, or if it has no port.
    pub(crate) fn all_values(&self) -> Result<List<PortValue>, Refusal>
        ensures room { has_port self.now.row.program ≡ false → result ≢ Err Refusal.Memory }
        ensures refused { IfErr result (λ r. r ≢ Refusal.Memory → IsRefused self.now (λ row. show_all row row.program) r) }
        ensures shown { IfOk result (λ all. (row : Row) → StandsFor self.now row → show_all row row.program ≡ record { row = row; reply = Reply.All all }) }
    {
        let Some(checked) = &self.program else {
            return Err(Refusal::NotLoaded);
        };
        if self.values.is_empty() {
            return Ok(List::from_vec(Vec::new(self.alloc)));
        }
        let all = port_values(self.alloc, checked, self.values.as_slice())?;
        Ok(List::from_vec(all))
    }
}
