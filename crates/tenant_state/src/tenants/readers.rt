//! What a host reads of its tenants.

ghost use Rattle.std.specs.Prelude.{◌≡◌, ◌<◌, ◌%◌, ◌==◌, ◌&&◌, nat_eq, length};
ghost use Rattle.std.specs.List.{find, list_any, position_from, AllByRecursion};
ghost use Rattle.std.specs.Option.{option_map};
ghost use Rattle.giotto_tasks.specs.Names.{is_among, same_name};
ghost use Rattle.rig_model.specs.declared.text.programs.Actuator.{Actuator};
ghost use Rattle.giotto_check.specs.declared.timetables.SlotInvocation.{SlotInvocation};
ghost use Rattle.tenant_slots.specs.Places.{name_of_task};
ghost use Rattle.rig_model.specs.FirstHalf.{names_due};
ghost use Rattle.tenant_state.specs.cited.Standing.{has_active};
ghost use Rattle.rig_model.specs.Row.{actuator_value};
ghost use Rattle.rig_model.specs.LineValues.{line_value};
ghost use Rattle.tenant_state.specs.inner.Tenants.{IsActiveOf, is_of_job};

use crate::tenants::{Active, State, Tenant};
use giotto_check::Checked;
use giotto_check::timetables::SlotInvocation;
use giotto_tasks::names::Name;
use rig_model::text::programs::Actuator;
use tenant_jobs::jobs::JobId;
use tenant_slots::actuators::{actuator_place, driver_name};
use tenant_slots::due::ends_at;
use tenant_slots::names::is_task_named;

impl Tenant {
    /// Whether the task of this name is active and ends at the next instant. Nothing is due if no program runs. Takes no memory.
    pub fn due(&self, task: &str) -> bool
        ensures { result ≡ is_among (names_due self.now.row) task.now }
    {
        let State::Running = &self.state else {
            return false;
        };
        let Some(checked) = &self.program else {
            return false;
        };
        // Frequencies are positive.
        checked.known();
        let Some(place) = active_place(checked, self.active.as_slice(), task) else {
            return false;
        };
        ends_at(checked.invocations(self.mode), self.mode_time, place)
    }

    /// Whether this is a job of the tenant, and its task is active with the job's release. Takes no memory.
    pub fn is_active(&self, id: &JobId) -> bool
        ensures { result ≡ has_active self.now id.now }
    {
        if id.tenant != self.grants.own() {
            return false;
        }
        let Some(checked) = &self.program else {
            return false;
        };
        has_release(checked, self.active.as_slice(), id)
    }

    /// How many tasks are active.
    pub fn active(&self) -> usize
        ensures { result ≡ length self.now.row.active }
    {
        self.active.len()
    }

    /// The place of the actuator of this name in the program's text, from 0, and its value. `None` if the tenant has no program
    /// with such an actuator. Looks at `hint` first, which may be a place where the actuator was found before. Takes no memory.
    #[inline(always)]
    pub fn actuator_from(&self, name: &Name, hint: usize) -> Option<(usize, i64)>
        ensures { option_map (λ a. a.1) result ≡ actuator_value self.now.row name.now }
    {
        let Some(checked) = &self.program else {
            return None;
        };
        let place = actuator_place(checked, name, hint)?;
        let slot = checked.program().sensors().len() + place;
        let values = self.values.as_slice();
        Some((place, values[slot]))
    }

    /// The value of the actuator of this name. `None` if the tenant has no program with such an actuator. Takes no memory.
    pub fn actuator(&self, name: &Name) -> Option<i64>
        ensures { result ≡ actuator_value self.now.row name.now }
    {
        let (_, value) = self.actuator_from(name, 0)?;
        Some(value)
    }

    /// The value of the actuator that drives this line. `None` if the tenant has no program with such an actuator. Takes no
    /// memory.
    pub fn line(&self, line: usize) -> Option<i64>
        ensures { result ≡ line_value self.now.row line }
    {
        let Some(checked) = &self.program else {
            return None;
        };
        let name = driver_name(checked.program().actuators(), line as u64)?;
        self.actuator(&name)
    }
}

// The place in the program's text of the first active task of this name.
fn active_place(checked: &Checked, active: &[Active], name: &str) -> Option<usize>
    requires { AllByRecursion (IsActiveOf checked.now) active.now }
    ensures { result ≡ option_map (λ a. a.task) (find (λ a. same_name (name_of_task checked.now a.task) name.now) active.now) }
{
    for entry in active {
        if is_task_named(checked, entry.task, name) {
            return Some(entry.task);
        }
    }
    None
}

// Whether an active task has this job's name and release.
fn has_release(checked: &Checked, active: &[Active], id: &JobId) -> bool
    requires { AllByRecursion (IsActiveOf checked.now) active.now }
    ensures { result ≡ list_any (is_of_job checked.now id.now) active.now }
{
    for entry in active {
        if entry.release == id.tick && is_task_named(checked, entry.task, id.task.as_str()) {
            return true;
        }
    }
    false
}
