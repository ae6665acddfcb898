//! What an instant needs. It is made before the instant begins.

ghost use Rattle.std.specs.Prelude.{◌≡◌, map, is_some, true, Some, IsOk, IfNone, IfOk, IfSome, OnOk};
ghost use Rattle.std.specs.Arc.{arc_value};
ghost use Rattle.std.specs.List.{list_all};
ghost use Rattle.std.specs.Option.{option_map};
ghost use Rattle.tenant_slots.specs.well_formed.cited.Timetables.{AreEach};
ghost use Rattle.rig_model.specs.text.Program.{ModeDeclaration};
ghost use Rattle.rig_model.specs.text.ProgramTrees.{task_of};
ghost use Rattle.tenant_state.specs.cited.Standing.{HasRoom, HasShares, IsSettled};
ghost use Rattle.tenant_state.specs.Standing.{most_at, most_released};
ghost use Rattle.tenant_state.specs.inner.Tenants.{IsShareOf};
ghost use Rattle.tenant_slots.specs.cited.Places.{IsModeAt};

use crate::tenants::waiting::Waiting;
use crate::tenants::{State, Tenant};
use giotto_check::Checked;
use giotto_tasks::bodies::Body;
use rig_model::text::programs::Task;
use std::alloc::{AllocError, Global};
use std::sync::Arc;
use tenant_slots::due::Due;
use tenant_slots::names::start_place;

impl Tenant {
    /// Makes what the next instant needs: space for the tasks that become active, and shares of their bodies. Returns how many
    /// jobs the instant can release at most. The row is unchanged.
    ///
    /// # Errors
    /// Out of memory, or a share of a task's body is refused. Never if the next instant can release nothing.
    pub fn ready(&mut self) -> Result<usize, AllocError>
        ensures most { IfOk result (λ n. n ≡ most_released self.old.row) }
        ensures never_refused { most_released self.old.row ≡ 0 → IsOk result }
        ensures room { OnOk result (HasRoom self.new) }
        ensures shares { OnOk result (HasShares self.new) }
        ensures tenancy { self.new.tenancy ≡ self.old.tenancy }
        ensures row { self.new.row ≡ self.old.row }
        ensures ended { self.new.ready.ended ≡ self.old.ready.ended }
    {
        let most = self.most_released();
        if most == 0 {
            return Ok(0);
        }
        self.active.reserve(most)?;
        self.share_all()?;
        Ok(most)
    }

    // The most tasks that the next instant can release.
    fn most_released(&self) -> usize
        ensures { result ≡ most_released self.now.row }
    {
        let State::Running = &self.state else {
            return 0;
        };
        let Some(checked) = &self.program else {
            return 0;
        };
        checked.known();
        if let Some(waiting) = self.installs() {
            let program = &waiting.program;
            program.known();
            return most_at(program, start_place(program), 0);
        }
        if self.mode_time < self.next_due {
            return 0;
        }
        most_at(checked, self.mode, self.mode_time)
    }

    // The waiting program, if the next instant installs it.
    fn installs(&self) -> Option<&Waiting>
        ensures due { IfSome result (λ w. (self.now.row.mode_time ≡ 0) × (self.now.row.waiting ≡ Some w.now.program)) }
        ensures none { IfNone result (IsSettled self.now.row) }
    {
        if self.mode_time == 0 {
            self.waiting.as_ref()
        } else {
            None
        }
    }

    // Makes each missing share of the program's bodies, and of those of a waiting program.
    fn share_all(&mut self) -> Result<(), AllocError>
        ensures shared { OnOk result (is_some self.old.row.program ≡ true → self.new.ready.shared ≡ true) }
        ensures tenancy { self.new.tenancy ≡ self.old.tenancy }
        ensures row { self.new.row ≡ self.old.row }
        ensures ended { self.new.ready.ended ≡ self.old.ready.ended }
        ensures room { self.new.ready.room ≡ self.old.ready.room }
    {
        let Some(checked) = &self.program else {
            return Ok(());
        };
        share_bodies(checked.program().tasks(), self.shares.as_mut_slice())?;
        if let Some(waiting) = &mut self.waiting {
            waiting.share()?;
            return Ok(());
        }
        Ok(())
    }
}

// The most tasks that an instant in the mode at this place can release at this mode time.
fn most_at(checked: &Checked, mode: usize, time: u64) -> usize
    ensures { (m : ModeDeclaration) → IsModeAt checked.now mode m → result ≡ most_at checked.now m time }
{
    // Frequencies are positive, and switches go to modes of the program.
    checked.known();
    let mut due = Due::at(time);
    let mut most: usize = 0;
    for invocation in checked.invocations(mode) {
        if due.is_due(invocation.interval) {
            most += 1;
        }
    }
    for exit in checked.exits(mode) {
        if due.is_due(exit.interval) {
            most = most.max(checked.invocations(exit.target).len());
        }
    }
    most
}

// Makes each share that is missing.
pub(crate) fn share_bodies(
    tasks: &[Task],
    shares: &mut [Option<Arc<Body, Global>>],
) -> Result<(), AllocError>
    requires { AreEach IsShareOf (map task_of tasks.now) (map (option_map arc_value) shares.old) }
    ensures shared { OnOk result (list_all is_some shares.new ≡ true) }
    ensures shares { AreEach IsShareOf (map task_of tasks.now) (map (option_map arc_value) shares.new) }
{
    for k in 0..shares.len() {
        if shares[k].is_none() {
            shares[k] = Some(Arc::try_clone(&tasks[k].body)?);
        }
    }
    Ok(())
}
