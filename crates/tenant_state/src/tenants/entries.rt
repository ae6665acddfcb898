//! The entries of a tenant's tasks in the table of active tasks.

ghost use Rattle.std.specs.Prelude.{◌≡◌, ◌<◌, ◌≤◌, ◌+◌, [], drop, true, false, if◌then◌else◌, length, map, None, Some};
ghost use Rattle.std.specs.List.{AllByRecursion};
ghost use Rattle.tenant_jobs.specs.Finished.{entry_in};
ghost use Rattle.tenant_jobs.specs.cited.Finished.{entry_put, is_entered};
ghost use Rattle.rig_model.specs.Jobs.{same_job, has_job, job_of};
ghost use Rattle.rig_model.specs.declared.jobs.JobId.{JobId};
ghost use Rattle.rig_model.specs.Row.{ActiveTask};
ghost use Rattle.tenant_state.specs.Standing.{all_different_releases};
ghost use Rattle.tenant_state.specs.cited.Standing.{without_ended};
ghost use Rattle.tenant_state.specs.Tenants.{active_of};
ghost use Rattle.tenant_state.specs.inner.Tenants.{IsActiveOf};

use crate::tenants::active_tasks::ActiveTasks;
use crate::tenants::completions::job_id;
use crate::tenants::{Active, Tenant};
use giotto_check::Checked;
use rig_model::config::TenantId;
use tenant_jobs::finished::Finished;

impl Tenant {
    /// Removes the entries of the tasks that ended from the table, and forgets these tasks.
    pub fn leave(&mut self, finished: &mut Finished)
        ensures entries { (j : JobId) → entry_in finished.new.entries j
            ≡ (if has_job self.old.tenancy.owner.place self.old.ready.ended j then None else entry_in finished.old.entries j) }
        ensures none { self.old.ready.ended ≡ [] → finished.new ≡ finished.old }
        ensures room { finished.old.room ≤ finished.new.room }
        ensures same { self.new ≡ without_ended self.old }
    {
        let Some(checked) = &self.program else {
            return;
        };
        for active in self.active.ended() {
            finished.remove(&job_id(checked, self.grants.own(), active), &active.key);
        }
        self.active.forget_ended();
    }

    /// Adds entries for the active tasks from place `from` on, and notes the keys of these entries. The oldest active task is at
    /// place 0. Takes no memory.
    pub fn enter(&mut self, from: usize, finished: &mut Finished)
        requires room { length (drop from self.old.row.active) ≤ finished.old.room }
        requires new { AllByRecursion (λ (a : ActiveTask). is_entered finished.old.entries (job_of self.old.tenancy.owner.place a) ≡ false) (drop from self.old.row.active) }
        ensures entries { (j : JobId) → entry_in finished.new.entries j
            ≡ entry_put (has_job self.old.tenancy.owner.place (drop from self.old.row.active) j) j None finished.old.entries }
        ensures room { finished.new.room + length (drop from self.old.row.active) ≡ finished.old.room }
        ensures same { self.new ≡ self.old }
    {
        let Some(checked) = &self.program else {
            return;
        };
        enter_each(checked, self.grants.own(), from, &mut self.active, finished);
    }
}

// Adds entries for these active tasks from place `from` on, and notes the keys of these entries.
fn enter_each(
    checked: &Checked,
    tenant: TenantId,
    from: usize,
    active: &mut ActiveTasks,
    finished: &mut Finished,
)
    requires active { AllByRecursion (IsActiveOf checked.now) active.old.items }
    requires different { all_different_releases (map (active_of checked.now) active.old.items) ≡ true }
    requires room { length (drop from (map (active_of checked.now) active.old.items)) ≤ finished.old.room }
    requires new { AllByRecursion (λ (a : ActiveTask). is_entered finished.old.entries (job_of tenant a) ≡ false) (drop from (map (active_of checked.now) active.old.items)) }
    ensures entries { (j : JobId) → entry_in finished.new.entries j
        ≡ entry_put (has_job tenant (drop from (map (active_of checked.now) active.old.items)) j) j None finished.old.entries }
    ensures room { finished.new.room + length (drop from (map (active_of checked.now) active.old.items)) ≡ finished.old.room }
    ensures same { active.new ≡ active.old }
{
    for place in from..active.count {
        enter_one(checked, tenant, &mut active.entries[place], finished);
    }
}

// Adds an entry for an active task, and notes the entry's key.
fn enter_one(checked: &Checked, tenant: TenantId, active: &mut Active, finished: &mut Finished)
    requires active { IsActiveOf checked.now active.old }
    requires room { 0 < finished.old.room }
    requires new { is_entered finished.old.entries (job_of tenant (active_of checked.now active.old)) ≡ false }
    ensures entries { (j : JobId) → entry_in finished.new.entries j
        ≡ entry_put (same_job (job_of tenant (active_of checked.now active.old)) j) j None finished.old.entries }
    ensures room { finished.new.room + 1 ≡ finished.old.room }
    ensures same { active.new ≡ active.old }
{
    let id = job_id(checked, tenant, active);
    active.key = finished.enter_task(id);
}
