//! The jobs of a tenant's active tasks, and their results.

ghost use Rattle.std.specs.Prelude.{◌≡◌, ◌<◌, ◌↔◌, ◌||◌, ◌&&◌, ◌++◌, if◌then◌else◌, false, true, filter, map, length, not, IsTrue, IsOk, IfOk, OnOk, OnErr, IfSome, None, find, slice_get, option_copied};
ghost use Rattle.std.specs.Arc.{arc_value};
ghost use Rattle.std.specs.List.{AllByRecursion};
ghost use Rattle.std.specs.Option.{option_and_then};
ghost use Rattle.tenant_slots.specs.well_formed.cited.Facts.{ProgramFits};
ghost use Rattle.rig_model.specs.text.ProgramTrees.{task_of};
ghost use Rattle.tenant_slots.specs.cited.Places.{IsTaskAt};
ghost use Rattle.tenant_jobs.specs.Finished.{entry_in, has_result, result_in};
ghost use Rattle.tenant_jobs.specs.cited.Finished.{entry_put, is_entered};
ghost use Rattle.rig_model.specs.Jobs.{job_of, same_job};
ghost use Rattle.rig_model.specs.declared.jobs.JobId.{JobId};
ghost use Rattle.tenant_state.specs.cited.Standing.{has_active, HasItsEntries, HasItsResults};
ghost use Rattle.tenant_state.specs.Standing.{awaited_job, outstanding_tasks, released_job};
ghost use Rattle.tenant_state.specs.inner.Tenants.{IsActiveOf, is_done, its_name, its_result};

use crate::tenants::{Active, Tenant};
use giotto_check::Checked;
use giotto_tasks::bodies::Body;
use giotto_tasks::same::Same;
use rig_model::config::TenantId;
use rig_model::text::programs::Task;
use std::alloc::AllocError;
use std::sync::Arc;
use tenant_jobs::finished::Finished;
use tenant_jobs::jobs::{Done, Job, JobId, JobResult};

impl Tenant {
    /// Whether this is the result of an active task's job: the task is active with the job's release, and the job's body, inputs and
    /// states are those of the release. Takes no memory.
    pub fn awaits(&self, done: &Done) -> bool
        ensures { IsTrue result ↔ (released_job self.now done.now.id ≡ Some done.now) }
    {
        let Some(checked) = &self.program else {
            return false;
        };
        let Some(place) = place_of(
            checked,
            self.grants.own(),
            self.active.as_slice(),
            done.id(),
        ) else {
            return false;
        };
        let active = &self.active.as_slice()[place];
        is_of_release(declared(checked, active), active, done.job())
    }

    /// The job of this name, if its completion is awaited: its task is active with the job's release, and has no result in this
    /// table.
    ///
    /// # Errors
    /// A share of the task's body is refused. The share is only asked for if the completion is awaited.
    pub fn job(&self, id: &JobId, finished: &Finished) -> Result<Option<Job>, AllocError>
        ensures job { IfOk result (λ job. job ≡ awaited_job self.now finished.now.entries id.now) }
        ensures never_refused { awaited_job self.now finished.now.entries id.now ≡ None → IsOk result }
    {
        let Some(checked) = &self.program else {
            return Ok(None);
        };
        let tenant = self.grants.own();
        let Some(place) = place_of(checked, tenant, self.active.as_slice(), id) else {
            return Ok(None);
        };
        let active = &self.active.as_slice()[place];
        if result_of(checked, tenant, finished, active).is_some() {
            return Ok(None);
        }
        let body = Arc::try_clone(&declared(checked, active).body)?;
        let inputs = active.inputs.copy();
        let states = active.states.copy();
        Ok(Some(Job::new(id.copy(), body, inputs, states, active.key.copy())))
    }

    /// Computes the jobs of all active tasks that have no result in this table, and puts the results there. Returns how many
    /// there were. Takes no memory.
    pub fn complete_all(&self, finished: &mut Finished) -> usize
        requires entries { HasItsEntries self.now finished.old.entries }
        ensures number { result ≡ length (outstanding_tasks self.now finished.old.entries) }
        ensures entered { (j : JobId) → is_entered finished.new.entries j ≡ is_entered finished.old.entries j }
        ensures results { (j : JobId) → has_result finished.new.entries j ≡ (has_result finished.old.entries j || has_active self.now j) }
        ensures right { HasItsResults self.now finished.old.entries → HasItsResults self.now finished.new.entries }
        ensures others { (j : JobId) → has_active self.now j ≡ false → entry_in finished.new.entries j ≡ entry_in finished.old.entries j }
        ensures room { finished.new.room ≡ finished.old.room }
    {
        let Some(checked) = &self.program else {
            return 0;
        };
        let mut number = 0;
        for active in self.active.as_slice() {
            if compute(checked, self.grants.own(), active, finished) {
                number += 1;
            }
        }
        number
    }

    /// Appends the names of the jobs of all active tasks that have no result in this table, in the order of the tasks.
    ///
    /// # Errors
    /// Out of memory, only if there is such a task.
    pub fn add_outstanding(
        &self,
        finished: &Finished,
        names: &mut Vec<JobId>,
    ) -> Result<(), AllocError>
        ensures names { OnOk result (names.new.items ≡ names.old.items ++ map (job_of self.now.tenancy.owner.place) (outstanding_tasks self.now finished.now.entries)) }
        ensures memory { OnErr result (0 < length (outstanding_tasks self.now finished.now.entries)) }
    {
        let Some(checked) = &self.program else {
            return Ok(());
        };
        let tenant = self.grants.own();
        for active in self.active.as_slice() {
            if result_of(checked, tenant, finished, active).is_none() {
                names.push(job_id(checked, tenant, active))?;
            }
        }
        Ok(())
    }
}

// Computes the job of an active task, if it has no result yet. Returns whether it had none.
fn compute(checked: &Checked, tenant: TenantId, active: &Active, finished: &mut Finished) -> bool
    requires active { IsActiveOf checked.now active.now }
    requires entered { is_entered finished.old.entries (its_name tenant checked.now active.now) ≡ true }
    ensures computed { result ≡ not (is_done finished.old.entries tenant checked.now active.now) }
    ensures entries { (j : JobId) → entry_in finished.new.entries j
        ≡ entry_put (result && same_job (its_name tenant checked.now active.now) j) j (Some (its_result tenant checked.now active.now)) finished.old.entries }
    ensures room { finished.new.room ≡ finished.old.room }
{
    let task = declared(checked, active);
    let id = job_id(checked, tenant, active);
    finished.compute(&id, &active.key, &task.body, &active.inputs, &active.states)
}

// The program's task that is active.
#[inline(always)]
pub(crate) fn declared<'a>(checked: &'a Checked, active: &Active) -> &'a Task
    requires { IsActiveOf checked.now active.now }
    ensures task { IsTaskAt checked.now active.now.task (task_of result.now) }
    ensures fits { ProgramFits checked.now }
{
    &checked.program().tasks()[active.task]
}

// The name of an active task's job.
#[inline(always)]
pub(crate) fn job_id(checked: &Checked, tenant: TenantId, active: &Active) -> JobId
    requires { IsActiveOf checked.now active.now }
    ensures { result ≡ its_name tenant checked.now active.now }
{
    JobId {
        tenant,
        tick: active.release,
        task: declared(checked, active).name.copy(),
    }
}

// The result of an active task's job, if it came.
pub(crate) fn result_of<'a>(
    checked: &Checked,
    tenant: TenantId,
    finished: &'a Finished,
    active: &Active,
) -> Option<&'a JobResult>
    requires { IsActiveOf checked.now active.now }
    ensures { option_copied result ≡ result_in finished.now.entries (its_name tenant checked.now active.now) }
{
    let id = job_id(checked, tenant, active);
    finished.result(&id, &active.key)
}

// The place of the first active task of this tenant whose job has this name.
#[tactic(auto, using(crate::proofs::AwaitedTasks::found_here))]
fn place_of(checked: &Checked, tenant: TenantId, active: &[Active], id: &JobId) -> Option<usize>
    requires { AllByRecursion (IsActiveOf checked.now) active.now }
    ensures within { IfSome result (λ place. place < length active.now) }
    ensures found { find (λ a. same_job (its_name tenant checked.now a) id.now) active.now ≡ option_and_then (slice_get active.now) result }
{
    if id.tenant != tenant {
        return None;
    }
    for (place, entry) in active.iter().enumerate() {
        if is_named(checked, tenant, entry, id) {
            return Some(place);
        }
    }
    None
}

// Whether an active task's job has this name, which is one of the tenant's.
fn is_named(checked: &Checked, tenant: TenantId, active: &Active, id: &JobId) -> bool
    requires active { IsActiveOf checked.now active.now }
    requires tenant { id.now.tenant ≡ tenant }
    ensures { result ≡ same_job (its_name tenant checked.now active.now) id.now }
{
    active.release == id.tick && declared(checked, active).name == id.task
}

// Whether the job has the body of this task, and the inputs and the states of this release.
fn is_of_release(task: &Task, active: &Active, job: &Job) -> bool
    ensures { IsTrue result ↔ ((arc_value task.now.body ≡ job.now.body) × (active.now.inputs ≡ job.now.inputs) × (active.now.states ≡ job.now.states)) }
{
    let body: &Body = &task.body;
    body.is_same(job.body())
        && active.inputs.is_same(job.inputs())
        && active.states.is_same(job.states())
}
