//! The second half of an instant: sensors are read, a switch is taken, tasks are released, and the mode time moves on.

ghost use Rattle.std.specs.Prelude.{◌≡◌, ◌<◌, ◌≤◌, ◌+◌, ◌-◌, ◌^◌, ◌++◌, [], length, map, true, is_some, IsTrue};
ghost use Rattle.std.specs.Arc.{arc_value};
ghost use Rattle.std.specs.List.{AllByRecursion, list_all};
ghost use Rattle.std.specs.Option.{option_map};
ghost use Rattle.tenant_slots.specs.well_formed.cited.Timetables.{AreEach};
ghost use Rattle.giotto_tasks.specs.Sound.{all_different};
ghost use Rattle.rig_model.specs.text.Program.{ModeDeclaration};
ghost use Rattle.tenant_slots.specs.cited.Due.{IsQuietUntil};
ghost use Rattle.tenant_slots.specs.Places.{name_of_task};
ghost use Rattle.tenant_slots.specs.cited.Places.{IsModeAt};
ghost use Rattle.rig_model.specs.FirstHalf.{due_tasks};
ghost use Rattle.tenant_state.specs.cited.Halves.{IsSecondHalf};
ghost use Rattle.tenant_jobs.specs.cited.Jobs.{IsComputable};
ghost use Rattle.tenant_state.specs.Jobs.{body_in, job_in, released_at};
ghost use Rattle.tenant_state.specs.cited.Standing.{AreReleased, HasRoom, HasShares, IsSettled};
ghost use Rattle.rig_model.specs.Row.{is_running};
ghost use Rattle.tenant_state.specs.Standing.{most_released};
ghost use Rattle.tenant_state.specs.Tenants.{active_of};
ghost use Rattle.tenant_state.specs.inner.Tenants.{IsActiveOf, IsShareOf, its_job, released_in};

use crate::tenants::releases::invoke_due;
use crate::tenants::switches::{Instant, switch};
use crate::tenants::{Active, State, Tenant};
use giotto_check::Checked;
use giotto_tasks::bodies::Body;
use rig_model::config::TenantId;
use rig_model::grants::granted::{Granted, places_of};
use rig_model::text::programs::Program;
use std::alloc::Global;
use std::sync::Arc;
use tenant_exchange::sensors::read_sensors;
use tenant_jobs::jobs::{Job, JobId, Jobs};
use tenant_slots::due::due_after;

impl Tenant {
    /// Carries out the second half of an instant, and adds the jobs of the tasks that it releases to `jobs`, which has space for
    /// them. The number of the instant is less than 2^64 - 1. Each due task ended in the first half. `frame` has the input value
    /// of each line. `granted` has the value that is granted through each bind, if any, by the bind's place. It has at most 64
    /// places, as a tenant has at most 64 binds. Takes no memory.
    pub fn phase_two(&mut self, frame: &[i64], granted: &[Option<i64>], jobs: &mut Jobs)
        requires few { length granted.now ≤ 64 }
        requires rest { self.old.ready.ended ≡ [] }
        requires ended_due { due_tasks self.old.row ≡ [] }
        requires next_tick { self.old.row.next_tick < 2 ^ 64 - 1 }
        requires room { HasRoom self.old }
        requires shares { HasShares self.old }
        requires jobs { most_released self.old.row ≤ jobs.old.room }
        ensures half { IsSecondHalf frame.now granted.now self.old self.new }
        ensures released { AreReleased self.old.row self.new.row }
        ensures jobs { jobs.new.jobs ≡ jobs.old.jobs ++ released_at self.old.tenancy.owner.place self.old.row.next_tick self.new.row }
        ensures room { jobs.old.room ≤ jobs.new.room + most_released self.old.row }
    {
        let tick = self.next_tick();
        let mut places = places_of(granted);
        self.second_half(frame, places.as_mut_slice());
        self.add_jobs(tick, jobs);
    }

    /// Carries out the second half of an instant: sensors are read, tasks are released, and the mode time advances. The number of
    /// the instant is less than 2^64 - 1. Each due task ended in the first half. `frame` has the input value of each line.
    /// `granted` has the value that is granted through each bind, if any, by the bind's place. The place where a bind's sensor
    /// was found is noted there. Releases no more tasks than `ready` returned. Takes no memory.
    // Inlined, so a tenant that isn't running costs its host no call.
    #[inline(always)]
    pub fn second_half(&mut self, frame: &[i64], granted: &mut [Granted])
        requires rest { self.old.ready.ended ≡ [] }
        requires next_tick { self.old.row.next_tick < 2 ^ 64 - 1 }
        requires room { HasRoom self.old }
        requires ended_due { due_tasks self.old.row ≡ [] }
        ensures half { IsSecondHalf frame.now granted.old self.old self.new }
        ensures released { AreReleased self.old.row self.new.row }
        ensures few { length (released_at self.old.tenancy.owner.place self.old.row.next_tick self.new.row) ≤ most_released self.old.row }
        ensures shared { self.old.ready.shared ≡ true → self.new.ready.shared ≡ true }
        ensures granted { granted.new ≡ granted.old }
    {
        if self.mode_time == 0 && self.is_running() {
            self.install_waiting();
        }
        self.go_on(frame, granted);
    }

    /// Adds the jobs of the active tasks that the instant of this number released to `jobs`, which has space for them. The jobs
    /// are in the order of their release. Each carries the key of its task's entry, and takes the share of its body that `ready`
    /// made. Takes no memory.
    pub fn add_jobs(&mut self, tick: u64, jobs: &mut Jobs)
        requires shares { 0 < length (released_at self.old.tenancy.owner.place tick self.old.row) → self.old.ready.shared ≡ true }
        requires room { length (released_at self.old.tenancy.owner.place tick self.old.row) ≤ jobs.old.room }
        ensures jobs { jobs.new.jobs ≡ jobs.old.jobs ++ released_at self.old.tenancy.owner.place tick self.old.row }
        ensures room { jobs.new.room + length (released_at self.old.tenancy.owner.place tick self.old.row) ≡ jobs.old.room }
        ensures rest { self.new ≡ record self.old { ready = record self.old.ready { shared = self.new.ready.shared } } }
    {
        let Some(checked) = &self.program else {
            return;
        };
        let active = self.active.as_slice();
        let shares = self.shares.as_mut_slice();
        add_jobs(checked, self.grants.own(), tick, active, shares, jobs);
    }

    // The second half of an instant at which no program is installed.
    #[inline(always)]
    fn go_on(&mut self, frame: &[i64], granted: &mut [Granted])
        requires rest { self.old.ready.ended ≡ [] }
        requires next_tick { self.old.row.next_tick < 2 ^ 64 - 1 }
        requires room { HasRoom self.old }
        requires ended_due { due_tasks self.old.row ≡ [] }
        requires settled { is_running self.old.row ≡ true → IsSettled self.old.row }
        ensures half { IsSecondHalf frame.now granted.old self.old self.new }
        ensures program { self.new.row.program ≡ self.old.row.program }
        ensures released { AreReleased self.old.row self.new.row }
        ensures shared { self.new.ready.shared ≡ self.old.ready.shared }
        ensures granted { granted.new ≡ granted.old }
    {
        let release = self.next_tick;
        self.next_tick += 1;
        let State::Running = self.state else {
            return;
        };
        let Some(checked) = &self.program else {
            return;
        };
        let values = self.values.as_mut_slice();
        read_sensors(checked, &self.budgets, frame, &self.grants, granted, values);
        let mut mode = self.mode;
        let mut time = self.mode_time;
        let mut next = self.next_due;
        let active = self.active.as_slice();
        let trace = &mut self.trace;
        let at = Instant {
            checked,
            mode,
            time,
            next,
            tick: release,
        };
        if let Some(entry) = switch(&at, active, values, trace) {
            mode = entry.mode;
            time = entry.time;
            next = 0;
        }
        let period = checked.program().modes()[mode].period;
        invoke_due(checked, mode, time, next, release, values, &mut self.active);
        let behind = (time + 1) % period;
        self.next_due = due_after(checked, mode, time, behind, next);
        self.mode_time = behind;
        self.mode = mode;
    }
}

// Adds the jobs of the active tasks that the instant of this number released, in their order. They are of different tasks, and
// each takes the share of its body.
fn add_jobs(
    checked: &Checked,
    tenant: TenantId,
    tick: u64,
    active: &[Active],
    shares: &mut [Option<Arc<Body, Global>>],
    jobs: &mut Jobs,
)
    requires each { AllByRecursion (IsActiveOf checked.now) active.now }
    requires different { IsTrue (all_different (map (λ a. name_of_task checked.now a.task) (released_in tick active.now))) }
    requires shares { AreEach IsShareOf checked.now.tasks (map (option_map arc_value) shares.old) }
    requires shared { 0 < length (released_in tick active.now) → list_all is_some shares.old ≡ true }
    requires room { length (released_in tick active.now) ≤ jobs.old.room }
    ensures shares { AreEach IsShareOf checked.now.tasks (map (option_map arc_value) shares.new) }
    ensures jobs { jobs.new.jobs ≡ jobs.old.jobs ++ map (its_job tenant checked.now) (released_in tick active.now) }
    ensures room { jobs.new.room + length (released_in tick active.now) ≡ jobs.old.room }
{
    let program = checked.program();
    for entry in active {
        if entry.release == tick {
            let Some(body) = shares[entry.task].take() else {
                unreachable!()
            };
            jobs.put(job_for(program, tenant, entry, body));
        }
    }
}

// The job of an active task. `body` is the body of its task.
fn job_for(program: &Program, tenant: TenantId, active: &Active, body: Arc<Body, Global>) -> Job
    requires there { active.now.task < length program.now.tasks }
    requires computable { IsComputable (job_in program.now tenant (active_of program.now active.now)) }
    requires body { arc_value body ≡ body_in program.now (name_of_task program.now active.now.task) }
    ensures { result ≡ job_in program.now tenant (active_of program.now active.now) }
{
    let id = JobId {
        tenant,
        tick: active.release,
        task: program.tasks()[active.task].name.copy(),
    };
    let inputs = active.inputs.copy();
    let states = active.states.copy();
    Job::new(id, body, inputs, states, active.key.copy())
}
