//! An instant of all tenants.

ghost use Rattle.std.specs.Prelude.{◌≡◌, ◌<◌, ◌≤◌, ◌-◌, ◌^◌, ◌++◌, ℕ, [], if◌then◌else◌, length, map, All, IfSome, IsSome, OnSome, Some, None, false};
ghost use Rattle.std.specs.List.{flat_map};
ghost use Rattle.instant_engine.specs.cited.Instants.{AreInstants, AreStepped, IsBetween};
ghost use Rattle.instant_engine.specs.cited.Tables.{IsTaskTable};
ghost use Rattle.instant_engine.specs.Tenants.{ArePlaced, most_of, released_from, tenant_at};
ghost use Rattle.instant_engine.specs.cited.Tenants.{HaveRoster, binds_of, granted_at, is_active_among};
ghost use Rattle.instant_engine.specs.cited.Halves.{AreSecondHalves, AreToldEnded, CanGiveJobs, IsReady, is_released_among, last_jobs};
ghost use Rattle.tenant_state.specs.job_table.Finished.{entry_in, result_in};
ghost use Rattle.tenant_state.specs.job_table.cited.Finished.{entry_put, is_entered};
ghost use Rattle.rig_model.specs.declared.jobs.JobId.{JobId};
ghost use Rattle.rig_model.specs.FirstHalf.{due_tasks};
ghost use Rattle.tenant_state.specs.cited.Halves.{IsFirstHalf};
ghost use Rattle.tenant_state.specs.Standing.{Standing, at_rest};
ghost use Rattle.tenant_state.specs.cited.Standing.{HasItsEntries, HasItsResults, without_ended};

use crate::grants::grant;
use rig_model::grants::granted::{Granted, empty_places};
use tenant_jobs::finished::Finished;
use tenant_jobs::jobs::Jobs;
use tenant_state::tenants::Tenant;

/// Makes what each tenant's next instant needs. Returns how many jobs all of them can release at most. `None` if this fails, or the
/// number is too large for its type. Takes no memory if they can release none.
pub fn ready(tenants: &mut [Tenant]) -> Option<usize>
    ensures rest { map at_rest tenants.new ≡ map at_rest tenants.old }
    ensures ready { OnSome result (All IsReady tenants.new) }
    ensures most { IfSome result (λ n. n ≡ most_of tenants.new) }
    ensures never_refused { most_of tenants.old ≡ 0 → IsSome result }
{
    let mut most: usize = 0;
    for i in 0..tenants.len() {
        let Ok(jobs) = tenants[i].ready() else {
            return None;
        };
        most = most.checked_add(jobs)?;
    }
    Some(most)
}

/// Runs an instant of all tenants, as `instant_with` does, without places for what is granted. The tenants have at most 1,024 binds in
/// all: 16 tenants with 64 binds each. Takes no memory.
pub fn instant(tenants: &mut [Tenant], frame: &[i64], finished: &mut Finished, jobs: &mut Jobs)
    requires placed { ArePlaced tenants.old }
    requires between { All IsBetween tenants.old }
    requires counts { All (λ (s : Standing). s.row.next_tick < 2 ^ 64 - 1) tenants.old }
    requires ready { All IsReady tenants.old }
    requires rosters { HaveRoster tenants.old }
    requires few { binds_of tenants.old ≤ 1024 }
    requires table { IsTaskTable tenants.old finished.old.entries }
    requires entries { most_of tenants.old ≤ finished.old.room }
    requires none { jobs.old.jobs ≡ [] }
    requires jobs { most_of tenants.old ≤ jobs.old.room }
    ensures instants { AreInstants frame.now finished.old.entries tenants.old tenants.new }
    ensures entries { (j : JobId) → entry_in finished.new.entries j
        ≡ (if is_active_among tenants.new j then Some (record { id = j; result = result_in finished.old.entries j }) else None) }
    ensures table { IsTaskTable tenants.new finished.new.entries }
    ensures jobs { (n : ℕ) → All (λ (s : Standing). s.row.next_tick ≡ n) tenants.old → jobs.new.jobs ≡ released_from n 0 tenants.new }
{
    let mut places = empty_places();
    instant_with(tenants, frame, places.as_mut_slice(), finished, jobs);
}

/// Runs an instant of all tenants, as `advance` does, and adds its jobs: those of the tasks that it releases, tenant by tenant. `jobs` is
/// empty before, and has space for all that can be released. Takes no memory.
pub fn instant_with(
    tenants: &mut [Tenant],
    frame: &[i64],
    granted: &mut [Granted],
    finished: &mut Finished,
    jobs: &mut Jobs,
)
    requires placed { ArePlaced tenants.old }
    requires between { All IsBetween tenants.old }
    requires counts { All (λ (s : Standing). s.row.next_tick < 2 ^ 64 - 1) tenants.old }
    requires ready { All IsReady tenants.old }
    requires rosters { HaveRoster tenants.old }
    requires places { binds_of tenants.old ≤ length granted.old }
    requires table { IsTaskTable tenants.old finished.old.entries }
    requires entries { most_of tenants.old ≤ finished.old.room }
    requires none { jobs.old.jobs ≡ [] }
    requires jobs { most_of tenants.old ≤ jobs.old.room }
    ensures instants { AreInstants frame.now finished.old.entries tenants.old tenants.new }
    ensures entries { (j : JobId) → entry_in finished.new.entries j
        ≡ (if is_active_among tenants.new j then Some (record { id = j; result = result_in finished.old.entries j }) else None) }
    ensures table { IsTaskTable tenants.new finished.new.entries }
    ensures jobs { (n : ℕ) → All (λ (s : Standing). s.row.next_tick ≡ n) tenants.old → jobs.new.jobs ≡ released_from n 0 tenants.new }
{
    advance(tenants, frame, granted, finished);
    add_jobs(tenants, jobs);
}

/// Runs an instant of all tenants: the first half of each, then all granted values at once, and then the second half of each. `frame` has
/// the input value of each line, and `granted` a place for each bind, with any content.
///
/// The tenants are ready, and the numbers of their next instants are below the greatest. `finished` is the table of their active tasks,
/// and has space for all that they can release. After the instant the tenants can give the jobs of the released tasks, which are no more
/// than they could release. Takes no memory.
pub fn advance(
    tenants: &mut [Tenant],
    frame: &[i64],
    granted: &mut [Granted],
    finished: &mut Finished,
)
    requires placed { ArePlaced tenants.old }
    requires between { All IsBetween tenants.old }
    requires counts { All (λ (s : Standing). s.row.next_tick < 2 ^ 64 - 1) tenants.old }
    requires ready { All IsReady tenants.old }
    requires rosters { HaveRoster tenants.old }
    requires places { binds_of tenants.old ≤ length granted.old }
    requires table { IsTaskTable tenants.old finished.old.entries }
    requires entries { most_of tenants.old ≤ finished.old.room }
    ensures instants { AreInstants frame.now finished.old.entries tenants.old tenants.new }
    ensures entries { (j : JobId) → entry_in finished.new.entries j
        ≡ (if is_active_among tenants.new j then Some (record { id = j; result = result_in finished.old.entries j }) else None) }
    ensures table { IsTaskTable tenants.new finished.new.entries }
    ensures shares { All CanGiveJobs tenants.new }
    ensures few { length (flat_map last_jobs tenants.new) ≤ most_of tenants.old }
{
    first_halves(tenants, finished);
    keep(tenants, finished);
    grant(tenants, granted);
    second_halves(tenants, frame, granted, finished);
}

// Adds the jobs of the tasks that the last instant released, tenant by tenant.
fn add_jobs(tenants: &mut [Tenant], jobs: &mut Jobs)
    requires later { All (λ (s : Standing). 0 < s.row.next_tick) tenants.old }
    requires shares { All CanGiveJobs tenants.old }
    requires room { length (flat_map last_jobs tenants.old) ≤ jobs.old.room }
    ensures rest { map at_rest tenants.new ≡ map at_rest tenants.old }
    ensures jobs { jobs.new.jobs ≡ jobs.old.jobs ++ flat_map last_jobs tenants.old }
{
    for i in 0..tenants.len() {
        let tenant = &mut tenants[i];
        let last = tenant.next_tick() - 1;
        tenant.add_jobs(last, jobs);
    }
}

/// Removes from the table the entries of the tasks that are no longer active. The tenants report which these are. Takes no memory.
pub fn keep(tenants: &mut [Tenant], finished: &mut Finished)
    requires placed { ArePlaced tenants.old }
    requires told { AreToldEnded tenants.old finished.old.entries }
    ensures entries { (j : JobId) → entry_in finished.new.entries j ≡ (if is_active_among tenants.old j then entry_in finished.old.entries j else None) }
    ensures tenants { tenants.new ≡ map without_ended tenants.old }
    ensures room { finished.old.room ≤ finished.new.room }
{
    for i in 0..tenants.len() {
        tenants[i].leave(finished);
    }
}

// Runs the first half of each tenant.
fn first_halves(tenants: &mut [Tenant], finished: &Finished)
    requires between { All IsBetween tenants.old }
    requires entries { All (λ (s : Standing). HasItsEntries s finished.now.entries) tenants.old }
    requires results { All (λ (s : Standing). HasItsResults s finished.now.entries) tenants.old }
    ensures halves { AreStepped (λ t. IsFirstHalf finished.now.entries) tenants.old tenants.new }
    ensures ready { All IsReady tenants.old → All IsReady tenants.new }
    ensures fewer { most_of tenants.new ≤ most_of tenants.old }
    ensures binds { binds_of tenants.new ≡ binds_of tenants.old }
{
    for i in 0..tenants.len() {
        tenants[i].phase_one(finished);
    }
}

// Runs the second half of each tenant, with what is granted through its binds. Enters the released tasks in the table.
fn second_halves(
    tenants: &mut [Tenant],
    frame: &[i64],
    granted: &mut [Granted],
    finished: &mut Finished,
)
    requires rest { All (λ (s : Standing). s.ready.ended ≡ []) tenants.old }
    requires ended_due { All (λ (s : Standing). due_tasks s.row ≡ []) tenants.old }
    requires counts { All (λ (s : Standing). s.row.next_tick < 2 ^ 64 - 1) tenants.old }
    requires places { binds_of tenants.old ≤ length granted.old }
    requires placed { ArePlaced tenants.old }
    requires ready { All IsReady tenants.old }
    requires room { most_of tenants.old ≤ finished.old.room }
    requires new { (t : ℕ) (j : JobId) → t < length tenants.old → j.tenant ≡ t → (tenant_at tenants.old t).row.next_tick ≡ j.tick → is_entered finished.old.entries j ≡ false }
    ensures halves { AreSecondHalves frame.now granted.old tenants.old tenants.new }
    ensures entries { (j : JobId) → entry_in finished.new.entries j
        ≡ entry_put (is_released_among tenants.old tenants.new j) j None finished.old.entries }
{
    let mut first = 0;
    for i in 0..tenants.len() {
        let tenant = &mut tenants[i];
        let before = tenant.active();
        let behind = first + tenant.bind_count();
        tenant.second_half(frame, &mut granted[first..behind]);
        tenant.enter(before, finished);
        tenant.known();
        first = behind;
    }
}
