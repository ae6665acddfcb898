//! The first half of an instant: due tasks end, and due actuators are updated.

ghost use Rattle.std.specs.Prelude.{◌≡◌, ◌<◌, ◌≤◌, not, true, false, ◌∷◌, [], length, map, filter, Some, None, IfSome, ◌⊎◌, Bool};
ghost use Rattle.std.specs.List.{find, list_any, AllByRecursion};
ghost use Rattle.std.specs.Option.{option_map};
ghost use Rattle.rig_model.specs.text.Program.{ModeDeclaration};
ghost use Rattle.tenant_slots.specs.well_formed.cited.Slots.{slots_of};
ghost use Rattle.tenant_slots.specs.well_formed.Slots.{valuation_of};
ghost use Rattle.tenant_slots.specs.well_formed.cited.Timetables.{AreEach, IsInvocation};
ghost use Rattle.tenant_slots.specs.Places.{name_of_task};
ghost use Rattle.tenant_jobs.specs.cited.Finished.{is_entered};
ghost use Rattle.tenant_state.specs.declared.tenants.Active.{Active};
ghost use Rattle.rig_model.specs.Jobs.{job_of};
ghost use Rattle.tenant_slots.specs.cited.Due.{MarksDue, is_among_due};
ghost use Rattle.tenant_state.specs.inner.EntryTable.{IsTableOf, AreDueEnded, AreEndsNoted, ends_noted, entries_at, is_left_open, is_task_open};
ghost use Rattle.rig_model.specs.FirstHalf.{all_ended, due_tasks};
ghost use Rattle.tenant_state.specs.cited.Halves.{IsFirstHalf};
ghost use Rattle.tenant_state.specs.Standing.{most_released};
ghost use Rattle.tenant_state.specs.cited.Standing.{HasItsEntries, HasItsResults};
ghost use Rattle.tenant_state.specs.Tenants.{active_of};
ghost use Rattle.tenant_state.specs.inner.Tenants.{IsActiveOf, IsResultRight, is_done};

use crate::tenants::active_tasks::ActiveTasks;
use crate::tenants::completions::result_of;
use crate::tenants::{Active, Reason, State, Tenant};
use giotto_check::Checked;
use giotto_check::timetables::SlotInvocation;
use rig_model::config::TenantId;
use rig_model::trace::traces::Trace;
use tenant_jobs::finished::Finished;
use tenant_slots::actuators::update_due;
use tenant_slots::due::{Due, TABLED_TASKS, ends_at, is_task_due, mark_due};
use tenant_slots::names::task_name;
use tenant_slots::tasks::write_results;

impl Tenant {
    /// Carries out the first half of an instant. If all due tasks have their results in this table, they write them, and the due
    /// actuators are updated. If a due task has no result, the tenant is stopped. The trace records what happens. Afterwards no
    /// task is due any longer. Takes no memory.
    pub fn phase_one(&mut self, finished: &Finished)
        requires rest { self.old.ready.ended ≡ [] }
        requires entries { HasItsEntries self.old finished.now.entries }
        requires results { HasItsResults self.old finished.now.entries }
        ensures half { IsFirstHalf finished.now.entries self.old self.new }
        ensures room { self.old.ready.room ≤ self.new.ready.room }
        ensures shared { self.old.ready.shared ≡ true → self.new.ready.shared ≡ true }
        ensures fewer { most_released self.new.row ≤ most_released self.old.row }
        ensures none_due { due_tasks self.new.row ≡ [] }
    {
        self.known();
        self.first_half(finished);
    }

    // The first half of an instant, as `phase_one`.
    #[inline(always)]
    fn first_half(&mut self, finished: &Finished)
        requires rest { self.old.ready.ended ≡ [] }
        requires entries { HasItsEntries self.old finished.now.entries }
        requires results { HasItsResults self.old finished.now.entries }
        ensures half { IsFirstHalf finished.now.entries self.old self.new }
        ensures room { self.old.ready.room ≤ self.new.ready.room }
        ensures shared { self.old.ready.shared ≡ true → self.new.ready.shared ≡ true }
        ensures fewer { most_released self.new.row ≤ most_released self.old.row }
    {
        let State::Running = &self.state else {
            return;
        };
        let Some(checked) = &self.program else {
            return;
        };
        checked.known();
        let time = self.mode_time;
        if time < self.next_due {
            return;
        }
        let tick = self.next_tick;
        let ending = Ending {
            checked,
            tenant: self.grants.own(),
            finished,
            time,
            tick,
        };
        let invocations = checked.invocations(self.mode);
        let active = self.active.as_slice();
        let mut table = EntryTable {
            numbers: [0; TABLED_TASKS],
            is_whole: false,
        };
        table.fill(active);
        if let Some(task) = first_unfinished(&ending, invocations, active, &table) {
            let name = task_name(checked, task);
            self.stop_with(Reason::Overrun(name));
            return;
        }
        let values = self.values.as_mut_slice();
        let trace = &mut self.trace;
        end_due(&ending, invocations, active, &table, values, trace);
        drop_due(invocations, time, &mut self.active);
        update_due(checked, self.mode, time, tick, values, trace);
    }
}

// What the tasks that end in one instant have in common.
#[derive(Clone, Copy)]
struct Ending<'a> {
    checked: &'a Checked,
    tenant: TenantId,
    // The table with their results.
    finished: &'a Finished,
    // The mode time, in ticks.
    time: u64,
    // The number of the instant.
    tick: u64,
}

// Whether the task at this place of the program is active without a result.
fn is_unfinished(ending: &Ending, active: &[Active], task: usize) -> bool
    requires { AllByRecursion (IsActiveOf ending.now.checked.now) active.now }
    ensures { result ≡ is_task_open (is_done ending.now.finished.now.entries ending.now.tenant ending.now.checked.now) active.now task }
{
    for a in active {
        if a.task == task
            && result_of(ending.checked, ending.tenant, ending.finished, a).is_none()
        {
            return true;
        }
    }
    false
}

// If fewer tasks than this are active, they are searched one by one, without a table.
const FEW: usize = 4;

// For each task, the number of its only active entry, from 1, or 0 if it has none. The table isn't whole if a task has two active
// entries, or if few or many tasks are active.
#[derive(Drop)]
struct EntryTable {
    numbers: [u8; TABLED_TASKS],
    is_whole: bool,
}

impl EntryTable {
    // Makes this the table of these entries.
    fn fill(&mut self, active: &[Active])
        requires { self.old.is_whole ≡ false }
        ensures { self.new.is_whole ≡ true → IsTableOf (length active.now) active.now self.new.numbers }
    {
        if active.len() < FEW {
            return;
        }
        self.numbers = [0; TABLED_TASKS];
        for i in 0..active.len() {
            let task = active[i].task;
            if i >= TABLED_TASKS || task >= TABLED_TASKS || self.numbers[task] != 0 {
                return;
            }
            self.numbers[task] = i as u8 + 1;
        }
        self.is_whole = true;
    }
}

// Active entries that include all those of the task at this place. If the table has the task, only these.
fn entries_of<'a>(active: &'a [Active], table: &EntryTable, task: usize) -> &'a [Active]
    requires { table.now.is_whole ≡ true → IsTableOf (length active.now) active.now table.now.numbers }
    ensures { (result.now ≡ active.now) ⊎ (result.now ≡ entries_at task active.now) }
{
    if !table.is_whole || task >= TABLED_TASKS {
        return active;
    }
    let end = usize::from(table.numbers[task]);
    &active[end.saturating_sub(1)..end]
}

// The place of the first task in text order that is due and has no result.
fn first_unfinished(
    ending: &Ending,
    invocations: &[SlotInvocation],
    active: &[Active],
    table: &EntryTable,
) -> Option<usize>
    requires positive { AllByRecursion (λ i. 0 < i.interval) invocations.now }
    requires active { AllByRecursion (IsActiveOf ending.now.checked.now) active.now }
    requires entered { AllByRecursion (λ a. is_entered ending.now.finished.now.entries (job_of ending.now.tenant (active_of ending.now.checked.now a)) ≡ true)
        active.now }
    requires table { table.now.is_whole ≡ true → IsTableOf (length active.now) active.now table.now.numbers }
    ensures { result ≡ option_map (λ i. i.task)
        (find (is_left_open ending.now.time (is_done ending.now.finished.now.entries ending.now.tenant ending.now.checked.now) active.now) invocations.now) }
{
    if ending.finished.is_complete() {
        return None;
    }
    let mut due = Due::at(ending.time);
    for invocation in invocations {
        let task = invocation.task;
        let entries = entries_of(active, table, task);
        if due.is_due(invocation.interval) && is_unfinished(ending, entries, task) {
            return Some(task);
        }
    }
    None
}

// Ends the due tasks, in the order of these invocations.
fn end_due(
    ending: &Ending,
    invocations: &[SlotInvocation],
    active: &[Active],
    table: &EntryTable,
    values: &mut [i64],
    trace: &mut Trace,
)
    requires values { length values.old ≡ slots_of ending.now.checked.now }
    requires active { AllByRecursion (IsActiveOf ending.now.checked.now) active.now }
    requires positive { AllByRecursion (λ i. 0 < i.interval) invocations.now }
    requires there { AllByRecursion (λ i. i.task < length ending.now.checked.now.tasks) invocations.now }
    requires table { table.now.is_whole ≡ true → IsTableOf (length active.now) active.now table.now.numbers }
    requires right { AllByRecursion (IsResultRight ending.now.finished.now.entries ending.now.tenant ending.now.checked.now) active.now }
    requires done { find (is_left_open ending.now.time (is_done ending.now.finished.now.entries ending.now.tenant ending.now.checked.now) active.now) invocations.now
        ≡ None }
    ensures ended { (m : ModeDeclaration) → AreEach (IsInvocation ending.now.checked.now m) m.invocations invocations.now
        → AreDueEnded ending.now.checked.now m ending.now.time active.now values.old values.new }
    ensures noted { (m : ModeDeclaration) → AreEach (IsInvocation ending.now.checked.now m) m.invocations invocations.now
        → AreEndsNoted ending.now.checked.now m ending.now.time ending.now.tick active.now trace.old trace.new }
{
    ending.checked.known();
    let mut due = Due::at(ending.time);
    for invocation in invocations {
        if due.is_due(invocation.interval) {
            let task = invocation.task;
            let entries = entries_of(active, table, task);
            end_each(ending, entries, task, values, trace);
        }
    }
}

// Ends each active task at this place of the program.
fn end_each(ending: &Ending, active: &[Active], task: usize, values: &mut [i64], trace: &mut Trace)
    requires there { task < length ending.now.checked.now.tasks }
    requires values { length values.old ≡ slots_of ending.now.checked.now }
    requires active { AllByRecursion (IsActiveOf ending.now.checked.now) active.now }
    requires right { AllByRecursion (IsResultRight ending.now.finished.now.entries ending.now.tenant ending.now.checked.now) active.now }
    requires done { is_task_open (is_done ending.now.finished.now.entries ending.now.tenant ending.now.checked.now) active.now task ≡ false }
    ensures ended { valuation_of ending.now.checked.now values.new
        ≡ all_ended ending.now.checked.now (map (active_of ending.now.checked.now) (entries_at task active.now)) (valuation_of ending.now.checked.now values.old) }
    ensures noted { trace.new ≡ ends_noted ending.now.checked.now ending.now.tick (map (active_of ending.now.checked.now) (entries_at task active.now)) trace.old }
{
    for a in active {
        if a.task == task {
            end(ending, a, values, trace);
        }
    }
}

// Ends a task: its outputs and its states get the values of its computation.
fn end(ending: &Ending, active: &Active, values: &mut [i64], trace: &mut Trace)
    requires values { length values.old ≡ slots_of ending.now.checked.now }
    requires active { IsActiveOf ending.now.checked.now active.now }
    requires right { IsResultRight ending.now.finished.now.entries ending.now.tenant ending.now.checked.now active.now }
    requires done { is_done ending.now.finished.now.entries ending.now.tenant ending.now.checked.now active.now ≡ true }
    ensures ended { valuation_of ending.now.checked.now values.new
        ≡ all_ended ending.now.checked.now (active_of ending.now.checked.now active.now ∷ []) (valuation_of ending.now.checked.now values.old) }
    ensures noted { trace.new ≡ ends_noted ending.now.checked.now ending.now.tick (active_of ending.now.checked.now active.now ∷ []) trace.old }
{
    ending.checked.known();
    let Some(result) = result_of(ending.checked, ending.tenant, ending.finished, active) else {
        unreachable!()
    };
    write_results(
        ending.checked,
        active.task,
        &result.outputs,
        &result.states,
        ending.tick,
        values,
        trace,
    );
}

// Ends the due tasks. The others keep their order, and move up over those that ended before them.
fn drop_due(invocations: &[SlotInvocation], time: u64, active: &mut ActiveTasks)
    requires positive { AllByRecursion (λ i. 0 < i.interval) invocations.now }
    ensures items { active.new.items ≡ filter (λ a. not (is_among_due time a.task invocations.now)) active.old.items }
    ensures ended { (test : Active → Bool) → list_any test active.new.ended ≡ list_any test (filter (λ a. is_among_due time a.task invocations.now) active.old.items) }
    ensures room { active.old.room ≤ active.new.room }
{
    let mut marks = [false; TABLED_TASKS];
    let is_marked = mark_many(invocations, time, active.count, &mut marks);
    let mut kept = 0;
    for i in 0..active.count {
        let task = active.entries[i].task;
        if !is_ending(invocations, time, is_marked, &marks, task) {
            if kept < i {
                active.entries.swap(kept, i);
            }
            kept += 1;
        }
    }
    active.ended = active.count - kept;
    active.count = kept;
}

// Marks the tasks that are due, if many tasks are active. Returns whether it did.
#[inline(always)]
fn mark_many(
    invocations: &[SlotInvocation],
    time: u64,
    count: usize,
    marks: &mut [bool; TABLED_TASKS],
) -> bool
    requires { AllByRecursion (λ i. 0 < i.interval) invocations.now }
    ensures { result ≡ true → MarksDue invocations.now time marks.new }
{
    if count < FEW {
        return false;
    }
    mark_due(invocations, time, marks);
    true
}

// Whether the task at this place is due. Uses the marks if there are any.
#[inline(always)]
fn is_ending(
    invocations: &[SlotInvocation],
    time: u64,
    is_marked: bool,
    marks: &[bool; TABLED_TASKS],
    task: usize,
) -> bool
    requires positive { AllByRecursion (λ i. 0 < i.interval) invocations.now }
    requires marks { is_marked ≡ true → MarksDue invocations.now time marks.now }
    ensures { result ≡ is_among_due time task invocations.now }
{
    if is_marked {
        is_task_due(invocations, time, marks, task)
    } else {
        ends_at(invocations, time, task)
    }
}
