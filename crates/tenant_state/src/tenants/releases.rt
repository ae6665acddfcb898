//! Releases: what an instant makes active.

ghost use Rattle.std.specs.Prelude.{◌≡◌, ◌≤◌, ◌<◌, ◌+◌, ◌++◌, ◌∷◌, [], length, map, filter};
ghost use Rattle.std.specs.List.{AllByRecursion};
ghost use Rattle.tenant_slots.specs.well_formed.cited.Slots.{slots_of};
ghost use Rattle.tenant_slots.specs.well_formed.Slots.{valuation_of};
ghost use Rattle.rig_model.specs.text.Program.{ModeDeclaration, TaskInvocation};
ghost use Rattle.rig_model.specs.Due.{is_due_at};
ghost use Rattle.tenant_slots.specs.cited.Due.{IsQuietUntil};
ghost use Rattle.tenant_state.specs.inner.Releases.{IsEntryOf, AreInputsGiven, ForItsInvocation, released_by};
ghost use Rattle.tenant_state.specs.Tenants.{active_of};
ghost use Rattle.tenant_state.specs.inner.Tenants.{AreInvoked, IsActiveIn};
ghost use Rattle.tenant_slots.specs.cited.Places.{IsModeAt};

use crate::tenants::Active;
use crate::tenants::active_tasks::ActiveTasks;
use giotto_check::Checked;
use giotto_check::timetables::SlotInvocation;
use tenant_slots::drivers::holds;
use tenant_slots::due::Due;
use tenant_slots::tasks::{argument_values, state_values, write_inputs};

// Carries out the invocations of the mode at this place that are due, in text order. If the guard of an invocation holds, its
// task becomes active. No invocation is due before mode time `next`.
pub(crate) fn invoke_due(
    checked: &Checked,
    mode: usize,
    time: u64,
    next: u64,
    release: u64,
    values: &mut [i64],
    active: &mut ActiveTasks,
)
    requires quiet { (m : ModeDeclaration) → IsModeAt checked.now mode m → IsQuietUntil m time next }
    requires values { length values.old ≡ slots_of checked.now }
    requires room { (m : ModeDeclaration) → IsModeAt checked.now mode m
        → length (filter (λ (i : TaskInvocation). is_due_at time m i.frequency) m.invocations) ≤ active.old.room }
    requires each { AllByRecursion (IsActiveIn checked.now (release + 1)) active.old.items }
    requires rest { active.old.ended ≡ [] }
    ensures rest { active.new.ended ≡ [] }
    ensures invoked { (m : ModeDeclaration) → IsModeAt checked.now mode m
        → AreInvoked checked.now m time release (valuation_of checked.now values.old) active.old.items active.new.items values.new }
{
    if time < next {
        return;
    }
    checked.known();
    let mut due = Due::at(time);
    for invocation in checked.invocations(mode) {
        if due.is_due(invocation.interval) && holds(&invocation.guard, values) {
            add_release(checked, invocation, release, values, active);
        }
    }
}

// Makes a task active, in the next spare entry. Its inputs take the values of the arguments.
fn add_release(
    checked: &Checked,
    invocation: &SlotInvocation,
    release: u64,
    values: &mut [i64],
    active: &mut ActiveTasks,
)
    requires values { length values.old ≡ slots_of checked.now }
    requires its { IsEntryOf checked.now invocation.now }
    requires room { 0 < active.old.room }
    requires each { AllByRecursion (IsActiveIn checked.now (release + 1)) active.old.items }
    requires rest { active.old.ended ≡ [] }
    ensures rest { active.new.ended ≡ [] }
    ensures tasks { ForItsInvocation checked.now invocation.now (λ i t. map (active_of checked.now) active.new.items
        ≡ map (active_of checked.now) active.old.items ++ released_by checked.now release values.old i t ∷ []) }
    ensures ports { AreInputsGiven checked.now invocation.now values.old values.new }
    ensures each { AllByRecursion (IsActiveIn checked.now (release + 1)) active.new.items }
    ensures room { active.new.room + 1 ≡ active.old.room }
{
    let place = active.count;
    activate(
        checked,
        invocation,
        release,
        values,
        &mut active.entries[place],
    );
    active.count += 1;
}

// Fills an entry for a task that becomes active. Its inputs take the values of the arguments.
#[tactic(auto, using(std::proofs::lemmas::Option::slice_get_within))]
fn activate(
    checked: &Checked,
    invocation: &SlotInvocation,
    release: u64,
    values: &mut [i64],
    active: &mut Active,
)
    requires values { length values.old ≡ slots_of checked.now }
    requires its { IsEntryOf checked.now invocation.now }
    ensures active { ForItsInvocation checked.now invocation.now (λ i t. active_of checked.now active.new ≡ released_by checked.now release values.old i t) }
    ensures ports { AreInputsGiven checked.now invocation.now values.old values.new }
    ensures fits { IsActiveIn checked.now (release + 1) active.new }
{
    active.task = invocation.task;
    active.release = release;
    argument_values(invocation.arguments.as_slice(), values, &mut active.inputs);
    active.states.set(&[]);
    state_values(checked, invocation.task, values, &mut active.states);
    write_inputs(checked, invocation.task, &active.inputs, values);
}
