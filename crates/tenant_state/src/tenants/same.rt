//! Comparison of tenants.

ghost use Rattle.std.specs.Prelude.{◌≡◌, ◌↔◌, length, map, option_map, IsTrue};
ghost use Rattle.std.specs.List.{AllByRecursion};
ghost use Rattle.tenant_slots.specs.well_formed.Slots.{valuation_of};
ghost use Rattle.tenant_slots.specs.well_formed.cited.Slots.{slots_of};
ghost use Rattle.tenant_state.specs.Tenants.{active_of, reason_of, state_of};
ghost use Rattle.tenant_state.specs.inner.SameTenants.{AreAtSameCourse, HaveSameRights, HaveSameState};
ghost use Rattle.tenant_state.specs.inner.Tenants.{IsActiveOf};

use crate::tenants::waiting::Waiting;
use crate::tenants::{Active, Reason, State, Tenant};
use giotto_check::Checked;
use giotto_tasks::same::{Same, all_same};
use tenant_slots::names::{mode_name, task_name};

impl Tenant {
    /// Whether both tenants have the same place, roster, budgets and row, whatever each has ready for the next instant. Takes no
    /// memory.
    pub fn is_same(&self, other: &Tenant) -> bool
        ensures { IsTrue result ↔ ((self.now.tenancy ≡ other.now.tenancy) × (self.now.row ≡ other.now.row)) }
    {
        if !self.has_same_rights(other) {
            return false;
        }
        if !self.has_same_course(other) {
            return false;
        }
        if !self.has_same_state(other) {
            return false;
        }
        self.trace.has_same_records(&other.trace)
    }

    // Whether both have the same place, roster and budgets, and the same offers and binds.
    #[tactic(auto, using(crate::proofs::SameTenants::rights_same))]
    fn has_same_rights(&self, other: &Tenant) -> bool
        ensures { IsTrue result ↔ HaveSameRights self.now other.now }
    {
        self.budgets.is_same(&other.budgets) && self.grants.is_same(&other.grants)
    }

    // Whether both have the same program, in the same mode, with the same active tasks and the same values of ports.
    fn has_same_course(&self, other: &Tenant) -> bool
        ensures { IsTrue result ↔ AreAtSameCourse self.now.row other.now.row }
    {
        match (&self.program, &other.program) {
            (Some(one), Some(another)) => {
                if !one.is_same(another) {
                    return false;
                }
                mode_name(one, self.mode) == mode_name(another, other.mode)
                    && same_tasks(
                        one,
                        self.active.as_slice(),
                        another,
                        other.active.as_slice(),
                    )
                    && same_values(
                        one,
                        self.values.as_slice(),
                        another,
                        other.values.as_slice(),
                    )
            }
            (None, None) => true,
            _ => false,
        }
    }

    // Whether both do the same, at the same mode time and before the same instant, and the same program waits.
    fn has_same_state(&self, other: &Tenant) -> bool
        ensures { IsTrue result ↔ HaveSameState self.now.row other.now.row }
    {
        same_state(&self.state, &other.state)
            && self.mode_time == other.mode_time
            && self.next_tick == other.next_tick
            && same_waiting(&self.waiting, &other.waiting)
    }
}

fn same_state(one: &State, other: &State) -> bool
    ensures { IsTrue result ↔ (state_of one.now ≡ state_of other.now) }
{
    match (one, other) {
        (State::Empty, State::Empty) => true,
        (State::Loaded, State::Loaded) => true,
        (State::Running, State::Running) => true,
        (State::Stopped(one), State::Stopped(other)) => same_reason(one, other),
        _ => false,
    }
}

fn same_reason(one: &Reason, other: &Reason) -> bool
    ensures { IsTrue result ↔ (reason_of one.now ≡ reason_of other.now) }
{
    match (one, other) {
        (Reason::Asked, Reason::Asked) => true,
        (Reason::Overrun(one), Reason::Overrun(other)) => one == other,
        _ => false,
    }
}

fn same_waiting(one: &Option<Waiting>, other: &Option<Waiting>) -> bool
    ensures { IsTrue result ↔ (option_map (λ w. w.program) one.now ≡ option_map (λ w. w.program) other.now) }
{
    match (one, other) {
        (Some(one), Some(other)) => one.program.is_same(&other.program),
        (None, None) => true,
        _ => false,
    }
}

// Whether these active tasks of two programs have the same names, releases, inputs and states, in the same order.
fn same_tasks(one: &Checked, tasks: &[Active], other: &Checked, others: &[Active]) -> bool
    requires tasks { AllByRecursion (IsActiveOf one.now) tasks.now }
    requires others { AllByRecursion (IsActiveOf other.now) others.now }
    ensures { IsTrue result ↔ (map (active_of one.now) tasks.now ≡ map (active_of other.now) others.now) }
{
    if tasks.len() != others.len() {
        return false;
    }
    for i in 0..tasks.len() {
        if !same_task(one, &tasks[i], other, &others[i]) {
            return false;
        }
    }
    true
}

fn same_task(one: &Checked, task: &Active, other: &Checked, another: &Active) -> bool
    requires task { IsActiveOf one.now task.now }
    requires another { IsActiveOf other.now another.now }
    ensures { IsTrue result ↔ (active_of one.now task.now ≡ active_of other.now another.now) }
{
    task.release == another.release
        && task.inputs.is_same(&another.inputs)
        && task.states.is_same(&another.states)
        && task_name(one, task.task) == task_name(other, another.task)
}

// Whether the ports of a program have the same values.
fn same_values(one: &Checked, values: &[i64], other: &Checked, others: &[i64]) -> bool
    requires same { one.now ≡ other.now }
    requires values { length values.now ≡ slots_of one.now }
    requires others { length others.now ≡ slots_of other.now }
    ensures { IsTrue result ↔ (valuation_of one.now values.now ≡ valuation_of other.now others.now) }
{
    all_same(values, others)
}
