//! The greatest cost of a program.

ghost use Rattle.std.specs.Prelude.{◌≡◌, ◌-◌, ◌^◌, min};
ghost use Rattle.giotto_rules.specs.text.ProgramTrees.{mode_of, update_of, switch_of, invocation_of, guard_of};
ghost use Rattle.giotto_rules.specs.Costs as costs;

use giotto_rules::text::programs::{Invocation, Mode, Program, Switch, Update};
use giotto_tasks::bodies::{Body, Expr};
use giotto_tasks::{cost, driver_cost};

/// The greatest cost over the bodies and drivers of a program, in steps, or `u64::MAX` if it is greater.
pub(crate) fn greatest_cost(program: &Program) -> u64
    ensures { result ≡ min (costs.greatest_cost_of program.now) (2 ^ 64 - 1) }
{
    let mut greatest = 0u64;
    for task in program.tasks() {
        let body: &Body = &task.body;
        greatest = greatest.max(cost(body));
    }
    for mode in program.modes() {
        greatest = greatest.max(mode_cost(mode));
    }
    greatest
}

fn mode_cost(mode: &Mode) -> u64
    ensures { result ≡ min (costs.mode_cost (mode_of mode.now)) (2 ^ 64 - 1) }
{
    let mut greatest = 0u64;
    for update in mode.updates.as_slice() {
        greatest = greatest.max(update_cost(update));
    }
    for switch in mode.switches.as_slice() {
        greatest = greatest.max(switch_cost(switch));
    }
    for invocation in mode.invocations.as_slice() {
        greatest = greatest.max(invocation_cost(invocation));
    }
    greatest
}

fn update_cost(update: &Update) -> u64
    ensures { result ≡ min (costs.update_cost (update_of update.now)) (2 ^ 64 - 1) }
{
    guard_cost(&update.guard).saturating_add(driver_cost(&update.value))
}

fn switch_cost(switch: &Switch) -> u64
    ensures { result ≡ min (costs.switch_cost (switch_of switch.now)) (2 ^ 64 - 1) }
{
    let mut total = guard_cost(&switch.guard);
    for destination in switch.destinations.as_slice() {
        total = total.saturating_add(driver_cost(&destination.value));
    }
    total
}

fn invocation_cost(invocation: &Invocation) -> u64
    ensures { result ≡ min (costs.invocation_cost (invocation_of invocation.now)) (2 ^ 64 - 1) }
{
    let mut total = guard_cost(&invocation.guard);
    for argument in invocation.arguments.as_slice() {
        total = total.saturating_add(driver_cost(argument));
    }
    total
}

// An absent guard costs nothing.
fn guard_cost(guard: &Option<Expr>) -> u64
    ensures { result ≡ min (costs.guard_cost (guard_of guard.now)) (2 ^ 64 - 1) }
{
    match guard {
        Some(e) => driver_cost(e),
        None => 0,
    }
}
