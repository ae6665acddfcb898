//! The parts of a program that take steps, and what each costs.

ghost use Rattle.std.specs.Prelude.{◌≡◌, ◌-◌, ◌^◌, min, option_map};
ghost use Rattle.std.specs.Fmt.{WritesOnOk};
ghost use Rattle.giotto_breaks.specs.text.ProgramTrees.{task_of, mode_of, update_of, switch_of, invocation_of, guard_of};
ghost use Rattle.giotto_tasks.specs.Cost.{cost_of};
ghost use Rattle.giotto_breaks.specs.rules.Costs as costs;
ghost use Rattle.giotto_reports.specs.Parts.{drivers_of, first_of_cost, part_of, parts_of, steps_of_part, text_of_part};

use giotto_tasks::bodies::{Body, Expr};
use giotto_tasks::{cost, driver_cost};
use giotto_text::programs::{Invocation, Mode, Program, Switch, Task, Update};
use std::fmt;

/// A part of a program that takes steps: the body of a task, or a driver of a mode.
#[derive(Clone, Copy)]
pub enum Part<'a> {
    Body(&'a Task),
    Update(&'a Mode, &'a Update),
    Switch(&'a Mode, &'a Switch),
    Invocation(&'a Mode, &'a Invocation),
}

impl Part<'_> {
    /// The cost of the part in steps, or `u64::MAX` if it costs more.
    pub fn cost(&self) -> u64
        ensures { result ≡ steps_of_part (part_of self.now) }
    {
        match self {
            Part::Body(task) => body_cost(task),
            Part::Update(_, update) => update_cost(update),
            Part::Switch(_, switch) => switch_cost(switch),
            Part::Invocation(_, invocation) => invocation_cost(invocation),
        }
    }
}

impl fmt::Display for Part<'_> {
    ghost use Rattle.std.specs.Prelude.{Some};
    ghost use Rattle.giotto_reports.specs.Parts.{part_of, text_of_part};

    ghost output = { λ part. Some (text_of_part (part_of part)) };

    fn fmt<W: fmt::Write>(&self, f: &mut fmt::Formatter<W>) -> fmt::Result {
        write_part(f, self)
    }
}

// Writes the name of a part.
fn write_part<W: fmt::Write>(f: &mut fmt::Formatter<W>, part: &Part) -> fmt::Result
    ensures { WritesOnOk W.write_str_gives f.old result (text_of_part (part_of part.now)) f.new }
{
    match part {
        Part::Body(task) => {
            let task = task.name.as_str();
            write!(f, "the body of `{task}`")
        }
        Part::Update(mode, update) => {
            let (mode, actuator) = (mode.name.as_str(), update.actuator.as_str());
            write!(f, "the update of `{actuator}` in mode `{mode}`")
        }
        Part::Switch(mode, switch) => {
            let (mode, target) = (mode.name.as_str(), switch.target.as_str());
            write!(f, "the switch from mode `{mode}` to `{target}`")
        }
        Part::Invocation(mode, invocation) => {
            let (mode, task) = (mode.name.as_str(), invocation.task.as_str());
            write!(f, "the invocation of `{task}` in mode `{mode}`")
        }
    }
}

/// The first part of a program with this cost. The tasks come first, and then the updates, switches and invocations of each mode.
pub fn part_of_cost<'a>(program: &'a Program, cost: u64) -> Option<Part<'a>>
    ensures { option_map part_of result ≡ first_of_cost cost (parts_of program.now) }
{
    for task in program.tasks() {
        let part = Part::Body(task);
        if part.cost() == cost {
            return Some(part);
        }
    }
    for mode in program.modes() {
        if let Some(part) = driver_of_cost(mode, cost) {
            return Some(part);
        }
    }
    None
}

// The first driver of the mode with this cost.
fn driver_of_cost<'a>(mode: &'a Mode, cost: u64) -> Option<Part<'a>>
    ensures { option_map part_of result ≡ first_of_cost cost (drivers_of (mode_of mode.now)) }
{
    for update in mode.updates.as_slice() {
        let part = Part::Update(mode, update);
        if part.cost() == cost {
            return Some(part);
        }
    }
    for switch in mode.switches.as_slice() {
        let part = Part::Switch(mode, switch);
        if part.cost() == cost {
            return Some(part);
        }
    }
    for invocation in mode.invocations.as_slice() {
        let part = Part::Invocation(mode, invocation);
        if part.cost() == cost {
            return Some(part);
        }
    }
    None
}

fn body_cost(task: &Task) -> u64
    ensures { result ≡ min (cost_of (task_of task.now).block) (2 ^ 64 - 1) }
{
    let body: &Body = &task.body;
    cost(body)
}

fn update_cost(update: &Update) -> u64
    ensures { result ≡ min (costs.update_cost (update_of update.now)) (2 ^ 64 - 1) }
{
    guard_cost(&update.guard).saturating_add(driver_cost(&update.value))
}

fn switch_cost(switch: &Switch) -> u64
    ensures { result ≡ min (costs.switch_cost (switch_of switch.now)) (2 ^ 64 - 1) }
{
    let mut total = guard_cost(&switch.guard);
    for destination in switch.destinations.as_slice() {
        total = total.saturating_add(driver_cost(&destination.value));
    }
    total
}

fn invocation_cost(invocation: &Invocation) -> u64
    ensures { result ≡ min (costs.invocation_cost (invocation_of invocation.now)) (2 ^ 64 - 1) }
{
    let mut total = guard_cost(&invocation.guard);
    for argument in invocation.arguments.as_slice() {
        total = total.saturating_add(driver_cost(argument));
    }
    total
}

// An absent guard costs nothing.
fn guard_cost(guard: &Option<Expr>) -> u64
    ensures { result ≡ min (costs.guard_cost (guard_of guard.now)) (2 ^ 64 - 1) }
{
    match guard {
        Some(e) => driver_cost(e),
        None => 0,
    }
}
