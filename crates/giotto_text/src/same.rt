//! Comparison of programs, as the trees that they are.

ghost use Rattle.std.specs.Arc.{arc_value};
ghost use Rattle.std.specs.Prelude.{◌≡◌, ◌↔◌, length, map, IsTrue};
ghost use Rattle.giotto_tasks.specs.Trees.{expression_of};
ghost use Rattle.giotto_text.specs.ProgramTrees.{sensor_of, actuator_of, output_of, source_of, guard_of, task_of, update_of, destination_of, switch_of, invocation_of, mode_of, with_body};

use crate::programs::{
    Actuator, Destination, Invocation, Mode, Output, Parts, Program, Sensor, Source, Switch, Task,
    Update,
};
use giotto_tasks::bodies::{Body, Expr};
use giotto_tasks::same::{Same, all_same};

impl Same for Program {
    fn is_same(&self, other: &Program) -> bool {
        self.parts().is_same(other.parts())
    }
}

impl Same for Parts {
    fn is_same(&self, other: &Parts) -> bool {
        same_sensors(self.sensors.as_slice(), other.sensors.as_slice())
            && same_actuators(self.actuators.as_slice(), other.actuators.as_slice())
            && same_outputs(self.outputs.as_slice(), other.outputs.as_slice())
            && same_tasks(self.tasks.as_slice(), other.tasks.as_slice())
            && same_modes(self.modes.as_slice(), other.modes.as_slice())
            && self.start == other.start
    }
}

fn same_sensors(ones: &[Sensor], others: &[Sensor]) -> bool
    ensures { IsTrue result ↔ (map sensor_of ones.now ≡ map sensor_of others.now) }
{
    if ones.len() != others.len() {
        return false;
    }
    for i in 0..ones.len() {
        if !same_sensor(&ones[i], &others[i]) {
            return false;
        }
    }
    true
}

fn same_sensor(one: &Sensor, other: &Sensor) -> bool
    ensures { IsTrue result ↔ (sensor_of one.now ≡ sensor_of other.now) }
{
    one.name == other.name
        && one.initial == other.initial
        && same_source(&one.source, &other.source)
}

fn same_source(one: &Source, other: &Source) -> bool
    ensures { IsTrue result ↔ (source_of one.now ≡ source_of other.now) }
{
    match (one, other) {
        (Source::Line(one), Source::Line(other)) => one == other,
        (Source::Grant, Source::Grant) => true,
        _ => false,
    }
}

fn same_actuators(ones: &[Actuator], others: &[Actuator]) -> bool
    ensures { IsTrue result ↔ (map actuator_of ones.now ≡ map actuator_of others.now) }
{
    if ones.len() != others.len() {
        return false;
    }
    for i in 0..ones.len() {
        if !same_actuator(&ones[i], &others[i]) {
            return false;
        }
    }
    true
}

fn same_actuator(one: &Actuator, other: &Actuator) -> bool
    ensures { IsTrue result ↔ (actuator_of one.now ≡ actuator_of other.now) }
{
    one.name == other.name && one.initial == other.initial && one.line == other.line
}

fn same_outputs(ones: &[Output], others: &[Output]) -> bool
    ensures { IsTrue result ↔ (map output_of ones.now ≡ map output_of others.now) }
{
    if ones.len() != others.len() {
        return false;
    }
    for i in 0..ones.len() {
        if !same_output(&ones[i], &others[i]) {
            return false;
        }
    }
    true
}

fn same_output(one: &Output, other: &Output) -> bool
    ensures { IsTrue result ↔ (output_of one.now ≡ output_of other.now) }
{
    one.name == other.name && one.initial == other.initial
}

fn same_tasks(ones: &[Task], others: &[Task]) -> bool
    ensures { IsTrue result ↔ (map task_of ones.now ≡ map task_of others.now) }
{
    if ones.len() != others.len() {
        return false;
    }
    for i in 0..ones.len() {
        if !same_task(&ones[i], &others[i]) {
            return false;
        }
    }
    true
}

fn same_task(one: &Task, other: &Task) -> bool
    ensures { IsTrue result ↔ (task_of one.now ≡ task_of other.now) }
{
    same_parts(one, other)
}

fn same_parts(one: &Task, other: &Task) -> bool
    ensures { IsTrue result ↔ ((one.now.name ≡ other.now.name) × ((one.now.states ≡ other.now.states) × (arc_value one.now.body ≡ arc_value other.now.body))) }
{
    one.name == other.name
        && all_same(one.states.as_slice(), other.states.as_slice())
        && one.body.is_same(&other.body)
}

fn same_modes(ones: &[Mode], others: &[Mode]) -> bool
    ensures { IsTrue result ↔ (map mode_of ones.now ≡ map mode_of others.now) }
{
    if ones.len() != others.len() {
        return false;
    }
    for i in 0..ones.len() {
        if !same_mode(&ones[i], &others[i]) {
            return false;
        }
    }
    true
}

fn same_mode(one: &Mode, other: &Mode) -> bool
    ensures { IsTrue result ↔ (mode_of one.now ≡ mode_of other.now) }
{
    one.name == other.name
        && one.period == other.period
        && same_updates(one.updates.as_slice(), other.updates.as_slice())
        && same_switches(one.switches.as_slice(), other.switches.as_slice())
        && same_invocations(one.invocations.as_slice(), other.invocations.as_slice())
}

fn same_updates(ones: &[Update], others: &[Update]) -> bool
    ensures { IsTrue result ↔ (map update_of ones.now ≡ map update_of others.now) }
{
    if ones.len() != others.len() {
        return false;
    }
    for i in 0..ones.len() {
        if !same_update(&ones[i], &others[i]) {
            return false;
        }
    }
    true
}

fn same_update(one: &Update, other: &Update) -> bool
    ensures { IsTrue result ↔ (update_of one.now ≡ update_of other.now) }
{
    one.frequency == other.frequency
        && same_guard(&one.guard, &other.guard)
        && one.actuator == other.actuator
        && one.value.is_same(&other.value)
}

fn same_guard(one: &Option<Expr>, other: &Option<Expr>) -> bool
    ensures { IsTrue result ↔ (guard_of one.now ≡ guard_of other.now) }
{
    match (one, other) {
        (Some(one), Some(other)) => one.is_same(other),
        (None, None) => true,
        _ => false,
    }
}

fn same_switches(ones: &[Switch], others: &[Switch]) -> bool
    ensures { IsTrue result ↔ (map switch_of ones.now ≡ map switch_of others.now) }
{
    if ones.len() != others.len() {
        return false;
    }
    for i in 0..ones.len() {
        if !same_switch(&ones[i], &others[i]) {
            return false;
        }
    }
    true
}

fn same_switch(one: &Switch, other: &Switch) -> bool
    ensures { IsTrue result ↔ (switch_of one.now ≡ switch_of other.now) }
{
    one.frequency == other.frequency
        && same_guard(&one.guard, &other.guard)
        && one.target == other.target
        && same_destinations(one.destinations.as_slice(), other.destinations.as_slice())
}

fn same_destinations(ones: &[Destination], others: &[Destination]) -> bool
    ensures { IsTrue result ↔ (map destination_of ones.now ≡ map destination_of others.now) }
{
    if ones.len() != others.len() {
        return false;
    }
    for i in 0..ones.len() {
        if !same_destination(&ones[i], &others[i]) {
            return false;
        }
    }
    true
}

fn same_destination(one: &Destination, other: &Destination) -> bool
    ensures { IsTrue result ↔ (destination_of one.now ≡ destination_of other.now) }
{
    one.output == other.output && one.value.is_same(&other.value)
}

fn same_invocations(ones: &[Invocation], others: &[Invocation]) -> bool
    ensures { IsTrue result ↔ (map invocation_of ones.now ≡ map invocation_of others.now) }
{
    if ones.len() != others.len() {
        return false;
    }
    for i in 0..ones.len() {
        if !same_invocation(&ones[i], &others[i]) {
            return false;
        }
    }
    true
}

fn same_invocation(one: &Invocation, other: &Invocation) -> bool
    ensures { IsTrue result ↔ (invocation_of one.now ≡ invocation_of other.now) }
{
    one.frequency == other.frequency
        && same_guard(&one.guard, &other.guard)
        && one.task == other.task
        && same_arguments(one.arguments.as_slice(), other.arguments.as_slice())
}

fn same_arguments(ones: &[Expr], others: &[Expr]) -> bool
    ensures { IsTrue result ↔ (map expression_of ones.now ≡ map expression_of others.now) }
{
    if ones.len() != others.len() {
        return false;
    }
    for i in 0..ones.len() {
        if !ones[i].is_same(&others[i]) {
            return false;
        }
    }
    true
}
