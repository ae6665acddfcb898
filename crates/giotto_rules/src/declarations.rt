//! What a program declares, as lists of names.

ghost use Rattle.std.specs.Prelude.{◌≡◌, ◌++◌, IfOk, OnOk};
ghost use Rattle.giotto_text.specs.ProgramTrees.{mode_of, switch_of};
ghost use Rattle.giotto_rules.specs.Declarations as declared;

use crate::indexed::Indexed;
use crate::names::push_names;
use giotto_tasks::bodies::Body;
use giotto_tasks::names::Name;
use giotto_text::programs::{Mode, Program, Switch};
use std::alloc::{AllocError, Global};

pub(crate) fn sensor_names(alloc: Global, program: &Program) -> Result<Vec<Name>, AllocError>
    ensures { IfOk result (λ names. names.items ≡ declared.sensor_names program.now) }
{
    let mut names = Vec::new(alloc);
    for sensor in program.sensors() {
        names.push(sensor.name.copy())?;
    }
    Ok(names)
}

pub(crate) fn actuator_names(alloc: Global, program: &Program) -> Result<Vec<Name>, AllocError>
    ensures { IfOk result (λ names. names.items ≡ declared.actuator_names program.now) }
{
    let mut names = Vec::new(alloc);
    add_actuator_names(&mut names, program)?;
    Ok(names)
}

// Appends the names of the actuators.
fn add_actuator_names(names: &mut Vec<Name>, program: &Program) -> Result<(), AllocError>
    ensures { OnOk result (names.new.items ≡ names.old.items ++ declared.actuator_names program.now) }
{
    for actuator in program.actuators() {
        names.push(actuator.name.copy())?;
    }
    Ok(())
}

pub(crate) fn output_names(alloc: Global, program: &Program) -> Result<Vec<Name>, AllocError>
    ensures { IfOk result (λ names. names.items ≡ declared.output_names program.now) }
{
    let mut names = Vec::new(alloc);
    add_output_names(&mut names, program)?;
    Ok(names)
}

// Appends the names of the outputs.
fn add_output_names(names: &mut Vec<Name>, program: &Program) -> Result<(), AllocError>
    ensures { OnOk result (names.new.items ≡ names.old.items ++ declared.output_names program.now) }
{
    for output in program.outputs() {
        names.push(output.name.copy())?;
    }
    Ok(())
}

pub(crate) fn task_names(alloc: Global, program: &Program) -> Result<Vec<Name>, AllocError>
    ensures { IfOk result (λ names. names.items ≡ declared.task_names program.now) }
{
    let mut names = Vec::new(alloc);
    add_task_names(&mut names, program)?;
    Ok(names)
}

// Appends the names of the tasks.
fn add_task_names(names: &mut Vec<Name>, program: &Program) -> Result<(), AllocError>
    ensures { OnOk result (names.new.items ≡ names.old.items ++ declared.task_names program.now) }
{
    for task in program.tasks() {
        names.push(task.name.copy())?;
    }
    Ok(())
}

pub(crate) fn mode_names(alloc: Global, program: &Program) -> Result<Vec<Name>, AllocError>
    ensures { IfOk result (λ names. names.items ≡ declared.mode_names program.now) }
{
    let mut names = Vec::new(alloc);
    add_mode_names(&mut names, program)?;
    Ok(names)
}

// Appends the names of the modes.
fn add_mode_names(names: &mut Vec<Name>, program: &Program) -> Result<(), AllocError>
    ensures { OnOk result (names.new.items ≡ names.old.items ++ declared.mode_names program.now) }
{
    for mode in program.modes() {
        names.push(mode.name.copy())?;
    }
    Ok(())
}

/// The names of sensors, actuators and outputs, in text order: the only names that drivers may read.
///
/// # Errors
/// Out of memory.
pub fn driver_ports(alloc: Global, program: &Program) -> Result<Vec<Name>, AllocError>
    ensures { IfOk result (λ names. names.items ≡ declared.driver_ports program.now) }
{
    let mut names = sensor_names(alloc, program)?;
    add_actuator_names(&mut names, program)?;
    add_output_names(&mut names, program)?;
    Ok(names)
}

/// All names that the program declares at its top level.
pub(crate) fn declared_names(alloc: Global, program: &Program) -> Result<Vec<Name>, AllocError>
    ensures { IfOk result (λ names. names.items ≡ declared.declared_names program.now) }
{
    let mut names = driver_ports(alloc, program)?;
    add_task_names(&mut names, program)?;
    add_mode_names(&mut names, program)?;
    Ok(names)
}

/// The lines that actuators drive.
pub(crate) fn lines_written(alloc: Global, program: &Program) -> Result<Vec<u64>, AllocError>
    ensures { IfOk result (λ lines. lines.items ≡ declared.lines_written program.now) }
{
    let mut lines = Vec::new(alloc);
    for actuator in program.actuators() {
        if let Some(line) = actuator.line {
            lines.push(line)?;
        }
    }
    Ok(lines)
}

/// The outputs of the tasks that a mode invokes.
pub(crate) fn mode_ports(
    alloc: Global,
    program: &Indexed,
    mode: &Mode,
) -> Result<Vec<Name>, AllocError>
    ensures { IfOk result
        (λ names. names.items ≡ declared.mode_ports program.now (mode_of mode.now)) }
{
    let mut names = Vec::new(alloc);
    for invocation in mode.invocations.as_slice() {
        push_outputs(&mut names, program, &invocation.task)?;
    }
    Ok(names)
}

// Appends the outputs of a task.
fn push_outputs(names: &mut Vec<Name>, program: &Indexed, task: &Name) -> Result<(), AllocError>
    ensures { OnOk result
        (names.new.items ≡ names.old.items ++ declared.outputs_of_task program.now task.now) }
{
    if let Some(task) = program.task(task) {
        let body: &Body = &task.body;
        push_names(names, body.outputs.as_slice())?;
    }
    Ok(())
}

/// The tasks that a mode invokes.
pub(crate) fn invoked_tasks(alloc: Global, mode: &Mode) -> Result<Vec<Name>, AllocError>
    ensures { IfOk result (λ names. names.items ≡ declared.invoked_tasks (mode_of mode.now)) }
{
    let mut names = Vec::new(alloc);
    for invocation in mode.invocations.as_slice() {
        names.push(invocation.task.copy())?;
    }
    Ok(names)
}

/// The actuators that a mode updates.
pub(crate) fn updated_actuators(alloc: Global, mode: &Mode) -> Result<Vec<Name>, AllocError>
    ensures { IfOk result (λ names. names.items ≡ declared.updated_actuators (mode_of mode.now)) }
{
    let mut names = Vec::new(alloc);
    for update in mode.updates.as_slice() {
        names.push(update.actuator.copy())?;
    }
    Ok(names)
}

/// The outputs to which a switch gives values.
pub(crate) fn destinations(alloc: Global, switch: &Switch) -> Result<Vec<Name>, AllocError>
    ensures { IfOk result (λ names. names.items ≡ declared.destinations_of (switch_of switch.now)) }
{
    let mut names = Vec::new(alloc);
    for destination in switch.destinations.as_slice() {
        names.push(destination.output.copy())?;
    }
    Ok(names)
}
