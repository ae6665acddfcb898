//! What a well-formed program has, in a few lines.

ghost use Rattle.std.specs.Prelude.{◌≡◌, ◌++◌, ◌-◌, ◌^◌, map, min, IfOk, OnOk, string_bytes};
ghost use Rattle.std.specs.List.{flat_map};
ghost use Rattle.giotto_breaks.specs.rules.Costs.{greatest_cost_of};
ghost use Rattle.giotto_breaks.specs.text.ProgramTrees.{sensor_of, actuator_of, output_of, task_of, mode_of};
ghost use Rattle.giotto_reports.specs.Parts.{first_of_cost, parts_of};
ghost use Rattle.giotto_reports.specs.Summaries.{ended, line_of_actuator, line_of_dearest, line_of_mode, line_of_output, line_of_sensor, line_of_task, summary_of};

use crate::parts::{Part, part_of_cost};
use giotto_check::Checked;
use giotto_text::programs::{Actuator, Mode, Output, Program, Sensor, Source, Task};
use std::alloc::{AllocError, Global};

/// The summary of a program. It has a line for each sensor, actuator, output, task and mode. The last two lines say how many
/// ports there are in all, and which part costs most. Each line ends with an LF.
///
/// # Errors
/// Out of memory.
pub fn summary_of(alloc: Global, checked: &Checked) -> Result<String, AllocError>
    ensures { IfOk result (λ text. string_bytes text ≡ summary_of checked.now) }
{
    let program = checked.program();
    let mut text = String::new(alloc);
    add_sensors(alloc, &mut text, program.sensors())?;
    add_actuators(alloc, &mut text, program.actuators())?;
    add_outputs(alloc, &mut text, program.outputs())?;
    add_tasks(alloc, &mut text, program.tasks())?;
    add_modes(alloc, &mut text, program.modes())?;
    let (ports, cost) = (checked.slots(), checked.greatest_cost());
    add(&mut text, format!(in alloc; "ports: {ports}")?)?;
    add(&mut text, dearest_line(alloc, program, cost)?)?;
    Ok(text)
}

// Adds a line, with its end.
fn add(text: &mut String, line: String) -> Result<(), AllocError>
    ensures { OnOk result (string_bytes text.new ≡ string_bytes text.old ++ ended (string_bytes line)) }
{
    text.push_str(line.as_str())?;
    text.push_str("\n")
}

fn add_sensors(alloc: Global, text: &mut String, sensors: &[Sensor]) -> Result<(), AllocError>
    ensures { OnOk result (string_bytes text.new ≡ string_bytes text.old ++ flat_map (λ x. ended (line_of_sensor x)) (map sensor_of sensors.now)) }
{
    for sensor in sensors {
        add(text, sensor_line(alloc, sensor)?)?;
    }
    Ok(())
}

fn add_actuators(alloc: Global, text: &mut String, actuators: &[Actuator]) -> Result<(), AllocError>
    ensures { OnOk result (string_bytes text.new ≡ string_bytes text.old ++ flat_map (λ x. ended (line_of_actuator x)) (map actuator_of actuators.now)) }
{
    for actuator in actuators {
        add(text, actuator_line(alloc, actuator)?)?;
    }
    Ok(())
}

fn add_outputs(alloc: Global, text: &mut String, outputs: &[Output]) -> Result<(), AllocError>
    ensures { OnOk result (string_bytes text.new ≡ string_bytes text.old ++ flat_map (λ x. ended (line_of_output x)) (map output_of outputs.now)) }
{
    for output in outputs {
        add(text, output_line(alloc, output)?)?;
    }
    Ok(())
}

fn add_tasks(alloc: Global, text: &mut String, tasks: &[Task]) -> Result<(), AllocError>
    ensures { OnOk result (string_bytes text.new ≡ string_bytes text.old ++ flat_map (λ x. ended (line_of_task x)) (map task_of tasks.now)) }
{
    for task in tasks {
        add(text, task_line(alloc, task)?)?;
    }
    Ok(())
}

fn add_modes(alloc: Global, text: &mut String, modes: &[Mode]) -> Result<(), AllocError>
    ensures { OnOk result (string_bytes text.new ≡ string_bytes text.old ++ flat_map (λ x. ended (line_of_mode x)) (map mode_of modes.now)) }
{
    for mode in modes {
        add(text, mode_line(alloc, mode)?)?;
    }
    Ok(())
}

fn sensor_line(alloc: Global, sensor: &Sensor) -> Result<String, AllocError>
    ensures { IfOk result (λ line. string_bytes line ≡ line_of_sensor (sensor_of sensor.now)) }
{
    let name = sensor.name.as_str();
    match sensor.source {
        Source::Line(line) => format!(in alloc; "sensor {name}: reads line {line}"),
        Source::Grant => format!(in alloc; "sensor {name}: takes what is granted to it"),
    }
}

fn actuator_line(alloc: Global, actuator: &Actuator) -> Result<String, AllocError>
    ensures { IfOk result (λ line. string_bytes line ≡ line_of_actuator (actuator_of actuator.now)) }
{
    let name = actuator.name.as_str();
    match actuator.line {
        Some(line) => format!(in alloc; "actuator {name}: drives line {line}"),
        None => format!(in alloc; "actuator {name}: drives no line"),
    }
}

fn output_line(alloc: Global, output: &Output) -> Result<String, AllocError>
    ensures { IfOk result (λ line. string_bytes line ≡ line_of_output (output_of output.now)) }
{
    format!(in alloc; "output {}", output.name.as_str())
}

fn task_line(alloc: Global, task: &Task) -> Result<String, AllocError>
    ensures { IfOk result (λ line. string_bytes line ≡ line_of_task (task_of task.now)) }
{
    let name = task.name.as_str();
    let cost = Part::Body(task).cost();
    format!(in alloc; "task {name}: costs {cost}")
}

fn mode_line(alloc: Global, mode: &Mode) -> Result<String, AllocError>
    ensures { IfOk result (λ line. string_bytes line ≡ line_of_mode (mode_of mode.now)) }
{
    let (name, period) = (mode.name.as_str(), mode.period);
    let updates = mode.updates.as_slice().len();
    let switches = mode.switches.as_slice().len();
    let invocations = mode.invocations.as_slice().len();
    format!(in alloc;
        "mode {name}: period {period}, updates {updates}, switches {switches}, invocations {invocations}"
    )
}

fn dearest_line(alloc: Global, program: &Program, cost: u64) -> Result<String, AllocError>
    ensures { IfOk result (λ line. string_bytes line ≡ line_of_dearest cost (first_of_cost cost (parts_of program.now))) }
{
    match part_of_cost(program, cost) {
        Some(part) => format!(in alloc; "greatest cost: {cost}, of {part}"),
        None => format!(in alloc; "greatest cost: {cost}"),
    }
}
