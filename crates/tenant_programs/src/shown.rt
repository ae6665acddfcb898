//! What a program shows: the values of its ports, by their names in replies.

ghost use Rattle.std.specs.Prelude.{◌≡◌, ◌++◌, length, map, IfOk, OnOk};
ghost use Rattle.std.specs.List.{zip};
ghost use Rattle.rig_model.specs.rules.Ports.{ports_of};
ghost use Rattle.giotto_check.specs.Slots.{valuation_of};
ghost use Rattle.giotto_check.specs.cited.Slots.{slots_of};
ghost use Rattle.rig_model.specs.Commands.{port_with_value};
ghost use Rattle.tenant_programs.specs.inner.ShownPorts.{name_of_port, name_of_own_port, name_of_shared_port, with_its_value};

use giotto_check::Checked;
use giotto_tasks::bodies::Body;
use giotto_tasks::names::Name;
use rig_model::lines::ports::{PortName, PortValue};
use rig_model::text::programs::Program;
use std::alloc::{AllocError, Global};

/// Each port of a program with its value. The values are those of all ports by their slots: sensors, actuators, outputs, then for each
/// task its inputs and its states, each in text order.
///
/// # Errors
/// Out of memory.
pub fn port_values(
    alloc: Global,
    checked: &Checked,
    values: &[i64],
) -> Result<Vec<PortValue>, AllocError>
    requires { length values.now ≡ slots_of checked.now }
    ensures { IfOk result (λ all. all.items ≡ map (port_with_value (valuation_of checked.now values.now)) (ports_of checked.now)) }
{
    let names = port_names(alloc, checked.program())?;
    ports_with_values(alloc, names.as_slice(), values)
}

// Each of these ports with the value at its place.
fn ports_with_values(
    alloc: Global,
    names: &[PortName],
    values: &[i64],
) -> Result<Vec<PortValue>, AllocError>
    ensures { IfOk result (λ all. all.items ≡ map with_its_value (zip names.now values.now)) }
{
    let mut all = Vec::new(alloc);
    for (name, value) in names.iter().zip(values) {
        all.push(PortValue {
            port: name.copy(),
            value: *value,
        })?;
    }
    Ok(all)
}

// The names of all ports: sensors, actuators, outputs, then for each task its inputs and its states, each in text order.
fn port_names(alloc: Global, program: &Program) -> Result<Vec<PortName>, AllocError>
    ensures { IfOk result (λ names. names.items ≡ map name_of_port (ports_of program.now)) }
{
    let mut names = Vec::new(alloc);
    for sensor in program.sensors() {
        names.push(shared_port(&sensor.name))?;
    }
    for actuator in program.actuators() {
        names.push(shared_port(&actuator.name))?;
    }
    for output in program.outputs() {
        names.push(shared_port(&output.name))?;
    }
    for task in program.tasks() {
        let body: &Body = &task.body;
        add_own_ports(&mut names, &task.name, body.inputs.as_slice())?;
        add_own_ports(&mut names, &task.name, body.states.as_slice())?;
    }
    Ok(names)
}

// The name of a sensor, an actuator or an output.
fn shared_port(name: &Name) -> PortName
    ensures { result ≡ name_of_shared_port name.now }
{
    PortName {
        task: None,
        name: name.copy(),
    }
}

// Adds the names of these inputs or states of a task.
fn add_own_ports(names: &mut Vec<PortName>, task: &Name, own: &[Name]) -> Result<(), AllocError>
    ensures { OnOk result (names.new.items ≡ names.old.items ++ map (name_of_own_port task.now) own.now) }
{
    for name in own {
        names.push(PortName {
            task: Some(task.copy()),
            name: name.copy(),
        })?;
    }
    Ok(())
}
