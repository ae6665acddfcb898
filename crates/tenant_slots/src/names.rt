//! The names in commands and replies, by slots and places.

ghost use Rattle.std.specs.Prelude.{◌≡◌, ◌<◌, None, length, slice_get, IsSomeAnd};
ghost use Rattle.std.specs.List.{position_from};
ghost use Rattle.std.specs.Option.{option_map};
ghost use Rattle.giotto_tasks.specs.Names.{same_name};
ghost use Rattle.rig_model.specs.declared.text.programs.Actuator.{Actuator};
ghost use Rattle.rig_model.specs.declared.text.programs.Mode.{Mode};
ghost use Rattle.rig_model.specs.declared.text.programs.Output.{Output};
ghost use Rattle.rig_model.specs.declared.text.programs.Sensor.{Sensor};
ghost use Rattle.giotto_check.specs.cited.Slots.{slots_of};
ghost use Rattle.giotto_check.specs.Slots.{valuation_of};
ghost use Rattle.rig_model.specs.rules.Ports.{slot_of};
ghost use Rattle.tenant_slots.specs.Places.{name_of_mode, name_of_task};
ghost use Rattle.rig_model.specs.Ports.{value_of_port};

use giotto_check::Checked;
use giotto_tasks::names::Name;
use rig_model::text::programs::{Actuator, Mode, Output, Sensor};

/// The value of a port, given the values of all ports by their slots. If a task is named, the port is one of its inputs or
/// states, else a sensor, an actuator or an output. `None` if there is no such port. Goes through the program's names once.
pub fn port_value(
    program: &Checked,
    task: Option<&Name>,
    name: &Name,
    values: &[i64],
) -> Option<i64>
    requires { length values.now ≡ slots_of program.now }
    ensures { result ≡ value_of_port program.now (valuation_of program.now values.now) (option_map (λ t. t.now) task.entry) name.now }
{
    // Port names are different.
    program.known();
    let slot = port_slot(program, task, name)?;
    values.get(slot).copied()
}

// The slot of a port.
fn port_slot(program: &Checked, task: Option<&Name>, name: &Name) -> Option<usize>
    ensures { result ≡ slot_of program.now (option_map (λ t. t.now) task.entry) name.now }
{
    match task {
        Some(task) => program.slot(Some(task.as_str()), name.as_str()),
        None => shared_slot(program, name),
    }
}

// The slot of a sensor, an actuator or an output.
fn shared_slot(checked: &Checked, name: &Name) -> Option<usize>
    ensures { result ≡ slot_of checked.now None name.now }
{
    // The ports can be counted in a `usize`, so no sum below overflows.
    checked.known();
    let program = checked.program();
    let sensors = program.sensors();
    let actuators = program.actuators();
    let outputs = program.outputs();
    if let Some(place) = sensor_place(sensors, name) {
        return Some(place);
    }
    if let Some(place) = actuator_place(actuators, name) {
        return Some(sensors.len() + place);
    }
    match output_place(outputs, name) {
        Some(place) => Some(sensors.len() + actuators.len() + place),
        None => None,
    }
}

fn sensor_place(sensors: &[Sensor], name: &Name) -> Option<usize>
    ensures { result ≡ position_from (λ (s : Sensor). same_name s.name name.now) 0 sensors.now }
{
    sensors.iter().position(|sensor| sensor.name == *name)
}

fn actuator_place(actuators: &[Actuator], name: &Name) -> Option<usize>
    ensures { result ≡ position_from (λ (a : Actuator). same_name a.name name.now) 0 actuators.now }
{
    actuators.iter().position(|actuator| actuator.name == *name)
}

fn output_place(outputs: &[Output], name: &Name) -> Option<usize>
    ensures { result ≡ position_from (λ (o : Output). same_name o.name name.now) 0 outputs.now }
{
    outputs.iter().position(|output| output.name == *name)
}

/// The name of the task at a place of the program, in text order from 0. Takes no memory.
pub fn task_name(checked: &Checked, place: usize) -> Name
    requires { place < length checked.now.tasks }
    ensures { result ≡ name_of_task checked.now place }
{
    checked.program().tasks()[place].name.copy()
}

/// The name of the mode at a place of the program, in text order from 0. Takes no memory.
pub fn mode_name(checked: &Checked, place: usize) -> Name
    requires { place < length checked.now.modes }
    ensures { result ≡ name_of_mode checked.now place }
{
    checked.program().modes()[place].name.copy()
}

/// Whether the task at a place of the program has this name. Takes no memory.
pub fn is_task_named(checked: &Checked, place: usize, name: &str) -> bool
    requires { place < length checked.now.tasks }
    ensures { result ≡ same_name (name_of_task checked.now place) name.now }
{
    checked.program().tasks()[place].name.as_str() == name
}

/// The place of the mode in which a program starts, in text order from 0.
pub fn start_place(program: &Checked) -> usize
    ensures { IsSomeAnd (slice_get program.now.modes result) (λ m. m.name ≡ program.now.start) }
{
    match place_in(program.program().modes(), program.program().start()) {
        Some(place) => place,
        None => unreachable!(),
    }
}

fn place_in(modes: &[Mode], name: &Name) -> Option<usize>
    ensures { result ≡ position_from (λ (m : Mode). same_name m.name name.now) 0 modes.now }
{
    modes.iter().position(|mode| mode.name == *name)
}
