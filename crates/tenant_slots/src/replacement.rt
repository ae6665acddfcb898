//! What a program keeps of the values of the one that it replaces. A sensor keeps the value of the old sensor of its name, and an
//! actuator that of the old actuator of its name.

ghost use Rattle.std.specs.Prelude.{◌≡◌, [], None, Some, length, IfOk, OnOk};
ghost use Rattle.giotto_tasks.specs.declared.names.Name.{Name as AnyName};
ghost use Rattle.giotto_tasks.specs.Names.{is_among};
ghost use Rattle.rig_model.specs.text.Program.{GiottoProgram};
ghost use Rattle.rig_model.specs.rules.Declarations as declared;
ghost use Rattle.rig_model.specs.rules.Declarations.{sensor_names, actuator_names};
ghost use Rattle.giotto_check.specs.cited.Slots.{slots_of};
ghost use Rattle.rig_model.specs.rules.Ports.{slot_of};
ghost use Rattle.giotto_check.specs.Slots.{valuation_of};
ghost use Rattle.rig_model.specs.Ports.{initial_ports};
ghost use Rattle.rig_model.specs.Replacement.{carried_ports};
ghost use Rattle.tenant_slots.specs.cited.Replacement.{IsCarryTable, is_carried};

use giotto_check::Checked;
use giotto_tasks::index::Index;
use giotto_tasks::names::Name;
use rig_model::rules::declarations::driver_ports;
use std::alloc::{AllocError, Global};

/// A value that is copied from a slot of the replaced program to a slot of the new one.
#[derive(Drop)]
pub struct Carried {
    pub from: usize,
    pub to: usize,
}

/// The slots of those ports of the new program that keep the values of ports of the old one, in text order.
///
/// # Errors
/// Out of memory.
pub fn carried_slots(
    alloc: Global,
    old: &Checked,
    new: &Checked,
) -> Result<Vec<Carried>, AllocError>
    ensures { IfOk result (λ table. IsCarryTable old.now new.now table.items) }
{
    let running = Index::new(alloc, driver_ports(alloc, old.program())?)?;
    let ports = driver_ports(alloc, new.program())?;
    let mut table = Vec::new(alloc);
    add_carried(old, &running, new, &ports, &mut table)?;
    Ok(table)
}

// Adds the slots of the ports that keep their values to an empty table. `running` and `ports` have the names of the old and new
// ports, by their slots.
fn add_carried(
    old: &Checked,
    running: &Index,
    new: &Checked,
    ports: &[Name],
    table: &mut Vec<Carried>,
) -> Result<(), AllocError>
    requires running { running.now ≡ declared.driver_ports old.now }
    requires ports { ports.now ≡ declared.driver_ports new.now }
    requires empty { table.old.items ≡ [] }
    ensures { OnOk result (IsCarryTable old.now new.now table.new.items) }
{
    // Both programs are well-formed.
    old.known();
    new.known();
    for (to, name) in ports.iter().enumerate() {
        if let Some(from) = running.place(name) {
            if is_one_kind(old, from, new, to) {
                table.push(Carried { from, to })?;
            }
        }
    }
    Ok(())
}

/// Writes the values that are kept of the old program over the initial values of the new one. Takes no memory.
pub fn carry_over(table: &[Carried], old_values: &[i64], new_values: &mut [i64])
    requires { (old : GiottoProgram) × (new : GiottoProgram) × IsCarryTable old new table.now
        × (length old_values.now ≡ slots_of old) × (length new_values.old ≡ slots_of new) }
    ensures { (old new : GiottoProgram) → IsCarryTable old new table.now → length old_values.now ≡ slots_of old → length new_values.old ≡ slots_of new
        → valuation_of new new_values.old ≡ initial_ports new
        → valuation_of new new_values.new ≡ carried_ports (valuation_of old old_values.now) old new }
{
    for carried in table {
        new_values[carried.to] = old_values[carried.from];
    }
}

// Whether the ports with these slots are both sensors, or both actuators.
fn is_one_kind(old: &Checked, from: usize, new: &Checked, to: usize) -> bool
    ensures { (x : AnyName) → slot_of old.now None x ≡ Some from → slot_of new.now None x ≡ Some to → result ≡ is_carried old.now new.now x }
{
    (is_sensor(old, from) && is_sensor(new, to)) || (is_actuator(old, from) && is_actuator(new, to))
}

// Whether the port with this slot is a sensor.
fn is_sensor(checked: &Checked, slot: usize) -> bool
    ensures { (x : AnyName) → slot_of checked.now None x ≡ Some slot → result ≡ is_among (sensor_names checked.now) x }
{
    slot < checked.program().sensors().len()
}

// Whether the port with this slot is an actuator.
fn is_actuator(checked: &Checked, slot: usize) -> bool
    ensures { (x : AnyName) → slot_of checked.now None x ≡ Some slot → result ≡ is_among (actuator_names checked.now) x }
{
    let sensors = checked.program().sensors().len();
    let actuators = checked.program().actuators().len();
    slot >= sensors && slot - sensors < actuators
}
