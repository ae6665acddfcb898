//! Actuators: their places, their updates in a mode, and their reset when a program is stopped.

ghost use Rattle.std.specs.Prelude.{◌≡◌, ◌≤◌, length};
ghost use Rattle.std.specs.List.{find, position_from};
ghost use Rattle.std.specs.Option.{option_map};
ghost use Rattle.giotto_tasks.specs.Names.{same_name};
ghost use Rattle.rig_model.specs.declared.text.programs.Actuator.{Actuator};
ghost use Rattle.rig_model.specs.text.Program.{ActuatorDeclaration, ModeDeclaration};
ghost use Rattle.giotto_check.specs.cited.Slots.{slots_of};
ghost use Rattle.giotto_check.specs.Slots.{valuation_of};
ghost use Rattle.tenant_slots.specs.cited.Places.{IsModeAt};
ghost use Rattle.rig_model.specs.Ports.{actuators_reset};
ghost use Rattle.rig_model.specs.LineValues.{drives};
ghost use Rattle.rig_model.specs.Updates.{all_updated, updates_happened};
ghost use Rattle.rig_model.specs.trace.cited.Noted.{noted, pushed};
ghost use Rattle.rig_model.specs.declared.trace.records.Happening.TheVariants as happening;

use crate::drivers::holds;
use crate::due::Due;
use giotto_check::Checked;
use giotto_check::timetables::slot_value;
use giotto_tasks::names::Name;
use rig_model::text::programs::Actuator;
use rig_model::trace::records::Happening;
use rig_model::trace::traces::Trace;

/// Gives each actuator its initial value. Takes no memory.
pub fn reset_actuators(checked: &Checked, values: &mut [i64])
    requires { length values.old ≡ slots_of checked.now }
    ensures { valuation_of checked.now values.new ≡ actuators_reset checked.now (valuation_of checked.now values.old) }
{
    let first = checked.program().sensors().len();
    let actuators = checked.program().actuators();
    for i in 0..actuators.len() {
        let actuator = &actuators[i];
        values[first + i] = actuator.initial;
    }
}

/// Makes the updates of the mode at this place that are due at this mode time and whose guards hold, in text order. Each update
/// is recorded in the trace as it is made, at this tick. If there is no such mode, nothing changes. Takes no memory.
#[inline(never)]
pub fn update_due(
    checked: &Checked,
    mode: usize,
    time: u64,
    tick: u64,
    values: &mut [i64],
    trace: &mut Trace,
)
    requires { length values.old ≡ slots_of checked.now }
    ensures there { (m : ModeDeclaration) → IsModeAt checked.now mode m
        → valuation_of checked.now values.new ≡ all_updated m time m.updates (valuation_of checked.now values.old) }
    ensures noted { (m : ModeDeclaration) → IsModeAt checked.now mode m
        → trace.new ≡ noted tick (updates_happened m time m.updates (valuation_of checked.now values.old)) trace.old }
    ensures missing { length checked.now.modes ≤ mode → (values.new ≡ values.old) × (trace.new ≡ trace.old) }
{
    // Frequencies are positive. Port names are different, and the slots of the actuators come after those of the sensors.
    let program = checked.program();
    let first = program.sensors().len();
    let actuators = program.actuators();
    let mut due = Due::at(time);
    for update in checked.updates(mode) {
        if due.is_due(update.interval) && holds(&update.guard, values) {
            let value = slot_value(&update.value, values);
            values[update.actuator] = value;
            note_update(&actuators[update.actuator - first], value, tick, trace);
        }
    }
}

// Records in the trace that this actuator was updated to this value, at this tick.
fn note_update(actuator: &Actuator, value: i64, tick: u64, trace: &mut Trace)
    ensures { trace.new ≡ pushed (record { tick = tick; happening = happening.Act actuator.now.name value }) trace.old }
{
    trace.note(tick, Happening::Act(actuator.name.copy(), value));
}

/// The place of the actuator of this name, counted from 0. `None` if the program has none. Looks at `hint` first, which may be a
/// place where the actuator was found before.
#[inline(always)]
pub fn actuator_place(checked: &Checked, name: &Name, hint: usize) -> Option<usize>
    ensures { result ≡ position_from (λ (a : ActuatorDeclaration). same_name a.name name.now) 0 checked.now.actuators }
{
    let actuators = checked.program().actuators();
    match actuators.get(hint) {
        Some(actuator) if actuator.name == *name => Some(hint),
        _ => first_place(actuators, name),
    }
}

// The place of the first of these actuators that has this name. `None` if there is none.
#[inline(never)]
fn first_place(actuators: &[Actuator], name: &Name) -> Option<usize>
    ensures { result ≡ position_from (λ (a : Actuator). same_name a.name name.now) 0 actuators.now }
{
    actuators.iter().position(|actuator| actuator.name == *name)
}

/// The name of the first of these actuators that drives this line. `None` if none does.
pub fn driver_name(actuators: &[Actuator], line: u64) -> Option<Name>
    ensures { result ≡ option_map (λ (a : Actuator). a.name) (find (λ (a : Actuator). drives line a.line) actuators.now) }
{
    for actuator in actuators {
        if drives(actuator.line, line) {
            return Some(actuator.name.copy());
        }
    }
    None
}

// Whether an actuator with the line `own`, if it has one, drives `line`.
fn drives(own: Option<u64>, line: u64) -> bool
    ensures { result ≡ drives line own }
{
    match own {
        Some(own) => line == own,
        None => false,
    }
}
