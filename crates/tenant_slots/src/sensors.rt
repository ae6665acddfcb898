//! What the sensors of a program read, and what they are granted.

ghost use Rattle.std.specs.Prelude.{◌≡◌, [], length};
ghost use Rattle.std.specs.List.{position_from};
ghost use Rattle.rig_model.specs.text.ProgramTrees.{sensor_of};
ghost use Rattle.rig_model.specs.declared.text.programs.Sensor.{Sensor};
ghost use Rattle.giotto_check.specs.cited.Slots.{slots_of};
ghost use Rattle.giotto_check.specs.Slots.{valuation_of};
ghost use Rattle.rig_model.specs.Readings.{readings_within, reading_of, reading_taken};
ghost use Rattle.tenant_slots.specs.cited.Grants.{takes_granted, with_granted};
ghost use Rattle.tenant_slots.specs.cited.Readings.{with_readings};

use giotto_check::Checked;
use giotto_tasks::names::Name;
use rig_model::config::Budgets;
use rig_model::text::programs::{Sensor, Source};

/// Writes each sensor's reading. `frame` has the input value of each line. Takes no memory.
pub fn sense(checked: &Checked, budgets: &Budgets, frame: &[i64], values: &mut [i64])
    requires { length values.old ≡ slots_of checked.now }
    ensures { valuation_of checked.now values.new
        ≡ with_readings checked.now (readings_within budgets.now.reads frame.now) [] (valuation_of checked.now values.old) }
{
    let sensors = checked.program().sensors();
    for i in 0..sensors.len() {
        values[i] = reading(&sensors[i], budgets, frame);
    }
}

/// Writes a value that is granted to a sensor of this name, if the program has a `grant` sensor of that name. If not, the values
/// are unchanged. Looks at `hint` first, which may be a place where the sensor was found before. Returns the place where the
/// sensor was found, or `hint` if there is none. Takes no memory.
///
/// The law [`granted_behind_readings`](crate::laws::granted_behind_readings) says what values granted to different names give
/// after [`sense`].
#[inline(always)]
pub fn take_granted(
    checked: &Checked,
    sensor: &Name,
    hint: usize,
    value: i64,
    values: &mut [i64],
) -> usize
    requires { length values.old ≡ slots_of checked.now }
    ensures { valuation_of checked.now values.new ≡ with_granted checked.now sensor.now value (valuation_of checked.now values.old) }
{
    // Port names are different.
    checked.known();
    let Some(place) = granted_place(checked, sensor, hint) else {
        return hint;
    };
    values[place] = value;
    place
}

// The place of the sensor that takes what is granted to this name. `None` if there is none.
#[inline(always)]
fn granted_place(checked: &Checked, name: &Name, hint: usize) -> Option<usize>
    ensures { result ≡ position_from (takes_granted name.now) 0 checked.now.sensors }
{
    let sensors = checked.program().sensors();
    match sensors.get(hint) {
        Some(sensor) if takes_granted(sensor, name) => Some(hint),
        _ => first_granted(sensors, name),
    }
}

// The place of the first of these sensors that takes what is granted to this name. `None` if there is none.
#[inline(never)]
fn first_granted(sensors: &[Sensor], name: &Name) -> Option<usize>
    ensures { result ≡ position_from (λ (s : Sensor). takes_granted name.now (sensor_of s)) 0 sensors.now }
{
    sensors
        .iter()
        .position(|sensor| takes_granted(sensor, name))
}

// Whether a sensor takes what is granted to this name.
#[inline(always)]
fn takes_granted(sensor: &Sensor, name: &Name) -> bool
    ensures { result ≡ takes_granted name.now (sensor_of sensor.now) }
{
    matches!(sensor.source, Source::Grant) && sensor.name == *name
}

// The reading of a sensor if nothing is granted: its line's value if the tenant may read the line, else its initial value.
fn reading(sensor: &Sensor, budgets: &Budgets, frame: &[i64]) -> i64
    ensures { result ≡ reading_taken (readings_within budgets.now.reads frame.now) [] (sensor_of sensor.now) }
{
    match &sensor.source {
        Source::Line(line) => line_value(*line, budgets, frame).unwrap_or(sensor.initial),
        Source::Grant => sensor.initial,
    }
}

// The value of a line that the tenant may read.
fn line_value(line: u64, budgets: &Budgets, frame: &[i64]) -> Option<i64>
    ensures { result ≡ reading_of (readings_within budgets.now.reads frame.now) line }
{
    let line = line as usize;
    if !budgets.reads.as_slice().contains(&line) {
        return None;
    }
    frame.get(line).copied()
}
