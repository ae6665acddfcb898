//! What the sensors of a tenant's program take.

ghost use Rattle.std.specs.Prelude.{◌≡◌, length};
ghost use Rattle.tenant_slots.specs.well_formed.cited.Slots.{slots_of};
ghost use Rattle.tenant_slots.specs.well_formed.Slots.{valuation_of};
ghost use Rattle.rig_model.specs.Granted.{granted_along};
ghost use Rattle.rig_model.specs.Readings.{readings_within};
ghost use Rattle.tenant_slots.specs.cited.Readings.{with_readings};

use giotto_check::Checked;
use rig_model::config::Budgets;
use rig_model::grants::granted::Granted;
use rig_model::grants::grants::Grants;
use tenant_slots::sensors::{sense, take_granted};

/// Writes the value that each sensor takes. `frame` has the input value of each line. `granted` has the value that is granted
/// through each bind, if any, at the place of the bind. A place without a bind grants nothing, and neither does a bind without a
/// place. If a sensor takes a granted value, the place where it was found is noted with that value. Takes no memory.
pub fn read_sensors(
    checked: &Checked,
    budgets: &Budgets,
    frame: &[i64],
    grants: &Grants,
    granted: &mut [Granted],
    values: &mut [i64],
)
    requires { length values.old ≡ slots_of checked.now }
    ensures ports { valuation_of checked.now values.new
        ≡ with_readings checked.now (readings_within budgets.now.reads frame.now) (granted_along grants.now.binds granted.old) (valuation_of checked.now values.old) }
    ensures granted { granted.new ≡ granted.old }
{
    sense(checked, budgets, frame, values);
    // Port names are different, and so are the sensors of the binds.
    checked.known();
    grants.known();
    for i in 0..granted.len() {
        let Some(value) = granted[i].value() else {
            continue
        };
        let Some((sensor, _, _)) = grants.bind_at(i) else {
            return
        };
        let place = take_granted(checked, sensor, granted[i].sensor_hint(), value, values);
        granted[i].note_sensor(place);
    }
}
