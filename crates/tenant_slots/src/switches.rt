//! Switches: which one is taken, and which values its destinations get.

ghost use Rattle.std.specs.Prelude.{◌≡◌, ◌<◌, ◌≤◌, None, IsTrue, length};
ghost use Rattle.std.specs.List.{AllByRecursion};
ghost use Rattle.rig_model.specs.text.Program.{GiottoProgram, ModeDeclaration};
ghost use Rattle.rig_model.specs.rules.Names.{all_different_numbers};
ghost use Rattle.giotto_check.specs.cited.Slots.{slots_of, with_slots};
ghost use Rattle.giotto_check.specs.Slots.{valuation_of};
ghost use Rattle.giotto_check.specs.cited.Timetables.{AreEach, IsExit};
ghost use Rattle.giotto_check.specs.declared.timetables.SlotExit.{SlotExit};
ghost use Rattle.tenant_slots.specs.cited.Places.{IsModeAt};
ghost use Rattle.tenant_slots.specs.inner.Switches.{IsExitOf, place_entered, ports_switched, slots_given, values_given};
ghost use Rattle.rig_model.specs.Switches.{switch_taken};

use crate::drivers::holds;
use crate::due::Due;
use giotto_check::Checked;
use giotto_check::timetables::{SlotDestination, SlotExit, slot_value};

/// Takes the first switch of the mode at this place, in text order, that is due at this mode time and whose guard holds. Its
/// destinations get their values. Returns the place of the mode that the switch enters, in text order from 0. If no switch is
/// taken, or if there is no such mode, returns `None` and leaves the values unchanged. Takes no memory.
pub fn take_switch(checked: &Checked, mode: usize, time: u64, values: &mut [i64]) -> Option<usize>
    requires { length values.old ≡ slots_of checked.now }
    ensures target { (m : ModeDeclaration) → IsModeAt checked.now mode m → result ≡ place_entered checked.now m time (valuation_of checked.now values.old) }
    ensures none { (m : ModeDeclaration) → IsModeAt checked.now mode m → result ≡ None → switch_taken m time (valuation_of checked.now values.old) ≡ None }
    ensures ports { (m : ModeDeclaration) → IsModeAt checked.now mode m → valuation_of checked.now values.new ≡ ports_switched m time (valuation_of checked.now values.old) }
    ensures missing { length checked.now.modes ≤ mode → (result ≡ None) × (values.new ≡ values.old) }
{
    // The program is well-formed.
    checked.known();
    let exit = first_open(checked.exits(mode), time, values)?;
    give(exit.destinations.as_slice(), values);
    Some(exit.target)
}

// The first of these switches that is due and whose guard holds.
fn first_open<'a>(exits: &'a [SlotExit], time: u64, values: &[i64]) -> Option<&'a SlotExit>
    requires { AllByRecursion (λ (e : SlotExit). 0 < e.interval) exits.now }
    ensures { (p : GiottoProgram) (m : ModeDeclaration) → AreEach (IsExit p m) m.switches exits.now → length values.now ≡ slots_of p
        → IsExitOf p m (switch_taken m time (valuation_of p values.now)) result }
{
    let mut due = Due::at(time);
    for exit in exits {
        if due.is_due(exit.interval) && holds(&exit.guard, values) {
            return Some(exit);
        }
    }
    None
}

// Gives these outputs, which are all different, their values. The recursion computes all values before it writes the first one.
fn give(destinations: &[SlotDestination], values: &mut [i64])
    requires there { AllByRecursion (λ k. k < length values.old) (slots_given destinations.now) }
    requires once { IsTrue (all_different_numbers (slots_given destinations.now)) }
    ensures { values.new ≡ with_slots values.old (slots_given destinations.now) (values_given destinations.now values.old) }
{
    let [first, rest @ ..] = destinations else {
        return;
    };
    let value = slot_value(&first.value, values);
    give(rest, values);
    values[first.output] = value;
}
