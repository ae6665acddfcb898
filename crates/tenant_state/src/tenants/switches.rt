//! Switches: the mode that an instant enters, and the mode time there.

ghost use Rattle.std.specs.Prelude.{◌≡◌, ◌<◌, ◌≤◌, None, length, map};
ghost use Rattle.std.specs.List.{filter_map, AllByRecursion};
ghost use Rattle.rig_model.specs.rules.Declarations.{period_of_task};
ghost use Rattle.tenant_slots.specs.well_formed.cited.Slots.{slots_of};
ghost use Rattle.tenant_slots.specs.well_formed.Slots.{valuation_of};
ghost use Rattle.rig_model.specs.text.Program.{ModeDeclaration};
ghost use Rattle.tenant_slots.specs.cited.CommonPeriods.{IsCommonPeriod};
ghost use Rattle.tenant_slots.specs.cited.Due.{IsQuietUntil};
ghost use Rattle.tenant_slots.specs.cited.Places.{IsModeAt};
ghost use Rattle.rig_model.specs.Row.{ActiveTask};
ghost use Rattle.rig_model.specs.SecondHalf.{entry_time};
ghost use Rattle.tenant_state.specs.Tenants.{active_of};
ghost use Rattle.tenant_state.specs.inner.Tenants.{IsActiveOf, IsSwitched, entry_happened};
ghost use Rattle.rig_model.specs.trace.cited.Noted.{noted};

use crate::tenants::Active;
use giotto_check::Checked;
use rig_model::trace::records::Happening;
use rig_model::trace::traces::Trace;
use tenant_slots::names::mode_name;
use tenant_slots::periods::{common_multiple, period_of};
use tenant_slots::switches::take_switch;

/// Where a switch leads.
#[derive(Drop)]
pub(crate) struct Entry {
    /// The place of the mode in the program's text, from 0.
    pub(crate) mode: usize,
    /// The mode time there, in ticks.
    pub(crate) time: u64,
}

/// An instant of a program, before its switch.
#[derive(Clone, Copy)]
pub(crate) struct Instant<'a> {
    pub(crate) checked: &'a Checked,
    /// The place of the mode in the program's text, from 0.
    pub(crate) mode: usize,
    /// The mode time, in ticks.
    pub(crate) time: u64,
    /// A mode time before which nothing is due.
    pub(crate) next: u64,
    /// The instant's number.
    pub(crate) tick: u64,
}

// Takes the first switch of the instant's mode that is due and whose guard holds. Returns where it leads, and records it in the
// trace.
pub(crate) fn switch(
    at: &Instant,
    active: &[Active],
    values: &mut [i64],
    trace: &mut Trace,
) -> Option<Entry>
    requires quiet { (m : ModeDeclaration) → IsModeAt at.now.checked.now at.now.mode m → IsQuietUntil m at.now.time at.now.next }
    requires values { length values.old ≡ slots_of at.now.checked.now }
    requires active { AllByRecursion (IsActiveOf at.now.checked.now) active.now }
    ensures switched { (m : ModeDeclaration) → IsModeAt at.now.checked.now at.now.mode m
        → IsSwitched at.now.checked.now m at.now.time (map (active_of at.now.checked.now) active.now) (valuation_of at.now.checked.now values.old) result values.new }
    ensures noted { trace.new ≡ noted at.now.tick (entry_happened at.now.checked.now result) trace.old }
{
    if at.time < at.next {
        return None;
    }
    let target = take_switch(at.checked, at.mode, at.time, values)?;
    trace.note(at.tick, Happening::Mode(mode_name(at.checked, target)));
    Some(Entry {
        mode: target,
        time: entry_time(at.checked, at.mode, target, at.time, active),
    })
}

// The mode time after a switch, given the places of the old and the new mode. It is 0 if the old mode invokes none of the active
// tasks. Otherwise it is as far from the end of the new mode as these tasks are from their next common deadline.
fn entry_time(checked: &Checked, from: usize, target: usize, time: u64, active: &[Active]) -> u64
    requires target { target < length checked.now.modes }
    requires active { AllByRecursion (IsActiveOf checked.now) active.now }
    ensures { (m t : ModeDeclaration) → IsModeAt checked.now from m → IsModeAt checked.now target t
        → result ≡ entry_time m t time (map (active_of checked.now) active.now) }
{
    match common_period(checked, from, active) {
        None => 0,
        Some(common) => {
            let period = checked.program().modes()[target].period;
            period.saturating_sub(common - time % common)
        }
    }
}

// The least common multiple of these tasks' periods in the mode at this place, in ticks. `None` if the mode invokes none of them.
fn common_period(checked: &Checked, mode: usize, active: &[Active]) -> Option<u64>
    requires active { AllByRecursion (IsActiveOf checked.now) active.now }
    ensures there { (m : ModeDeclaration) → IsModeAt checked.now mode m
        → IsCommonPeriod (filter_map (λ (a : ActiveTask). period_of_task m a.task) (map (active_of checked.now) active.now)) result }
    ensures none { length checked.now.modes ≤ mode → result ≡ None }
{
    // The program is well-formed.
    checked.known();
    let mut common: Option<u64> = None;
    for a in active {
        if let Some(period) = period_of(checked, mode, a.task) {
            common = Some(match common {
                None => period,
                Some(other) => common_multiple(other, period),
            });
        }
    }
    common
}
