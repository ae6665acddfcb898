//! Rule 10: tasks that may be unfinished at a switch.

use crate::finders::{Break, site_of};
use crate::outlines::{DriverKind, DriverOutline, ModeOutline, Outline, PlacedName};
use crate::rule_breaks::RuleBreak;
use giotto_tasks::names::Name;
use std::alloc::AllocError;

/// Switches at which a task may be unfinished, and whose target doesn't invoke that task with the same period.
pub(crate) fn unfinished<'a>(
    outline: &Outline<'a>,
    breaks: &mut Vec<Break<'a>>,
) -> Result<(), AllocError> {
    for mode in &outline.modes {
        for switch in &mode.drivers {
            if let (DriverKind::Switch, Some(target)) = (switch.kind, switch.subject) {
                at_switch(outline, mode, switch, target, breaks)?;
            }
        }
    }
    Ok(())
}

fn at_switch<'a>(
    outline: &Outline<'a>,
    mode: &ModeOutline<'a>,
    switch: &DriverOutline<'a>,
    target: PlacedName<'a>,
    breaks: &mut Vec<Break<'a>>,
) -> Result<(), AllocError> {
    let gap = ticks(mode.period.value, switch.frequency.value);
    for driver in &mode.drivers {
        if let (DriverKind::Invocation, Some(task)) = (driver.kind, driver.subject) {
            let period = ticks(mode.period.value, driver.frequency.value);
            let other = period_in(outline, target.name, task.name);
            if !gap.is_multiple_of(period) && other != Some(period) {
                breaks.push(Break {
                    what: RuleBreak::Unfinished {
                        task: task.name,
                        period,
                        frequency: driver.frequency.value,
                        target: target.name,
                        other,
                    },
                    site: site_of(target),
                    other: Some((site_of(task), "the task is invoked here")),
                })?;
            }
        }
    }
    Ok(())
}

// The period of a task in the mode with this name, if that mode invokes it.
fn period_in(outline: &Outline, mode: &Name, task: &Name) -> Option<u64> {
    let mode = outline
        .modes
        .iter()
        .find(|other| *other.name.name == *mode)?;
    for driver in &mode.drivers {
        if let (DriverKind::Invocation, Some(name)) = (driver.kind, driver.subject)
            && *name.name == *task
        {
            return Some(ticks(mode.period.value, driver.frequency.value));
        }
    }
    None
}

// How many ticks lie between two events that happen `frequency` times in a period.
fn ticks(period: u64, frequency: u64) -> u64 {
    period.checked_div(frequency).unwrap_or(0)
}
