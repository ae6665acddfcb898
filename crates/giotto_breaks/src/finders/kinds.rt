//! Rules 2 and 11: names that are of the wrong kind.

use crate::finders::{Break, alone, is_among};
use crate::outlines::{DriverKind, DriverOutline, Outline};
use crate::rule_breaks::RuleBreak;
use giotto_tasks::names::Name;
use std::alloc::AllocError;

/// Names in the lists of tasks and in drivers that are of the wrong kind.
pub(crate) fn wrong_kinds<'a>(
    outline: &Outline<'a>,
    breaks: &mut Vec<Break<'a>>,
) -> Result<(), AllocError> {
    for task in &outline.tasks {
        for name in &task.outputs {
            if !is_among(outline.outputs.as_slice(), name.name) {
                let what = RuleBreak::NoOutput {
                    name: name.name,
                    task: task.name.name,
                };
                breaks.push(alone(what, *name))?;
            }
        }
    }
    for mode in &outline.modes {
        for driver in &mode.drivers {
            wrong_in_driver(outline, driver, breaks)?;
        }
    }
    Ok(())
}

/// A name after `start` that is not a mode.
pub(crate) fn no_start<'a>(
    outline: &Outline<'a>,
    breaks: &mut Vec<Break<'a>>,
) -> Result<(), AllocError> {
    if let Some(start) = outline.start
        && !is_mode(outline, start.name)
    {
        breaks.push(alone(RuleBreak::NoStart { name: start.name }, start))?;
    }
    Ok(())
}

fn wrong_in_driver<'a>(
    outline: &Outline<'a>,
    driver: &DriverOutline<'a>,
    breaks: &mut Vec<Break<'a>>,
) -> Result<(), AllocError> {
    if let Some(subject) = driver.subject
        && let Some(what) = wrong_subject(outline, driver.kind, subject.name)
    {
        breaks.push(alone(what, subject))?;
    }
    for name in &driver.destinations {
        if !is_among(outline.outputs.as_slice(), name.name) {
            breaks.push(alone(RuleBreak::NoDestination { name: name.name }, *name))?;
        }
    }
    for name in &driver.read {
        if !is_port(outline, name.name) {
            breaks.push(alone(RuleBreak::NoPort { name: name.name }, *name))?;
        }
    }
    Ok(())
}

fn wrong_subject<'a>(
    outline: &Outline<'a>,
    kind: DriverKind,
    name: &'a Name,
) -> Option<RuleBreak<'a>> {
    match kind {
        DriverKind::Update if !is_among(outline.actuators.as_slice(), name) => {
            Some(RuleBreak::NoActuator { name })
        }
        DriverKind::Switch if !is_mode(outline, name) => Some(RuleBreak::NoTarget { name }),
        DriverKind::Invocation if !is_task(outline, name) => Some(RuleBreak::NoTask { name }),
        _ => None,
    }
}

fn is_port(outline: &Outline, name: &Name) -> bool {
    is_among(outline.sensors.as_slice(), name)
        || is_among(outline.actuators.as_slice(), name)
        || is_among(outline.outputs.as_slice(), name)
}

fn is_mode(outline: &Outline, name: &Name) -> bool {
    outline.modes.iter().any(|mode| *mode.name.name == *name)
}

fn is_task(outline: &Outline, name: &Name) -> bool {
    outline.tasks.iter().any(|task| *task.name.name == *name)
}
