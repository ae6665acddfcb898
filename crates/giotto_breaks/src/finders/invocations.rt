//! Rules 5 to 8: tasks that a mode invokes, and actuators that it updates.

use crate::finders::{Break, is_among, site_of};
use crate::outlines::{DriverKind, DriverOutline, ModeOutline, Outline, PlacedName, TaskOutline};
use crate::rule_breaks::RuleBreak;
use giotto_tasks::names::Name;
use std::alloc::AllocError;

/// Tasks that are invoked twice in a mode.
pub(crate) fn invoked_twice<'a>(
    outline: &Outline<'a>,
    breaks: &mut Vec<Break<'a>>,
) -> Result<(), AllocError> {
    for mode in &outline.modes {
        for (place, driver) in mode.drivers.iter().enumerate() {
            let before = mode.drivers.get(..place).unwrap_or(&[]);
            if let (DriverKind::Invocation, Some(task)) = (driver.kind, driver.subject)
                && let Some(first) = first_with(before, driver.kind, task.name)
            {
                breaks.push(Break {
                    what: RuleBreak::InvokedTwice {
                        task: task.name,
                        mode: mode.name.name,
                    },
                    site: site_of(task),
                    other: Some((site_of(first), "it is invoked here too")),
                })?;
            }
        }
    }
    Ok(())
}

/// Actuators that are updated twice in a mode.
pub(crate) fn updated_twice<'a>(
    outline: &Outline<'a>,
    breaks: &mut Vec<Break<'a>>,
) -> Result<(), AllocError> {
    for mode in &outline.modes {
        for (place, driver) in mode.drivers.iter().enumerate() {
            let before = mode.drivers.get(..place).unwrap_or(&[]);
            if let (DriverKind::Update, Some(actuator)) = (driver.kind, driver.subject)
                && let Some(first) = first_with(before, driver.kind, actuator.name)
            {
                breaks.push(Break {
                    what: RuleBreak::UpdatedTwice {
                        actuator: actuator.name,
                        mode: mode.name.name,
                    },
                    site: site_of(actuator),
                    other: Some((site_of(first), "it is updated here too")),
                })?;
            }
        }
    }
    Ok(())
}

// The subject of the first of these drivers that is of this kind and writes or invokes this name.
fn first_with<'a>(
    drivers: &[DriverOutline<'a>],
    kind: DriverKind,
    name: &Name,
) -> Option<PlacedName<'a>> {
    for driver in drivers {
        if let Some(subject) = driver.subject
            && driver.kind == kind
            && *subject.name == *name
        {
            return Some(subject);
        }
    }
    None
}

/// Tasks that a mode invokes after other tasks with which they share an output.
pub(crate) fn sharing<'a>(
    outline: &Outline<'a>,
    breaks: &mut Vec<Break<'a>>,
) -> Result<(), AllocError> {
    for mode in &outline.modes {
        for (place, driver) in mode.drivers.iter().enumerate() {
            sharing_before(outline, mode, driver, place, breaks)?;
        }
    }
    Ok(())
}

fn sharing_before<'a>(
    outline: &Outline<'a>,
    mode: &ModeOutline<'a>,
    driver: &DriverOutline<'a>,
    place: usize,
    breaks: &mut Vec<Break<'a>>,
) -> Result<(), AllocError> {
    for before in mode.drivers.get(..place).unwrap_or(&[]) {
        push_shared(outline, mode, driver, before, breaks)?;
    }
    Ok(())
}

// Adds a break if both drivers invoke tasks that share an output.
fn push_shared<'a>(
    outline: &Outline<'a>,
    mode: &ModeOutline<'a>,
    driver: &DriverOutline<'a>,
    before: &DriverOutline<'a>,
    breaks: &mut Vec<Break<'a>>,
) -> Result<(), AllocError> {
    if let Some((task, name)) = invoked(outline, driver)
        && let Some((other, first)) = invoked(outline, before)
        && let Some(output) = first_common(task.outputs.as_slice(), other.outputs.as_slice())
    {
        breaks.push(Break {
            what: RuleBreak::SharedOutput {
                output,
                task: name.name,
                other: first.name,
                mode: mode.name.name,
            },
            site: site_of(name),
            other: Some((site_of(first), "the other is invoked here")),
        })?;
    }
    Ok(())
}

// The first of `names` that is one of `others`.
fn first_common<'a>(names: &[PlacedName<'a>], others: &[PlacedName<'a>]) -> Option<&'a Name> {
    for name in names {
        if is_among(others, name.name) {
            return Some(name.name);
        }
    }
    None
}

// The task that the driver invokes, and where.
fn invoked<'o, 'a>(
    outline: &'o Outline<'a>,
    driver: &DriverOutline<'a>,
) -> Option<(&'o TaskOutline<'a>, PlacedName<'a>)> {
    if driver.kind != DriverKind::Invocation {
        return None;
    }
    let name = driver.subject?;
    for task in &outline.tasks {
        if *task.name.name == *name.name {
            return Some((task, name));
        }
    }
    None
}

/// Invocations with too few or too many arguments.
pub(crate) fn wrong_arguments<'a>(
    outline: &Outline<'a>,
    breaks: &mut Vec<Break<'a>>,
) -> Result<(), AllocError> {
    for mode in &outline.modes {
        for driver in &mode.drivers {
            if let Some((task, name)) = invoked(outline, driver)
                && task.inputs.len() != driver.arguments
            {
                breaks.push(Break {
                    what: RuleBreak::Arguments {
                        task: name.name,
                        inputs: task.inputs.len(),
                        given: driver.arguments,
                    },
                    site: site_of(name),
                    other: Some((site_of(task.name), "the task is declared here")),
                })?;
            }
        }
    }
    Ok(())
}
