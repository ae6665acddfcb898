//! Rule 9: what drivers read, and the destinations of switches.

use crate::finders::{Break, alone, find_name, is_among, site_of};
use crate::outlines::{DriverKind, DriverOutline, ModeOutline, Outline, PlacedName, push_names};
use crate::rule_breaks::RuleBreak;
use giotto_tasks::names::Name;
use std::alloc::{AllocError, Global};

/// Reads and destinations that aren't ports of their mode.
pub(crate) fn wrong_reads<'a>(
    alloc: Global,
    outline: &Outline<'a>,
    breaks: &mut Vec<Break<'a>>,
) -> Result<(), AllocError> {
    for mode in &outline.modes {
        let ports = mode_ports(alloc, outline, mode)?;
        for driver in &mode.drivers {
            for name in &driver.read {
                if let Some(what) = wrong_read(
                    outline,
                    mode,
                    ports.as_slice(),
                    driver.kind,
                    name.name,
                ) {
                    breaks.push(alone(what, *name))?;
                }
            }
            wrong_destinations(alloc, outline, driver, breaks)?;
        }
    }
    Ok(())
}

// The outputs of the tasks that the mode invokes.
fn mode_ports<'a>(
    alloc: Global,
    outline: &Outline<'a>,
    mode: &ModeOutline<'a>,
) -> Result<Vec<PlacedName<'a>>, AllocError> {
    let mut ports = Vec::new(alloc);
    for task in &outline.tasks {
        if invokes(mode, task.name.name) {
            push_names(&mut ports, task.outputs.as_slice())?;
        }
    }
    Ok(ports)
}

fn invokes(mode: &ModeOutline, task: &Name) -> bool {
    for driver in &mode.drivers {
        if let Some(subject) = driver.subject
            && driver.kind == DriverKind::Invocation
            && *subject.name == *task
        {
            return true;
        }
    }
    false
}

fn wrong_read<'a>(
    outline: &Outline<'a>,
    mode: &ModeOutline<'a>,
    ports: &[PlacedName<'a>],
    kind: DriverKind,
    name: &'a Name,
) -> Option<RuleBreak<'a>> {
    if is_among(ports, name) {
        return None;
    }
    if is_among(outline.sensors.as_slice(), name) {
        return if kind == DriverKind::Update {
            Some(RuleBreak::UpdateReadsSensor { name })
        } else {
            None
        };
    }
    if is_among(outline.actuators.as_slice(), name) {
        return Some(RuleBreak::ReadsActuator { name });
    }
    Some(RuleBreak::ReadsOther {
        name,
        mode: mode.name.name,
    })
}

fn wrong_destinations<'a>(
    alloc: Global,
    outline: &Outline<'a>,
    driver: &DriverOutline<'a>,
    breaks: &mut Vec<Break<'a>>,
) -> Result<(), AllocError> {
    let (DriverKind::Switch, Some(target)) = (driver.kind, driver.subject) else {
        return Ok(());
    };
    let Some(mode) = outline
        .modes
        .iter()
        .find(|mode| *mode.name.name == *target.name)
    else {
        return Ok(());
    };
    let ports = mode_ports(alloc, outline, mode)?;
    for (place, name) in driver.destinations.iter().enumerate() {
        if !is_among(ports.as_slice(), name.name) {
            let what = RuleBreak::GivesOther {
                name: name.name,
                target: target.name,
            };
            breaks.push(alone(what, *name))?;
        }
        if let Some(first) = find_name(driver.destinations.get(..place).unwrap_or(&[]), name.name) {
            breaks.push(Break {
                what: RuleBreak::GivesTwice { name: name.name },
                site: site_of(*name),
                other: Some((site_of(first), "it is assigned here too")),
            })?;
        }
    }
    Ok(())
}
