//! Rule 1: what is declared twice.

use crate::finders::{Break, find_name, site_of, site_of_number};
use crate::outlines::{Outline, PlacedName, TaskOutline, push_names};
use crate::rule_breaks::RuleBreak;
use std::alloc::{AllocError, Global};

/// Names that are declared twice, and lines that are driven twice.
pub(crate) fn declared_twice<'a>(
    alloc: Global,
    outline: &Outline<'a>,
    breaks: &mut Vec<Break<'a>>,
) -> Result<(), AllocError> {
    let names = declared_names(alloc, outline)?;
    for (place, name) in names.iter().enumerate() {
        if let Some(first) = find_name(names.get(..place).unwrap_or(&[]), name.name) {
            breaks.push(Break {
                what: RuleBreak::DeclaredTwice { name: name.name },
                site: site_of(*name),
                other: Some((site_of(first), "it is declared here too")),
            })?;
        }
    }
    for task in &outline.tasks {
        outputs_twice(task, breaks)?;
        ports_twice(alloc, task, names.as_slice(), breaks)?;
    }
    lines_twice(outline, breaks)
}

// The names of sensors, actuators, outputs, tasks and modes.
fn declared_names<'a>(
    alloc: Global,
    outline: &Outline<'a>,
) -> Result<Vec<PlacedName<'a>>, AllocError> {
    let mut names = Vec::new(alloc);
    push_names(&mut names, outline.sensors.as_slice())?;
    push_names(&mut names, outline.actuators.as_slice())?;
    push_names(&mut names, outline.outputs.as_slice())?;
    for task in &outline.tasks {
        names.push(task.name)?;
    }
    for mode in &outline.modes {
        names.push(mode.name)?;
    }
    Ok(names)
}

fn outputs_twice<'a>(
    task: &TaskOutline<'a>,
    breaks: &mut Vec<Break<'a>>,
) -> Result<(), AllocError> {
    for (place, name) in task.outputs.iter().enumerate() {
        if let Some(first) = find_name(task.outputs.get(..place).unwrap_or(&[]), name.name) {
            breaks.push(Break {
                what: RuleBreak::OutputTwice {
                    name: name.name,
                    task: task.name.name,
                },
                site: site_of(*name),
                other: Some((site_of(first), "it is listed here too")),
            })?;
        }
    }
    Ok(())
}

fn ports_twice<'a>(
    alloc: Global,
    task: &TaskOutline<'a>,
    declared: &[PlacedName<'a>],
    breaks: &mut Vec<Break<'a>>,
) -> Result<(), AllocError> {
    let mut ports = Vec::new(alloc);
    push_names(&mut ports, task.inputs.as_slice())?;
    push_names(&mut ports, task.states.as_slice())?;
    for (place, name) in ports.iter().enumerate() {
        if let Some(first) = find_name(ports.get(..place).unwrap_or(&[]), name.name) {
            breaks.push(Break {
                what: RuleBreak::PortTwice {
                    name: name.name,
                    task: task.name.name,
                },
                site: site_of(*name),
                other: Some((site_of(first), "it is listed here too")),
            })?;
        }
        if let Some(first) = find_name(declared, name.name) {
            breaks.push(Break {
                what: RuleBreak::PortDeclared {
                    name: name.name,
                    task: task.name.name,
                },
                site: site_of(*name),
                other: Some((site_of(first), "it is declared here")),
            })?;
        }
    }
    Ok(())
}

fn lines_twice<'a>(outline: &Outline<'a>, breaks: &mut Vec<Break<'a>>) -> Result<(), AllocError> {
    for (place, line) in outline.lines.iter().enumerate() {
        let before = outline.lines.get(..place).unwrap_or(&[]);
        if let Some(first) = before.iter().find(|other| other.value == line.value) {
            breaks.push(Break {
                what: RuleBreak::LineTwice { line: line.value },
                site: site_of_number(*line),
                other: Some((site_of_number(*first), "it is driven here too")),
            })?;
        }
    }
    Ok(())
}
