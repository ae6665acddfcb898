//! Hints on names that are of the wrong kind, misspelled or not declared.

use crate::finders::is_among;
use crate::outlines::{Outline, PlacedName};
use crate::rule_breaks::RuleBreak;
use giotto_tasks::names::Name;
use std::alloc::{AllocError, Global};
use strsim::osa_distance;

/// A hint on a name that is used where a name of another kind is expected.
///
/// # Errors
/// Out of memory.
pub(crate) fn hint(
    alloc: Global,
    outline: &Outline,
    what: &RuleBreak,
) -> Result<Option<String>, AllocError> {
    let (outputs, actuators) = (outline.outputs.as_slice(), outline.actuators.as_slice());
    match what {
        RuleBreak::NoOutput { name, .. } => output_hint(alloc, outline, name),
        RuleBreak::NoDestination { name } => name_hint(alloc, outline, name, outputs),
        RuleBreak::NoActuator { name } => name_hint(alloc, outline, name, actuators),
        RuleBreak::NoTask { name } => {
            name_hint(alloc, outline, name, tasks_of(alloc, outline)?.as_slice())
        }
        RuleBreak::NoTarget { name } | RuleBreak::NoStart { name } => {
            mode_hint(alloc, outline, name)
        }
        RuleBreak::NoPort { name } => port_hint(alloc, outline, name),
        _ => Ok(None),
    }
}

/// A hint on what a name is declared as, or on which of these names may be meant by it.
///
/// # Errors
/// Out of memory.
pub(crate) fn name_hint(
    alloc: Global,
    outline: &Outline,
    name: &Name,
    candidates: &[PlacedName],
) -> Result<Option<String>, AllocError> {
    if let Some(kind) = kind_of(outline, name) {
        return Ok(Some(format!(in alloc; "this is the name of {kind}")?));
    }
    if let Some(words) = similar_hint(alloc, name, candidates)? {
        return Ok(Some(words));
    }
    Ok(Some(String::from_str(alloc, unknown_hint(outline, name))?))
}

/// A hint on an input or a state with a name that is declared outside of its task.
///
/// # Errors
/// Out of memory.
pub(crate) fn own_name_hint(
    alloc: Global,
    outline: &Outline,
    name: &Name,
    task: &Name,
) -> Result<Option<String>, AllocError> {
    let (words, task) = (name.as_str(), task.as_str());
    let hint = match kind_of(outline, name) {
        Some("a sensor" | "an output") => format!(in alloc;
            "give it another name; an invocation such as `{task}({words})` passes the value to an input"
        )?,
        _ => String::from_str(alloc, "give it another name")?,
    };
    Ok(Some(hint))
}

// A hint on a name that nothing declares.
fn unknown_hint(outline: &Outline, name: &Name) -> &'static str {
    let is_listed = outline
        .tasks
        .iter()
        .any(|task| is_among(task.outputs.as_slice(), name));
    match name.as_str() {
        _ if is_listed => "a task lists it as an output, but no `output` line declares it",
        "true" | "false" => "write 1 for true, and 0 for false",
        _ => "no declaration has this name",
    }
}

/// A hint on which of these names may be meant by a misspelled name: the most similar one, and the first if there are several.
///
/// # Errors
/// Out of memory.
pub(crate) fn similar_hint(
    alloc: Global,
    name: &Name,
    candidates: &[PlacedName],
) -> Result<Option<String>, AllocError> {
    let mut limit = name.len() / 3;
    let mut nearest = None;
    for candidate in candidates {
        let distance = osa_distance(alloc, name.as_str(), candidate.name.as_str())?;
        if distance < limit || (distance == limit && distance > 0 && nearest.is_none()) {
            limit = distance;
            nearest = Some(candidate.name);
        }
    }
    match nearest {
        Some(nearest) => {
            let nearest = nearest.as_str();
            Ok(Some(format!(in alloc; "did you mean `{nearest}`?")?))
        }
        None => Ok(None),
    }
}

// A hint on a name in a task's list of outputs that is not the name of an output.
fn output_hint(
    alloc: Global,
    outline: &Outline,
    name: &Name,
) -> Result<Option<String>, AllocError> {
    if kind_of(outline, name).is_some() {
        return name_hint(alloc, outline, name, &[]);
    }
    if let Some(words) = similar_hint(alloc, name, outline.outputs.as_slice())? {
        return Ok(Some(words));
    }
    let name = name.as_str();
    let words = format!(in alloc; "declare it above the tasks: `output {name} := 0;`")?;
    Ok(Some(words))
}

// A hint on a name that is not the name of a mode.
fn mode_hint(alloc: Global, outline: &Outline, name: &Name) -> Result<Option<String>, AllocError> {
    let modes = modes_of(alloc, outline)?;
    let few = !modes.is_empty() && modes.len() <= 6;
    if kind_of(outline, name).is_some() || !few {
        return name_hint(alloc, outline, name, modes.as_slice());
    }
    if let Some(words) = similar_hint(alloc, name, modes.as_slice())? {
        return Ok(Some(words));
    }
    let mut words = String::from_str(alloc, "no mode has this name; the program's modes are ")?;
    for (place, mode) in modes.iter().enumerate() {
        words.push_str(if place > 0 { ", " } else { "" })?;
        words.push_str("`")?;
        words.push_str(mode.name.as_str())?;
        words.push_str("`")?;
    }
    Ok(Some(words))
}

// A hint on a name that no driver can read.
fn port_hint(alloc: Global, outline: &Outline, name: &Name) -> Result<Option<String>, AllocError> {
    let mut ports = Vec::new(alloc);
    for port in outline.sensors.iter().chain(outline.outputs.iter()) {
        ports.push(*port)?;
    }
    match kind_of(outline, name) {
        Some(kind) if kind.ends_with("of a task") => {
            let words = format!(in alloc;
                "this is the name of {kind}, and only that task reads it"
            )?;
            Ok(Some(words))
        }
        _ => name_hint(alloc, outline, name, ports.as_slice()),
    }
}

fn tasks_of<'a>(alloc: Global, outline: &Outline<'a>) -> Result<Vec<PlacedName<'a>>, AllocError> {
    outline.tasks.iter().map(|task| task.name).collect(alloc)
}

fn modes_of<'a>(alloc: Global, outline: &Outline<'a>) -> Result<Vec<PlacedName<'a>>, AllocError> {
    outline.modes.iter().map(|mode| mode.name).collect(alloc)
}

/// What the name is declared as.
pub(crate) fn kind_of(outline: &Outline, name: &Name) -> Option<&'static str> {
    if is_among(outline.sensors.as_slice(), name) {
        return Some("a sensor");
    }
    if is_among(outline.actuators.as_slice(), name) {
        return Some("an actuator");
    }
    if is_among(outline.outputs.as_slice(), name) {
        return Some("an output");
    }
    for task in &outline.tasks {
        if *task.name.name == *name {
            return Some("a task");
        }
        if is_among(task.inputs.as_slice(), name) {
            return Some("an input of a task");
        }
        if is_among(task.states.as_slice(), name) {
            return Some("a state of a task");
        }
    }
    if outline.modes.iter().any(|mode| *mode.name.name == *name) {
        return Some("a mode");
    }
    None
}
