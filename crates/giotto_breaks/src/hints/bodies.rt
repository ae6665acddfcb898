//! Hints on what bodies assign and read.

use crate::hints::names::{kind_of, name_hint, similar_hint};
use crate::outlines::{Outline, TaskOutline, push_names};
use giotto_tasks::names::Name;
use std::alloc::{AllocError, Global};

/// A hint on a name that a body assigns, but that is neither an output nor a state of its task.
///
/// # Errors
/// Out of memory.
pub(crate) fn assigned_hint(
    alloc: Global,
    outline: &Outline,
    name: &Name,
    task: &Name,
) -> Result<Option<String>, AllocError> {
    let Some(kind) = kind_of(outline, name) else {
        return unknown_hint(alloc, outline, name, task);
    };
    if let Some(hint) = fixed_hint(kind) {
        return Ok(Some(String::from_str(alloc, hint)?));
    }
    Ok(Some(hint_with_names(alloc, kind, name.as_str(), task.as_str())?))
}

// The hint on a name of this kind that a body assigns, if the hint itself has no name in it.
fn fixed_hint(kind: &str) -> Option<&'static str> {
    match kind {
        "a sensor" => Some("a sensor can't be assigned: its value is its reading"),
        "an input of a task" => Some("an input can't be assigned; a state can: `state k := 0`"),
        "a state of a task" => Some("a state is private to its task: give this task a state too"),
        _ => None,
    }
}

// The hint on a name of another kind that the body of a task assigns.
fn hint_with_names(
    alloc: Global,
    kind: &str,
    words: &str,
    task: &str,
) -> Result<String, AllocError> {
    match kind {
        "an actuator" => format!(in alloc;
            "write an actuator in an update, as in `actfreq 1 do {words} := o;` with an output `o` of the task"
        ),
        "an output" => format!(in alloc;
            "name it among the outputs of the task: `task {task}(..) output {words} {{`"
        ),
        _ => format!(in alloc; "this is the name of {kind}"),
    }
}

// A hint on a name that a body assigns, and that nothing declares.
fn unknown_hint(
    alloc: Global,
    outline: &Outline,
    name: &Name,
    task: &Name,
) -> Result<Option<String>, AllocError> {
    let mut own = Vec::new(alloc);
    if let Some(task) = task_of(outline, task) {
        push_names(&mut own, task.outputs.as_slice())?;
        push_names(&mut own, task.states.as_slice())?;
    }
    if let Some(words) = similar_hint(alloc, name, own.as_slice())? {
        return Ok(Some(words));
    }
    let (name, task) = (name.as_str(), task.as_str());
    let words = format!(in alloc;
        "make it a state, `task {task}(..) state {name} := 0 {{`, or an output if others read it"
    )?;
    Ok(Some(words))
}

/// A hint on a name that a body reads, but that is not a port of its task.
///
/// # Errors
/// Out of memory.
pub(crate) fn read_hint(
    alloc: Global,
    outline: &Outline,
    name: &Name,
    task: &Name,
) -> Result<Option<String>, AllocError> {
    let (words, owner) = (name.as_str(), task.as_str());
    let hint = match kind_of(outline, name) {
        Some("a sensor" | "an output") => format!(in alloc;
            "give the task an input, `task {owner}(i)`, and pass this value where the task is invoked, `{owner}({words})`"
        )?,
        Some("an actuator") => String::from_str(
            alloc,
            "an actuator can't be read: read the output with which it is updated",
        )?,
        Some("a state of a task") => String::from_str(
            alloc,
            "a state is private to its task; another task can read an output",
        )?,
        _ => return unknown_read_hint(alloc, outline, name, task),
    };
    Ok(Some(hint))
}

// A hint on a name that a body reads, but that is not a sensor, an output, an actuator or a state.
fn unknown_read_hint(
    alloc: Global,
    outline: &Outline,
    name: &Name,
    task: &Name,
) -> Result<Option<String>, AllocError> {
    let mut names = Vec::new(alloc);
    if let Some(task) = task_of(outline, task) {
        push_names(&mut names, task.inputs.as_slice())?;
        push_names(&mut names, task.states.as_slice())?;
        push_names(&mut names, task.outputs.as_slice())?;
    }
    push_names(&mut names, outline.sensors.as_slice())?;
    push_names(&mut names, outline.outputs.as_slice())?;
    name_hint(alloc, outline, name, names.as_slice())
}

fn task_of<'o, 'a>(outline: &'o Outline<'a>, name: &Name) -> Option<&'o TaskOutline<'a>> {
    for task in &outline.tasks {
        if *task.name.name == *name {
            return Some(task);
        }
    }
    None
}
