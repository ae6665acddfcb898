//! Rule 3: what bodies assign and read.

use crate::finders::{Break, alone, is_among};
use crate::outlines::{Outline, TaskOutline};
use crate::rule_breaks::RuleBreak;
use std::alloc::AllocError;

/// Names in bodies that aren't ports of their task, or inputs that are assigned.
pub(crate) fn other_ports<'a>(
    outline: &Outline<'a>,
    breaks: &mut Vec<Break<'a>>,
) -> Result<(), AllocError> {
    for task in &outline.tasks {
        assigned(task, breaks)?;
        read(task, breaks)?;
    }
    Ok(())
}

fn assigned<'a>(task: &TaskOutline<'a>, breaks: &mut Vec<Break<'a>>) -> Result<(), AllocError> {
    for name in &task.assigned {
        let own = is_among(task.outputs.as_slice(), name.name)
            || is_among(task.states.as_slice(), name.name);
        if !own {
            let what = RuleBreak::Assigned {
                name: name.name,
                task: task.name.name,
            };
            breaks.push(alone(what, *name))?;
        }
    }
    Ok(())
}

fn read<'a>(task: &TaskOutline<'a>, breaks: &mut Vec<Break<'a>>) -> Result<(), AllocError> {
    for name in &task.read {
        let own = is_among(task.inputs.as_slice(), name.name)
            || is_among(task.states.as_slice(), name.name)
            || is_among(task.outputs.as_slice(), name.name);
        if !own {
            let what = RuleBreak::Read {
                name: name.name,
                task: task.name.name,
            };
            breaks.push(alone(what, *name))?;
        }
    }
    Ok(())
}
