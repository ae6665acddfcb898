//! Hints on how to fix common mistakes of beginners: a file for each part of a program.

use crate::outlines::Outline;
use crate::rule_breaks::RuleBreak;
use std::alloc::{AllocError, Global};

mod bodies;
mod modes;
mod names;

/// A hint of one line for what breaks a rule, if there is one.
///
/// # Errors
/// Out of memory.
pub(crate) fn hint(
    alloc: Global,
    outline: &Outline,
    what: &RuleBreak,
) -> Result<Option<String>, AllocError> {
    match what {
        RuleBreak::Assigned { name, task } => bodies::assigned_hint(alloc, outline, name, task),
        RuleBreak::Read { name, task } => bodies::read_hint(alloc, outline, name, task),
        RuleBreak::PortDeclared { name, task } => names::own_name_hint(alloc, outline, name, task),
        RuleBreak::Frequency {
            period,
            frequency,
            ..
        } => modes::frequency_hint(alloc, *period, *frequency),
        RuleBreak::ReadsOther { name, mode } => modes::reads_hint(alloc, outline, name, mode),
        RuleBreak::Unfinished { .. } => modes::unfinished_hint(alloc, what),
        _ => match fixed_hint(what) {
            Some(words) => Ok(Some(String::from_str(alloc, words)?)),
            None => names::hint(alloc, outline, what),
        },
    }
}

// The hints whose words are the same for each program.
fn fixed_hint(what: &RuleBreak) -> Option<&'static str> {
    match what {
        RuleBreak::LineTwice { .. } => {
            Some("let one actuator drive the line; each mode may update it differently")
        }
        RuleBreak::InvokedTwice { .. } => {
            Some(
                "invoke a task in one line of a mode; its guard and its arguments may be expressions",
            )
        }
        RuleBreak::SharedOutput { .. } => {
            Some("give each task its own output, or invoke them in different modes")
        }
        RuleBreak::UpdatedTwice { .. } => Some(
            "update an actuator in one line of a mode: decide between the cases in a task, and update it with that task's output",
        ),
        RuleBreak::UpdateReadsSensor { .. } => {
            Some(
                "pass a sensor's value to an actuator through a task, whose output the update reads",
            )
        }
        RuleBreak::ReadsActuator { .. } => {
            Some("an actuator can't be read: read the output with which it is updated")
        }
        RuleBreak::GivesOther { .. } => Some(
            "a switch assigns outputs of tasks that its target invokes: remove this one, or invoke such a task there",
        ),
        _ => None,
    }
}
