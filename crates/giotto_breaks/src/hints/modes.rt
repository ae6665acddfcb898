//! Hints on frequencies, reads and switches of modes.

use crate::finders::is_among;
use crate::outlines::Outline;
use crate::rule_breaks::RuleBreak;
use giotto_tasks::names::Name;
use std::alloc::{AllocError, Global};

// The longest period, in ticks.
const LONGEST: u64 = 1_000_000;

/// A hint on a frequency that doesn't divide the period, with the nearest ones that do.
///
/// # Errors
/// Out of memory.
pub(crate) fn frequency_hint(
    alloc: Global,
    period: u64,
    frequency: u64,
) -> Result<Option<String>, AllocError> {
    let words = "a frequency is a number of times per period, not a number of ticks";
    if frequency == 0 || period > LONGEST {
        return Ok(Some(String::from_str(alloc, words)?));
    }
    let below = (1..frequency)
        .rev()
        .find(|less| period.is_multiple_of(*less));
    let above = (frequency..period.saturating_add(1)).find(|more| period.is_multiple_of(*more));
    let hint = match (below, above) {
        (Some(below), Some(above)) => {
            format!(in alloc; "{words}; the nearest that divide {period} are {below} and {above}")?
        }
        _ => format!(in alloc; "{words}; the greatest that divides {period} is {period}")?,
    };
    Ok(Some(hint))
}

/// A hint on an output that a driver reads, but that no task of its mode has.
///
/// # Errors
/// Out of memory.
pub(crate) fn reads_hint(
    alloc: Global,
    outline: &Outline,
    name: &Name,
    mode: &Name,
) -> Result<Option<String>, AllocError> {
    let (words, mode) = (name.as_str(), mode.as_str());
    for task in &outline.tasks {
        if is_among(task.outputs.as_slice(), name) {
            let task = task.name.name.as_str();
            let words = format!(in alloc;
                "`{words}` is an output of `{task}`: is a `taskfreq` line missing in `{mode}` that invokes it?"
            )?;
            return Ok(Some(words));
        }
    }
    let words = format!(in alloc;
        "no task lists it: name it among the outputs of one that assigns it, `task T(..) output {words} {{`"
    )?;
    Ok(Some(words))
}

/// A hint on a task that may be unfinished at a switch.
///
/// # Errors
/// Out of memory.
pub(crate) fn unfinished_hint(
    alloc: Global,
    what: &RuleBreak,
) -> Result<Option<String>, AllocError> {
    let RuleBreak::Unfinished {
        task,
        period,
        frequency,
        target,
        ..
    } = what
    else {
        return Ok(None);
    };
    let (task, target) = (task.as_str(), target.as_str());
    let words = format!(in alloc;
        "with `exitfreq {frequency}` the switch is due only when `{task}` ends; or let `{target}` invoke `{task}` with the period {period}"
    )?;
    Ok(Some(words))
}
