//! What is wrong with an operator's line.

ghost use Rattle.std.specs.Prelude.{◌≡◌, ◌==◌, if◌then◌else◌, None, Some, IfOk};
ghost use Rattle.rig_model.specs.OperatorLines.{operator_line_of, tick_of, work_of};
ghost use Rattle.rig_model.specs.lines.Words.{values_of_words, words_of};
ghost use Rattle.script_checks.specs.Scripts.{fault_of_operator};

use crate::lines::LineFault;
use rig_model::config::Config;
use rig_model::lines::words;
use rig_model::operator_lines::{OperatorLine, operator_line};
use std::alloc::{AllocError, Global};

/// What is wrong with the operator's line that comes after `op`, if anything is.
///
/// # Errors
/// Out of memory.
pub(crate) fn fault_of_operator(
    alloc: Global,
    config: &Config,
    line: &str,
) -> Result<Option<LineFault>, AllocError>
    ensures { IfOk result (λ fault. fault ≡ fault_of_operator config.now (operator_line_of (words_of line.now))) }
{
    match operator_line(line) {
        OperatorLine::Tick(values) => fault_of_tick(alloc, config, values),
        OperatorLine::Lines => Ok(None),
        OperatorLine::Work => Ok(None),
        OperatorLine::WorkOf(name) => Ok(fault_of_name(config, name)),
        _ => Ok(Some(LineFault::BadCommand)),
    }
}

// What is wrong with a tick with these words for values, if anything is.
fn fault_of_tick(
    alloc: Global,
    config: &Config,
    values: &str,
) -> Result<Option<LineFault>, AllocError>
    ensures { IfOk result (λ fault. fault ≡ fault_of_operator config.now (tick_of (values_of_words (words_of values.now)))) }
{
    match words::values_of_words(alloc, values)? {
        Some(values) => Ok(fault_of_frame(config, values.len())),
        None => Ok(Some(LineFault::BadCommand)),
    }
}

// What is wrong with a frame of this many values, if anything is.
fn fault_of_frame(config: &Config, values: usize) -> Option<LineFault>
    ensures { result ≡ (if (values == config.now.lines) then None else Some LineFault.BadFrame) }
{
    if values == config.lines() {
        None
    } else {
        Some(LineFault::BadFrame)
    }
}

// What is wrong with running the jobs of the tenant with this name, if anything is.
fn fault_of_name(config: &Config, name: &str) -> Option<LineFault>
    ensures { result ≡ fault_of_operator config.now (work_of name.now) }
{
    match config.place_of(name) {
        Some(_) => None,
        None => Some(LineFault::UnknownTenant),
    }
}
