//! Two scripts compared: whose answers differ, and whose do though no retest names them.

ghost use Rattle.std.specs.Prelude.{◌≡◌, ◌↔◌, [], IfOk, IsOk, IsTrue, option_map};
ghost use Rattle.rig_subcommands.specs.inner.Comparisons.{IsWhole, first_of, is_of_script, reported_fault};
ghost use Rattle.rig_files.specs.cited.Inputs.{AreBytesOf, configuration_path};

use crate::retests::verdict;
use crate::tested_runs::report;
use rig_arguments::requests::{CompareRequest, Input};
use rig_arguments::subcommands::Subcommand;
use rig_files::configuration::read_rig;
use rig_files::faults::SubcommandFault;
use rig_files::inputs::ScriptInput;
use rig_files::outputs::print;
use rig_files::systems::System;
use rig_files::tenants::place_of;
use rig_model::config::Config;
use rig_script::courses::Course;
use rig_script::faults::ScriptFault;
use run_comparisons::{Scope, Script, ScriptComparison, compare_scripts};
use std::alloc::Global;

/// Prints what differs between the runs of two scripts.
///
/// # Errors
/// - Faults of arguments and of the configuration; as the scripts.
/// - `Unread` if a script can't be read, or isn't a run though its name says so; that is reported with its name.
/// - `Faulty` if a tenant that no retest names has other answers, a script was cut off, or no line of one was a tenant's.
pub fn run_compare(rt: &impl System, request: &CompareRequest<'_>) -> Result<(), SubcommandFault> {
    check_inputs(rt.alloc(), request)?;
    let old = input_of(rt, request, request.old)?;
    let new = input_of(rt, request, request.new)?;
    let path = path_of_both(rt.alloc(), request.config, &old, &new)?;
    let (config, plant) = read_rig(rt, path)?;
    let scope = scope_of(rt.alloc(), &config, path, request.tenant)?;
    let old_bytes = bytes_of(rt, request.old, &old)?;
    let new_bytes = bytes_of(rt, request.new, &new)?;
    let old_script = Script {
        path: request.old.name(),
        bytes: old_bytes.as_slice(),
    };
    let new_script = Script {
        path: request.new.name(),
        bytes: new_bytes.as_slice(),
    };
    let comparison = compare_scripts(
        rt.alloc(),
        &config,
        &plant,
        scope,
        request.tolerance,
        &old_script,
        &new_script,
    )?;
    print(rt, comparison.runs.text.as_str())?;
    report_shortfall(rt, old_script.path, comparison.old);
    report_shortfall(rt, new_script.path, comparison.new);
    outcome(&comparison)
}

// Checks that standard input isn't both scripts.
fn check_inputs(alloc: Global, request: &CompareRequest<'_>) -> Result<(), SubcommandFault> {
    match (request.old, request.new) {
        (Input::Standard, Input::Standard) => {
            let why = "'OLD' and 'NEW' are both standard input";
            Err(SubcommandFault::wrong(alloc, Subcommand::Compare, why))
        }
        _ => Ok(()),
    }
}

// The script of this input.
fn input_of<'a>(
    rt: &impl System,
    request: &CompareRequest<'a>,
    input: Input<'a>,
) -> Result<ScriptInput<'a>, SubcommandFault> {
    match ScriptInput::of_arguments(rt, Subcommand::Compare, request.config, input, &[]) {
        Ok(script) => Ok(script),
        Err(fault) => Err(reported(rt, input, fault)),
    }
}

// The bytes of the script of this input.
fn bytes_of(
    rt: &impl System,
    input: Input<'_>,
    script: &ScriptInput<'_>,
) -> Result<Vec<u8>, SubcommandFault>
    ensures { IfOk result (λ bytes. AreBytesOf script.now bytes.items) }
{
    match script.bytes(rt) {
        Ok(bytes) => Ok(bytes),
        Err(fault) => Err(reported(rt, input, fault)),
    }
}

// The fault of reading this input. If it is one of the script, it is reported with the script's name, since it could be that of either.
fn reported(rt: &impl System, input: Input<'_>, fault: SubcommandFault) -> SubcommandFault
    ensures { result ≡ reported_fault fault }
{
    if !is_of_script(&fault) {
        return fault;
    }
    report(rt, input.name(), &fault);
    SubcommandFault::Unread
}

// Whether a fault is one of a script: it can't be read, or isn't a run.
fn is_of_script(fault: &SubcommandFault) -> bool
    ensures { result ≡ is_of_script fault.now }
{
    matches!(
        fault,
        SubcommandFault::Run(_)
            | SubcommandFault::Picture(_)
            | SubcommandFault::Script(ScriptFault::Read)
    )
}

// The path of the configuration: the one that is given, or else the one that the runs name.
fn path_of_both<'b>(
    alloc: Global,
    given: Option<&'b str>,
    old: &'b ScriptInput<'_>,
    new: &'b ScriptInput<'_>,
) -> Result<Option<&'b str>, SubcommandFault>
    ensures { IfOk result (λ path. option_map (λ p. p.now) path
        ≡ first_of (configuration_path old.now (option_map (λ p. p.now) given.entry)) (configuration_path new.now (option_map (λ p. p.now) given.entry))) }
{
    match (old.config(given), new.config(given)) {
        (Some(path), Some(other)) if path != other => {
            let text = format!(in alloc;
                "the runs name two configurations, '{path}' and '{other}'; choose one by '--config FILE'"
            )?;
            Err(SubcommandFault::wrong(alloc, Subcommand::Compare, text.as_str()))
        }
        (Some(path), _) => Ok(Some(path)),
        (None, other) => Ok(other),
    }
}

// Which tenants are compared.
fn scope_of(
    alloc: Global,
    config: &Config,
    path: Option<&str>,
    name: Option<&str>,
) -> Result<Scope, SubcommandFault> {
    match name {
        Some(name) => {
            let tenant = place_of(alloc, Subcommand::Compare, config, path, name)?;
            Ok(Scope::Tenant(tenant))
        }
        None => Ok(Scope::Rig),
    }
}

// Reports why the comparison says less than it seems to, if it does because of this script.
fn report_shortfall(rt: &impl System, path: &str, course: Course) {
    if let Some(shortfall) = course.shortfall() {
        // if standard error is closed, only the status says it
        let _ = eprintln!(rt; "{path}: {shortfall}");
    }
}

// The fault if a tenant has other answers and isn't named, or if the comparison says less than it seems to.
fn outcome(comparison: &ScriptComparison) -> Result<(), SubcommandFault>
    ensures { IsOk result ↔ ((comparison.now.runs.unnamed.items ≡ []) × IsWhole comparison.now.old × IsWhole comparison.now.new) }
{
    let unnamed = comparison.runs.unnamed.as_slice();
    if unnamed.is_empty() && is_whole(comparison.old) && is_whole(comparison.new) {
        Ok(())
    } else {
        Err(SubcommandFault::Faulty)
    }
}

// Whether a script was answered to its end, and has a line of a tenant.
fn is_whole(course: Course) -> bool
    ensures { IsTrue result ↔ IsWhole course }
{
    verdict(course).is_ok()
}
