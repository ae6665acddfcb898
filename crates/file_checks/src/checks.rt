//! Checks of files of programs, configurations, scripts and runs.

ghost use Rattle.std.specs.Prelude.{◌≡◌, true, false, IfOk, IsOk, Err};
ghost use Rattle.file_checks.specs.inner.Reports.{IsReportOn};

use crate::notes::note_on_file;
use config_checks::check_configuration;
use giotto_reports::{Report, Wish, report_on};
use program_checks::programs::check_program;
use rig_arguments::requests::{CheckRequest, Input};
use rig_arguments::subcommands::Subcommand;
use rig_files::configuration::{ConfigurationFault, read_configuration, read_text};
use rig_files::faults::SubcommandFault;
use rig_files::inputs::{Run, ScriptInput, is_run};
use rig_files::outputs::print;
use rig_files::systems::System;
use rig_files::tenants::place_of;
use rig_model::config::faults::ConfigFault;
use rig_model::config::{Config, TenantConfig, read_config};
use rig_script::faults::ScriptFault;
use script_checks::scripts::check_script;
use script_reports::runs::RunFault;
use std::alloc::{AllocError, Global};
use std::io::BufReader;
use std::{fs, io};

/// Checks the files, in their order, and reports what is wrong with them and what they have.
///
/// Reports go to standard output. If the text of programs is requested, what is wrong is written to standard error, and the texts to
/// standard output only if all files are good. A file that can't be read is reported on standard error. If something is wrong with the
/// configuration's own file, it is reported like a checked file, and no file is checked.
///
/// # Errors
/// - Faults of arguments, if a name is no tenant's, or the text of a file that is no program is requested.
/// - The faults of the configuration.
/// - `Unread` if a file can't be read or isn't UTF-8, and else `Faulty` if something is wrong with one.
pub fn check_files(rt: &impl System, request: &CheckRequest<'_>) -> Result<(), SubcommandFault> {
    let wish = wish_of(request);
    let config = configuration_of(rt, request.config, wish)?;
    check_within(rt, &config, request, wish)
}

// Checks the files on a rig of this configuration.
fn check_within(
    rt: &impl System,
    config: &Config,
    request: &CheckRequest<'_>,
    wish: Wish,
) -> Result<(), SubcommandFault> {
    let tenant = tenant_of(rt.alloc(), config, request)?;
    if wish != Wish::Summary
        && !request
            .files
            .iter()
            .all(|file| kind_of(*file) == Kind::Program)
    {
        return Err(SubcommandFault::wrong(
            rt.alloc(),
            Subcommand::Check,
            "'--load', '--print' and '--pretty' are for files of programs",
        ));
    }
    let mut texts = String::new(rt.alloc());
    let check = Check {
        config,
        config_path: request.config,
        tenant,
        wish,
    };
    let (all_read, all_good) = check_each(rt, &check, request.files.as_slice(), &mut texts)?;
    if all_read && all_good {
        print(rt, texts.as_str())?;
    }
    outcome(all_read, all_good)
}

// What files are checked against, and what is printed of them.
#[derive(Clone, Copy)]
struct Check<'a> {
    config: &'a Config,
    // The path of `--config`. Without it, a run may name its own configuration.
    config_path: Option<&'a str>,
    tenant: Option<&'a TenantConfig>,
    wish: Wish<'a>,
}

// Checks each file. Returns whether all files were read, and whether all that were read are good. Adds the requested texts to `texts`.
fn check_each(
    rt: &impl System,
    check: &Check<'_>,
    files: &[Input<'_>],
    texts: &mut String,
) -> Result<(bool, bool), SubcommandFault> {
    let (mut all_read, mut all_good) = (true, true);
    for file in files {
        match check_file(rt, check, *file)? {
            Some(report) => {
                all_good = all_good && report.is_good;
                add_report(rt, texts, &report, check.wish)?;
            }
            None => all_read = false,
        }
    }
    Ok((all_read, all_good))
}

// What is printed of a good program.
fn wish_of<'a>(request: &CheckRequest<'a>) -> Wish<'a> {
    match request.load {
        Some(name) => Wish::Load(name),
        None if request.print => Wish::Print,
        None if request.pretty => Wish::Pretty,
        None => Wish::Summary,
    }
}

// The configuration for which files are checked. If something is wrong with its file, all of it is reported.
fn configuration_of(
    rt: &impl System,
    path: Option<&str>,
    wish: Wish,
) -> Result<Config, SubcommandFault> {
    let Some(path) = path else {
        return Ok(read_configuration(rt, None)?);
    };
    let text = read_text(rt, path)?;
    match read_config(rt.alloc(), text.as_str()) {
        Ok(config) => Ok(config),
        Err(fault) => {
            if fault != ConfigFault::Memory {
                // if the report fails, the line of standard error and the status still say it
                let _ = report_configuration(rt, path, text.as_str(), wish);
            }
            Err(SubcommandFault::Configuration(ConfigurationFault::Refused(fault)))
        }
    }
}

// Reports what is wrong with the file of a configuration.
fn report_configuration(
    rt: &impl System,
    path: &str,
    text: &str,
    wish: Wish,
) -> Result<(), SubcommandFault> {
    let report = check_configuration(rt.alloc(), path, text)?;
    write_report(rt, report.text.as_str(), wish)
}

// The result of a check, by whether all files were read, and all are good.
fn outcome(all_read: bool, all_good: bool) -> Result<(), SubcommandFault>
    ensures good { IsOk result → (all_read ≡ true) × (all_good ≡ true) }
    ensures unread { result ≡ Err SubcommandFault.Unread → all_read ≡ false }
    ensures faulty { result ≡ Err SubcommandFault.Faulty → (all_read ≡ true) × (all_good ≡ false) }
{
    if !all_read {
        return Err(SubcommandFault::Unread);
    }
    if !all_good {
        return Err(SubcommandFault::Faulty);
    }
    Ok(())
}

// Writes a report. The requested text of a good program is kept until all files are checked.
fn add_report(
    rt: &impl System,
    texts: &mut String,
    report: &Report,
    wish: Wish,
) -> Result<(), SubcommandFault> {
    let text = report.text.as_str();
    if wish != Wish::Summary && report.is_good {
        return Ok(texts.push_str(text)?);
    }
    write_report(rt, text, wish)
}

// Writes a report to standard output, or to standard error if standard output is for the text of programs.
fn write_report(rt: &impl System, text: &str, wish: Wish) -> Result<(), SubcommandFault> {
    if wish == Wish::Summary {
        return Ok(print(rt, text)?);
    }
    // if standard error is closed, only the status says it
    let _ = eprint!(rt; "{text}");
    Ok(())
}

// The kind of a file, by its name.
#[derive(Clone, Copy, Debug, PartialEq, Eq)]
enum Kind {
    Program,
    Configuration,
    Script,
    Run,
}

fn kind_of(file: Input<'_>) -> Kind {
    let Input::File(path) = file else {
        return Kind::Script;
    };
    if path.ends_with(".toml") {
        Kind::Configuration
    } else if path.ends_with(".script") {
        Kind::Script
    } else if is_run(path) {
        Kind::Run
    } else {
        Kind::Program
    }
}

// The report on a file. `None` if it can't be read, which is then reported already.
fn check_file(
    rt: &impl System,
    check: &Check<'_>,
    file: Input<'_>,
) -> Result<Option<Report>, SubcommandFault> {
    let name = file.name();
    match kind_of(file) {
        Kind::Script => check_script_of(rt, check.config, name, &ScriptInput::of_script(file)),
        Kind::Run => check_run(rt, check, name),
        Kind::Configuration | Kind::Program => check_whole(rt, check, name),
    }
}

// The report on the file of a configuration or a program.
fn check_whole(
    rt: &impl System,
    check: &Check<'_>,
    path: &str,
) -> Result<Option<Report>, SubcommandFault> {
    let text = match fs::read_to_string(rt, path) {
        Ok(text) => text,
        Err(error) => return unread(rt, path, &error),
    };
    let mut report = check_text(rt.alloc(), check, path, text.as_str())?;
    if report.is_good && kind_of(Input::File(path)) == Kind::Configuration {
        add_note(rt, path, &mut report.text)?;
    }
    Ok(Some(report))
}

// Adds the note on the file of a configuration, if there is one.
fn add_note(rt: &impl System, path: &str, text: &mut String) -> Result<(), AllocError> {
    let Some(note) = note_on_file(rt, path) else {
        return Ok(());
    };
    let line = format!(in rt.alloc(); "{path}:1:1: note: {note}\n")?;
    text.push_str(line.as_str())
}

// The report on the script of a run, with the run's configuration unless another is given.
fn check_run(
    rt: &impl System,
    check: &Check<'_>,
    path: &str,
) -> Result<Option<Report>, SubcommandFault> {
    let text = match fs::read_to_string(rt, path) {
        Ok(text) => text,
        Err(error) => return unread(rt, path, &error),
    };
    let input = match Run::of_text(rt.alloc(), text) {
        Ok(run) => ScriptInput::Run(run),
        Err(fault) => return Ok(Some(report_on_reply(rt.alloc(), path, fault)?)),
    };
    match (check.config_path, input.config(None)) {
        (None, Some(named)) => {
            let config = configuration_of(rt, Some(named), check.wish)?;
            check_script_of(rt, &config, path, &input)
        }
        _ => check_script_of(rt, check.config, path, &input),
    }
}

// The report on a run with a reply that isn't right below a line of the script.
fn report_on_reply(alloc: Global, path: &str, fault: RunFault) -> Result<Report, AllocError> {
    let RunFault::NoLine(number) = fault else {
        return Err(AllocError);
    };
    Ok(Report {
        is_good: false,
        text: format!(in alloc; "{path}:{number}:1: error: {fault}\n")?,
    })
}

// The report on a script, with this name of its file.
fn check_script_of(
    rt: &impl System,
    config: &Config,
    name: &str,
    input: &ScriptInput<'_>,
) -> Result<Option<Report>, SubcommandFault> {
    match report_on_script(rt, config, name, input) {
        Ok(report) => Ok(Some(report)),
        Err(error) => unread(rt, name, &error),
    }
}

// The report on a script, which is read line by line.
fn report_on_script(
    rt: &impl System,
    config: &Config,
    name: &str,
    input: &ScriptInput<'_>,
) -> io::Result<Report>
    ensures { IfOk result (IsReportOn config.now name.now input.now) }
{
    let mut reader = BufReader::new(rt.alloc(), input.open(rt)?)?;
    check_script(rt.alloc(), name, &mut reader, config)
}

// The report on the text of a configuration or a program.
fn check_text(
    alloc: Global,
    check: &Check<'_>,
    path: &str,
    text: &str,
) -> Result<Report, AllocError> {
    if kind_of(Input::File(path)) == Kind::Configuration {
        return check_configuration(alloc, path, text);
    }
    match check.tenant {
        Some(tenant) => check_program(alloc, path, text, check.wish, tenant),
        None => report_on(alloc, path, text, check.wish),
    }
}

// Reports that a file can't be read.
fn unread(
    rt: &impl System,
    path: &str,
    error: &io::Error,
) -> Result<Option<Report>, SubcommandFault> {
    let why = match error.kind() {
        io::ErrorKind::OutOfMemory => return Err(SubcommandFault::Script(ScriptFault::Memory)),
        io::ErrorKind::InvalidData => "isn't UTF-8",
        _ => "can't be read",
    };
    // if standard error is closed, only the status says it
    let _ = eprintln!(rt; "{path}: {why}");
    Ok(None)
}

// The tenant whose budgets programs are checked against: the one that is named, or the one that loads them.
fn tenant_of<'a>(
    alloc: Global,
    config: &'a Config,
    request: &CheckRequest<'_>,
) -> Result<Option<&'a TenantConfig>, SubcommandFault> {
    let name = match (request.load, request.tenant) {
        (Some(loader), Some(name)) => {
            if loader != name {
                return Err(SubcommandFault::wrong(
                    alloc,
                    Subcommand::Check,
                    "'--load' and '--tenant' name two tenants",
                ));
            }
            name
        }
        (Some(loader), None) => loader,
        (None, Some(name)) => name,
        (None, None) => return Ok(None),
    };
    let place = place_of(alloc, Subcommand::Check, config, request.config, name)?;
    Ok(config.tenants().get(place))
}
