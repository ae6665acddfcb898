//! The answers to a script, and the reports about it.

ghost use Rattle.std.specs.Prelude.{◌≡◌, ◌≢◌, ◌↔◌, [], None, IsOk};

use crate::dumps::{check_timescale, write_dump, write_dump_of};
use rig_arguments::requests::{ExpectRequest, ScriptRequest};
use rig_arguments::subcommands::Subcommand;
use rig_files::configuration::read_configuration;
use rig_files::faults::SubcommandFault;
use rig_files::file_faults::RunFileFault;
use rig_files::inputs::{Run, ScriptInput};
use rig_files::outputs::{check_different, check_outputs, is_standard, print, write_to};
use rig_files::systems::System;
use rig_model::config::Config;
use rig_reports::{answered_run, recorded_run, strict_script};
use rig_script::courses::Shortfall;
use rig_script::faults::ScriptFault;
use rig_script::script;
use script_reports::differences::text_of_differences;
use script_reports::reports::Report;
use script_reports::runs::{RunLine, configuration_of, first_line_of};
use script_reports::suites::text_of_suite;
use std::alloc::{AllocError, Global};
use std::io;
use std::io::{BufWriter, Read};

/// Answers a script, and reports about it as requested.
///
/// # Errors
/// - Faults of arguments, if a file that is read would be overwritten, or a run that is written can't name its configuration.
/// - Faults of a run, of the configuration and of the script.
/// - `Reported` and `Faulty` if something went wrong in the script.
pub fn run_script(rt: &impl System, request: &ScriptRequest<'_>) -> Result<(), SubcommandFault> {
    check_named(rt.alloc(), request)?;
    check_timescale(rt.alloc(), request.dump.as_ref())?;
    if let Some(expected) = request.expect {
        return run_expected(rt, request, &expected);
    }
    let outputs = outputs_of(request);
    check_all_different(rt, &outputs)?;
    let input = ScriptInput::of_arguments(
        rt,
        Subcommand::Script,
        request.config,
        request.input,
        &outputs,
    )?;
    let config = read_configuration(rt, input.config(request.config))?;
    match (request.strict, request.dump, request.record) {
        (false, None, None) => run_plain(rt, &config, &input),
        (true, None, None) => run_strict(rt, &config, &input),
        (false, Some(dump), None) => write_dump(rt, &config, &input, &dump),
        _ => run_with_outputs(rt, &config, request, &input),
    }
}

// The files that are written next to the replies.
fn outputs_of<'a>(request: &ScriptRequest<'a>) -> [Option<&'a str>; 4] {
    [
        request.expect.and_then(|it| it.suite),
        request.dump.map(|it| it.path),
        request.dump.and_then(|it| it.save),
        request.record,
    ]
}

// Checks that no two output files are the same.
fn check_all_different(rt: &impl System, outputs: &[Option<&str>]) -> Result<(), SubcommandFault> {
    for (place, other) in outputs.iter().enumerate() {
        for one in outputs.iter().take(place) {
            check_different(rt, Subcommand::Script, *one, *other)?;
        }
    }
    Ok(())
}

// Checks that the run that is written, if one is, can name the configuration of the arguments.
fn check_named(alloc: Global, request: &ScriptRequest<'_>) -> Result<(), SubcommandFault> {
    let (Some(_), Some(path)) = (request.record, request.config) else {
        return Ok(());
    };
    if is_nameable(alloc, path)? {
        return Ok(());
    }
    let text = format!(in alloc;
        "a run can't name the configuration '{path}', which has a line break, or blanks at an end"
    )?;
    Err(SubcommandFault::wrong(alloc, Subcommand::Script, text.as_str()))
}

// Whether a run whose first line names the configuration at this path is read as naming it.
fn is_nameable(alloc: Global, path: &str) -> Result<bool, AllocError> {
    let line = first_line_of(alloc, Some(path))?;
    match configuration_of(line.as_str()) {
        Some(named) => Ok(named == path),
        None => Ok(false),
    }
}

// Answers a script.
fn run_plain(
    rt: &impl System,
    config: &Config,
    input: &ScriptInput<'_>,
) -> Result<(), SubcommandFault> {
    let Ok(mut writer) = BufWriter::new(rt.alloc(), io::writer(rt)) else {
        return Err(SubcommandFault::Script(ScriptFault::Memory));
    };
    match input {
        ScriptInput::Standard => Ok(script(rt.alloc(), &mut rt.reader(), &mut writer, config)?),
        _ => Ok(script(rt.alloc(), &mut input.reader(rt)?, &mut writer, config)?),
    }
}

// Answers a script, and reports what went wrong in it.
fn run_strict(
    rt: &impl System,
    config: &Config,
    input: &ScriptInput<'_>,
) -> Result<(), SubcommandFault> {
    let report = strict_answers(rt, config, &mut input.reader(rt)?)?;
    verdict(report)
}

// Answers the script of a reader, and returns a report of what went wrong in it.
fn strict_answers<R: Read>(
    rt: &impl System,
    config: &Config,
    reader: &mut R,
) -> Result<Report, ScriptFault> {
    let Ok(mut writer) = BufWriter::new(rt.alloc(), io::writer(rt)) else {
        return Err(ScriptFault::Memory);
    };
    strict_script(rt.alloc(), reader, &mut writer, config)
}

// Answers a script, and writes and reports what is requested. The script is answered once for each.
fn run_with_outputs(
    rt: &impl System,
    config: &Config,
    request: &ScriptRequest<'_>,
    input: &ScriptInput<'_>,
) -> Result<(), SubcommandFault> {
    let bytes = input.bytes(rt)?;
    let configuration = input.config(request.config);
    run_bytes(rt, config, request, configuration, bytes.as_slice())
}

// The same for the bytes of a script. `configuration` is the path of the configuration.
fn run_bytes(
    rt: &impl System,
    config: &Config,
    request: &ScriptRequest<'_>,
    configuration: Option<&str>,
    bytes: &[u8],
) -> Result<(), SubcommandFault> {
    let report = printed_answers(rt, config, request, bytes)?;
    let bad_line = write_outputs(rt, config, request, configuration, bytes)?;
    if request.strict {
        verdict(report)
    } else {
        check_whole(bad_line)
    }
}

// Answers a script, and returns a report of what went wrong in it. Prints the answers, unless standard output has something else.
fn printed_answers(
    rt: &impl System,
    config: &Config,
    request: &ScriptRequest<'_>,
    mut bytes: &[u8],
) -> Result<Report, ScriptFault> {
    if outputs_of(request).iter().any(|it| is_standard_of(*it)) {
        strict_script(rt.alloc(), &mut bytes, &mut io::sink(), config)
    } else {
        strict_answers(rt, config, &mut bytes)
    }
}

// Writes the dump and the run that are requested. Returns the number of a line that ended the script and is missing in the run.
fn write_outputs(
    rt: &impl System,
    config: &Config,
    request: &ScriptRequest<'_>,
    configuration: Option<&str>,
    bytes: &[u8],
) -> Result<Option<u64>, SubcommandFault> {
    if let Some(dump) = &request.dump {
        let mut reader = bytes;
        write_dump_of(rt, config, &mut reader, dump)?;
    }
    let Some(path) = request.record else {
        return Ok(None);
    };
    let mut reader = bytes;
    write_run(rt, config, configuration, &mut reader, path)
}

// Answers a script, and writes it as a run to this path. Returns the number of a line that ended the script and is missing in the run, which
// names the path of the configuration.
fn write_run<R: Read>(
    rt: &impl System,
    config: &Config,
    configuration: Option<&str>,
    reader: &mut R,
    path: &str,
) -> Result<Option<u64>, SubcommandFault> {
    let mut text = first_line_of(rt.alloc(), configuration)?;
    let run = recorded_run(rt.alloc(), reader, config)?;
    text.push_str(run.text.as_str())?;
    let fault = SubcommandFault::Run(RunFileFault::Unwritable);
    write_to(rt, path, text.as_str(), fault)?;
    Ok(run.course.bad_line)
}

// The fault that this line ended a script and is missing in its run, if there is one.
fn check_whole(bad_line: Option<u64>) -> Result<(), SubcommandFault>
    ensures { IsOk result ↔ bad_line ≡ None }
{
    match bad_line {
        Some(number) => Err(SubcommandFault::Short(Shortfall::CutOff(number))),
        None => Ok(()),
    }
}

// The fault with this report, if the report has a line.
fn verdict(report: Report) -> Result<(), SubcommandFault>
    ensures { IsOk result ↔ report ≡ [] }
{
    if report.as_str().is_empty() {
        Ok(())
    } else {
        Err(SubcommandFault::Reported(report))
    }
}

// Answers the lines of a run, and prints what differs.
fn run_expected(
    rt: &impl System,
    request: &ScriptRequest<'_>,
    expected: &ExpectRequest<'_>,
) -> Result<(), SubcommandFault> {
    let outputs = outputs_of(request);
    check_all_different(rt, &outputs)?;
    let inputs = [request.config, Some(expected.run)];
    check_outputs(rt, Subcommand::Script, &inputs, &outputs)?;
    let run = expected_run(rt, expected.run)?;
    let path = request.config.or(run.config());
    check_outputs(rt, Subcommand::Script, &[path], &outputs)?;
    let config = read_configuration(rt, path)?;
    let bad_line = match request.record {
        Some(file) => write_run(rt, &config, path, &mut run.script(), file)?,
        None => None,
    };
    compare(rt, &config, request, expected, &run)?;
    check_whole(bad_line)
}

/// Reads the run in the file at this path, whose replies are to be compared.
///
/// # Errors
/// As `Run::read`, and `NoLines`: a run without lines, such as an empty file, would have no differences.
pub(crate) fn expected_run(rt: &impl System, path: &str) -> Result<Run, SubcommandFault> {
    let run = Run::read(rt, path)?;
    check_lines(run.lines())?;
    Ok(run)
}

// The fault that a run has no lines, if it has none.
fn check_lines(lines: &[RunLine]) -> Result<(), SubcommandFault>
    ensures { IsOk result ↔ lines.now ≢ [] }
{
    if lines.is_empty() {
        Err(SubcommandFault::Run(RunFileFault::NoLines))
    } else {
        Ok(())
    }
}

// Answers the lines of a run, prints what differs in the replies, and writes and reports what else is requested.
fn compare(
    rt: &impl System,
    config: &Config,
    request: &ScriptRequest<'_>,
    expected: &ExpectRequest<'_>,
    run: &Run,
) -> Result<(), SubcommandFault> {
    let replies = answered_run(rt.alloc(), config, run.lines())?;
    let replies = replies.as_slice();
    let differences = text_of_differences(rt.alloc(), expected.run, run.lines(), replies)?;
    if !outputs_of(request).iter().any(|it| is_standard_of(*it)) {
        print(rt, differences.as_str())?;
    }
    if let Some(path) = expected.suite {
        write_suite(rt, path, expected.run, run.lines(), replies)?;
    }
    if let Some(dump) = &request.dump {
        write_dump_of(rt, config, &mut run.script(), dump)?;
    }
    if request.strict {
        let report = strict_script(rt.alloc(), &mut run.script(), &mut io::sink(), config)?;
        verdict(report)?;
    }
    if differences.is_empty() {
        Ok(())
    } else {
        Err(SubcommandFault::Faulty)
    }
}

// Whether an output is standard output.
fn is_standard_of(output: Option<&str>) -> bool {
    output.is_some_and(is_standard)
}

// Writes what was compared into the file at this path, as a suite of tests.
fn write_suite(
    rt: &impl System,
    path: &str,
    run: &str,
    lines: &[RunLine],
    replies: &[String],
) -> Result<(), SubcommandFault> {
    let suite = text_of_suite(rt.alloc(), run, lines, replies)?;
    write_to(
        rt,
        path,
        suite.as_str(),
        SubcommandFault::Run(RunFileFault::Suite),
    )
}
