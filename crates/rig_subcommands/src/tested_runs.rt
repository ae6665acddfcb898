//! Tests of runs: their lines are answered again, and the replies compared.

ghost use Rattle.std.specs.Prelude.{◌≡◌, ◌<◌, ◌↔◌, Err, IfOk, IsOk, string_bytes};
ghost use Rattle.rig_files.specs.declared.faults.SubcommandFault.TheVariants.{Faulty, Unread};
ghost use Rattle.rig_subcommands.specs.inner.TestedRuns.{counted, is_of_files, summary, text_of_outcome};

use crate::scripts::expected_run;
use plant_couplings::faults::PlantFault;
use rig_arguments::requests::TestRequest;
use rig_arguments::subcommands::Subcommand;
use rig_files::configuration::{ConfigurationFault, read_configuration};
use rig_files::faults::SubcommandFault;
use rig_files::file_faults::RunFileFault;
use rig_files::inputs::Run;
use rig_files::outputs::{check_outputs, print};
use rig_files::replacements::replace_text;
use rig_files::systems::System;
use rig_model::config::faults::ConfigFault;
use rig_reports::answered_run;
use script_reports::differences::text_of_differences;
use std::alloc::{AllocError, Global};

// How the test of a run ended.
#[derive(Clone, Copy)]
enum Outcome {
    // Each reply is the one that the run has.
    AsRecorded,
    // A reply is another one.
    Different,
    // A reply was another one, and the run has it now.
    Updated,
}

impl Outcome {
    // Its words.
    fn text(self) -> &'static str
        ensures { result.now ≡ text_of_outcome self }
    {
        match self {
            Outcome::AsRecorded => "as recorded",
            Outcome::Different => "different",
            Outcome::Updated => "different, updated",
        }
    }
}

// How many tests ended in each way, and how many runs can't be read or have no configuration.
#[derive(Clone, Copy)]
struct Tally {
    as_recorded: usize,
    different: usize,
    updated: usize,
    not_run: usize,
}

impl Tally {
    // Counts one more test. `None` is a run that can't be read or has no configuration.
    fn count(&mut self, outcome: Option<Outcome>)
        ensures { self.new ≡ counted outcome self.old }
    {
        match outcome {
            Some(Outcome::AsRecorded) => self.as_recorded = self.as_recorded.saturating_add(1),
            Some(Outcome::Different) => self.different = self.different.saturating_add(1),
            Some(Outcome::Updated) => self.updated = self.updated.saturating_add(1),
            None => self.not_run = self.not_run.saturating_add(1),
        }
    }

    // The last line of the tests.
    fn summary(self, alloc: Global) -> Result<String, AllocError>
        ensures { IfOk result (λ text. string_bytes text ≡ summary self) }
    {
        let Tally {
            as_recorded,
            different,
            updated,
            not_run,
        } = self;
        format!(in alloc;
            "test: {as_recorded} as recorded, {different} different, {updated} updated, {not_run} not run\n"
        )
    }

    // The fault of the tests: `Unread` if a run can't be read or has no configuration, and else `Faulty` if one is different.
    fn verdict(self) -> Result<(), SubcommandFault>
        ensures good { IsOk result ↔ ((self.not_run ≡ 0) × (self.different ≡ 0)) }
        ensures not_run { 0 < self.not_run → result ≡ Err Unread }
        ensures different { self.not_run ≡ 0 → 0 < self.different → result ≡ Err Faulty }
    {
        if self.not_run > 0 {
            return Err(SubcommandFault::Unread);
        }
        if self.different > 0 {
            return Err(SubcommandFault::Faulty);
        }
        Ok(())
    }
}

/// Answers the lines of each run on a new rig. Prints what differs from the replies of the run, whether the run is as recorded, and at the end
/// how many are. If that is requested, a run that is different gets the replies that came.
///
/// A run that can't be read, or whose configuration can't, is reported on standard error, and the others are still tested.
///
/// # Errors
/// - `Unread` if a run can't be read or has no configuration, and else `Faulty` if one is different and isn't updated.
/// - `Arguments` if the file of a configuration would be overwritten; `Write` for standard output; out of memory.
pub fn run_test(rt: &impl System, request: &TestRequest<'_>) -> Result<(), SubcommandFault> {
    check_runs(rt, request)?;
    let mut tally = Tally {
        as_recorded: 0,
        different: 0,
        updated: 0,
        not_run: 0,
    };
    for path in request.runs.as_slice() {
        let outcome = outcome_of(rt, request, path)?;
        tally.count(outcome);
    }
    print(rt, tally.summary(rt.alloc())?.as_str())?;
    tally.verdict()
}

// Checks before any test that no run that may be updated is the configuration of the arguments.
fn check_runs(rt: &impl System, request: &TestRequest<'_>) -> Result<(), SubcommandFault> {
    if !request.update {
        return Ok(());
    }
    for path in request.runs.as_slice() {
        check_outputs(rt, Subcommand::Test, &[request.config], &[Some(*path)])?;
    }
    Ok(())
}

// Tests the run in the file at this path. `None` if it can't be read or has no configuration, which is then reported already.
fn outcome_of(
    rt: &impl System,
    request: &TestRequest<'_>,
    path: &str,
) -> Result<Option<Outcome>, SubcommandFault> {
    let fault = match test(rt, request, path) {
        Ok(outcome) => return Ok(Some(outcome)),
        Err(fault) => fault,
    };
    if !is_of_files(&fault) {
        return Err(fault);
    }
    report(rt, path, &fault);
    Ok(None)
}

// Whether a fault is one of the files of a run: the run itself, or its configuration.
fn is_of_files(fault: &SubcommandFault) -> bool
    ensures { result ≡ is_of_files fault.now }
{
    match fault {
        SubcommandFault::Run(_) => true,
        SubcommandFault::Configuration(ConfigurationFault::Refused(ConfigFault::Memory)) => false,
        SubcommandFault::Configuration(ConfigurationFault::Plant(PlantFault::Memory)) => false,
        SubcommandFault::Configuration(_) => true,
        _ => false,
    }
}

/// Reports a fault of a file on standard error, after the file's path.
pub(crate) fn report(rt: &impl System, path: &str, fault: &SubcommandFault) {
    // if standard error is closed, only the status says it
    let _ = eprint!(rt; "{path}: {fault}");
}

// Tests the run in the file at this path, and prints how that ended.
fn test(
    rt: &impl System,
    request: &TestRequest<'_>,
    path: &str,
) -> Result<Outcome, SubcommandFault> {
    let run = expected_run(rt, path)?;
    let named = request.config.or(run.config());
    let config = read_configuration(rt, named)?;
    let replies = answered_run(rt.alloc(), &config, run.lines())?;
    let differences = text_of_differences(rt.alloc(), path, run.lines(), replies.as_slice())?;
    print(rt, differences.as_str())?;
    let outcome = if differences.is_empty() {
        Outcome::AsRecorded
    } else if request.update {
        check_outputs(rt, Subcommand::Test, &[named], &[Some(path)])?;
        update(rt, path, &run, replies.as_slice())?
    } else {
        Outcome::Different
    };
    let line = format!(in rt.alloc(); "{path}: {}\n", outcome.text())?;
    print(rt, line.as_str())?;
    Ok(outcome)
}

// Writes the replies that came into the file of a run. If it can't be written, it is as before, that is reported, and the run is still
// different.
fn update(
    rt: &impl System,
    path: &str,
    run: &Run,
    replies: &[String],
) -> Result<Outcome, SubcommandFault> {
    let text = run.with_replies(rt.alloc(), replies)?;
    let Err(error) = replace_text(rt, path, text.as_str()) else {
        return Ok(Outcome::Updated);
    };
    let fault = SubcommandFault::Run(RunFileFault::Unwritable).of_unread(&error);
    if !is_of_files(&fault) {
        return Err(fault);
    }
    report(rt, path, &fault);
    Ok(Outcome::Different)
}
