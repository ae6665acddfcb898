//! Which tenants need a retest: the table of a script, its graph, and the trial of one tenant.

ghost use Rattle.std.specs.Prelude.{◌≡◌, ◌↔◌, true, IsOk, None};

use plant_couplings::couplings::Plant;
use rig_arguments::requests::{RetestRequest, TrialRequest};
use rig_arguments::subcommands::Subcommand;
use rig_files::configuration::{read_configuration, read_rig};
use rig_files::faults::SubcommandFault;
use rig_files::file_faults::PictureFault;
use rig_files::inputs::ScriptInput;
use rig_files::outputs::{is_standard, print, write_to};
use rig_files::systems::System;
use rig_files::tenants::place_of;
use rig_model::config::Config;
use rig_retests::tables::{Retests, retests_of};
use rig_retests::{TrialForm, graph_of_retests, text_of_retests, text_of_trial};
use rig_script::courses::Course;

/// Prints the table of retests of a script, and writes it as a graph, if that is requested.
///
/// If the graph goes to standard output, it is written there instead of the table.
///
/// # Errors
/// - Faults of arguments, of a run, and of the configuration with its plant.
/// - As the script, and `Graph` if the file can't be written. If the script ended by a fault, nothing is written to the file.
/// - `Short` if the script was cut off, or no line was a tenant's.
pub fn run_retest(rt: &impl System, request: &RetestRequest<'_>) -> Result<(), SubcommandFault> {
    let outputs = [request.graph];
    let input = ScriptInput::of_arguments(
        rt,
        Subcommand::Retest,
        request.config,
        request.input,
        &outputs,
    )?;
    let (config, plant) = read_rig(rt, input.config(request.config))?;
    let retests = retests_of(rt.alloc(), &mut input.reader(rt)?, &config)?;
    print_retests(rt, &config, &plant, &retests, request.graph)?;
    verdict(retests.course())
}

// Prints the table, and writes the graph.
fn print_retests(
    rt: &impl System,
    config: &Config,
    plant: &Plant,
    retests: &Retests,
    graph: Option<&str>,
) -> Result<(), SubcommandFault> {
    if !graph.is_some_and(is_standard) {
        let text = text_of_retests(rt.alloc(), config, plant, retests)?;
        print(rt, text.as_str())?;
    }
    let Some(path) = graph else {
        return Ok(());
    };
    let graph = graph_of_retests(rt.alloc(), config, plant, retests)?;
    write_to(
        rt,
        path,
        graph.as_str(),
        SubcommandFault::Picture(PictureFault::Graph),
    )
}

/// Prints the trial of a script for a tenant.
///
/// # Errors
/// Faults of arguments, of a run and of the configuration; as the script. `Short` if the script was cut off, or no line was a tenant's.
pub fn run_trial(rt: &impl System, request: &TrialRequest<'_>) -> Result<(), SubcommandFault> {
    let input = ScriptInput::of_arguments(
        rt,
        Subcommand::Trial,
        request.config,
        request.input,
        &[],
    )?;
    let path = input.config(request.config);
    let config = read_configuration(rt, path)?;
    let tenant = place_of(rt.alloc(), Subcommand::Trial, &config, path, request.tenant)?;
    let form = if request.is_summary {
        TrialForm::Summary
    } else {
        TrialForm::Listing
    };
    let trial = text_of_trial(rt.alloc(), &mut input.reader(rt)?, &config, tenant, form)?;
    print(rt, trial.text.as_str())?;
    verdict(trial.course)
}

/// Whether a report about a script says all that it seems to.
///
/// # Errors
/// `Short` if it says less.
pub(crate) fn verdict(course: Course) -> Result<(), SubcommandFault>
    ensures { IsOk result ↔ ((course.bad_line ≡ None) × (course.has_tenant ≡ true)) }
{
    match course.shortfall() {
        Some(shortfall) => Err(SubcommandFault::Short(shortfall)),
        None => Ok(()),
    }
}
