//! Reports on a configuration: its fault, with the tenant and the value, or what it has. [`copies`] has the configuration as one supplier
//! may have it.
//!
//! ```text
//! rig.toml:25:1: error: `steps` of the tenant `beta` is 0
//!    |
//! 25 | steps = 0
//!    | ^^^^^
//!    = help: `steps` is a number from 1 to 1000000
//! ```
//!
//! `rig_config` finds the fault. This crate only looks up whose fault it is, and where it is in the text.
//! `specs/Configurations.antt` says what is reported: `specs/Summaries.antt` and `specs/Notes.antt` for a good configuration, and
//! `specs/Faults.antt` for a fault.
#![tactic(auto)]

ghost use Rattle.std.specs.Prelude.{◌≡◌, Err, IfOk, Ok, false};
ghost use Rattle.plant_couplings.specs.Reading.{plant_of};
ghost use Rattle.rig_model.specs.config.Reading.{config_of};
ghost use Rattle.config_checks.specs.Configurations.{IsToldOf};

pub mod copies;
mod faults;
mod helps;
pub mod notes;
mod places;
mod plants;
mod summaries;
mod values;

use crate::faults::finding_of;
use crate::notes::notes_of;
use crate::plants::{add_plant_notes, finding_of_plant};
use crate::summaries::summary_of;
use giotto_reports::{Report, shown};
use plant_couplings::couplings::Plant;
use plant_couplings::faults::PlantFault;
use plant_couplings::read_plant;
use rig_model::config::faults::ConfigFault;
use rig_model::config::{Config, read_config};
use std::alloc::{AllocError, Global};

/// The report on a configuration's file with this name and this text.
///
/// If there is a fault, the report has the fault, with the tenant and the value, and if there is none but in the plant, that one. Otherwise it has
/// what the configuration has, and after that a note for each key that is easy to guess or that two tenants have, for each line that one tenant may
/// drive and another may read, and for each line that a tenant may read and to which a declared plant couples nothing.
///
/// # Errors
/// Out of memory.
pub fn check_configuration(alloc: Global, file: &str, text: &str) -> Result<Report, AllocError>
    ensures { IfOk result (IsToldOf file.now text.now) }
{
    match read_config(alloc, text) {
        Ok(config) => with_plant(alloc, file, text, &config),
        Err(ConfigFault::Memory) => Err(AllocError),
        Err(fault) => faulty(alloc, file, text, fault),
    }
}

// The report on the configuration of this text, by the plant that it declares.
fn with_plant(alloc: Global, file: &str, text: &str, config: &Config) -> Result<Report, AllocError>
    requires { config_of text.now ≡ Ok config.now }
    ensures { IfOk result (IsToldOf file.now text.now) }
{
    match read_plant(alloc, text, config.lines()) {
        Ok(plant) => good(alloc, file, text, config, &plant),
        Err(PlantFault::Memory) => Err(AllocError),
        Err(fault) => faulty_plant(alloc, file, text, config, fault),
    }
}

// The report on the configuration of this text, with this plant.
fn good(
    alloc: Global,
    file: &str,
    text: &str,
    config: &Config,
    plant: &Plant,
) -> Result<Report, AllocError>
    requires config { config_of text.now ≡ Ok config.now }
    requires plant { plant_of config.now.lines text.now ≡ Ok plant.now }
    ensures { IfOk result (IsToldOf file.now text.now) }
{
    let mut told = summary_of(alloc, file, config)?;
    let mut notes = notes_of(alloc, text, config)?;
    add_plant_notes(alloc, &mut notes, text, config, plant)?;
    told.push_str(shown(alloc, file, text, &notes)?.as_str())?;
    Ok(Report {
        is_good: true,
        text: told,
    })
}

// The report on a text whose configuration is good, and whose plant has this fault.
fn faulty_plant(
    alloc: Global,
    file: &str,
    text: &str,
    config: &Config,
    fault: PlantFault,
) -> Result<Report, AllocError>
    requires config { config_of text.now ≡ Ok config.now }
    requires plant { plant_of config.now.lines text.now ≡ Err fault }
    ensures { IfOk result (IsToldOf file.now text.now) }
{
    let finding = finding_of_plant(alloc, text, config.lines(), fault)?;
    let told = finding.shown(alloc, file, text)?;
    Ok(refused(told))
}

// The report on a text with this fault.
fn faulty(alloc: Global, file: &str, text: &str, fault: ConfigFault) -> Result<Report, AllocError>
    requires { config_of text.now ≡ Err fault }
    ensures { IfOk result (IsToldOf file.now text.now) }
{
    let finding = finding_of(alloc, text, fault)?;
    let told = finding.shown(alloc, file, text)?;
    Ok(refused(told))
}

// The report with this text on a file that isn't good.
fn refused(text: String) -> Report
    ensures { result ≡ record { is_good = false; text = text } }
{
    Report {
        is_good: false,
        text,
    }
}
