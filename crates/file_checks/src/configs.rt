//! The configuration of a rig as one supplier may have it.

use config_checks::copies::{configuration_for, plant_in_toml};
use rig_arguments::requests::ConfigRequest;
use rig_arguments::subcommands::Subcommand;
use rig_files::configuration::read_rig;
use rig_files::faults::SubcommandFault;
use rig_files::outputs::print;
use rig_files::systems::System;
use rig_files::tenants::place_of;

/// Prints the configuration of a file as the tenant with this name may have it: the keys of all other tenants are `hidden`. The plant that it declares
/// comes last.
///
/// # Errors
/// Faults of the configuration and of its plant, `Arguments` if it has no such tenant, and `Write`; out of memory.
pub fn run_config(rt: &impl System, request: &ConfigRequest<'_>) -> Result<(), SubcommandFault> {
    let (alloc, path) = (rt.alloc(), Some(request.config));
    let (config, plant) = read_rig(rt, path)?;
    let tenant = place_of(alloc, Subcommand::Config, &config, path, request.tenant)?;
    let mut text = configuration_for(alloc, &config, tenant)?;
    text.push_str(plant_in_toml(alloc, &plant)?.as_str())?;
    Ok(print(rt, text.as_str())?)
}
