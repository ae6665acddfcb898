//! The tenant that the arguments name.

use crate::faults::SubcommandFault;
use rig_arguments::subcommands::Subcommand;
use rig_model::config::{Config, TenantId};
use std::alloc::{AllocError, Global};

/// Returns the place of the tenant with this name in the configuration.
///
/// `file` is the path of `--config`; it is `None` for the built-in configuration.
///
/// # Errors
/// `Arguments` if the configuration has no such tenant; out of memory.
pub fn place_of(
    alloc: Global,
    subcommand: Subcommand,
    config: &Config,
    file: Option<&str>,
    name: &str,
) -> Result<TenantId, SubcommandFault> {
    match config.place_of(name) {
        Some(tenant) => Ok(tenant),
        None => {
            let text = text_of_none(alloc, config, file, name)?;
            Err(SubcommandFault::wrong(alloc, subcommand, text.as_str()))
        }
    }
}

// The text that the configuration has no tenant with this name, and which it has. If it is the built-in one, `--config` may be missing.
fn text_of_none(
    alloc: Global,
    config: &Config,
    file: Option<&str>,
    name: &str,
) -> Result<String, AllocError> {
    let mut text = format!(in alloc; "the configuration has no tenant `{name}`; it has")?;
    for (place, tenant) in config.tenants().iter().enumerate() {
        let comma = if place == 0 { "" } else { "," };
        let name = tenant.name.as_str();
        write!(text, "{comma} {name}")?;
    }
    if file.is_none() {
        text.push_str("; is `--config FILE` missing?")?;
    }
    Ok(text)
}
