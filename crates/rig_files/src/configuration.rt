//! The configuration of the rig: the built-in one, or that of a file.

ghost use Rattle.std.specs.Prelude.{◌≡◌, IfOk, None};
ghost use Rattle.plant_couplings.specs.Couplings.{undeclared};
ghost use Rattle.rig_model.specs.config.BuiltIn.{built_in_config};
ghost use Rattle.rig_files.specs.declared.configuration.ConfigurationFault.TheVariants.{Refused, Plant};

use crate::systems::System;
use plant_couplings::couplings::Plant;
use plant_couplings::faults::PlantFault;
use plant_couplings::read_plant;
use rig_model::config::faults::ConfigFault;
use rig_model::config::{Config, built_in, read_config};
use std::{fmt, fs, io};

/// Why there is no configuration. Its `Display` is the line of standard error.
#[derive(Drop)]
pub enum ConfigurationFault {
    /// The file isn't there, can't be read, or isn't UTF-8.
    Unreadable,
    /// The file's text is no configuration, or memory ran out.
    Refused(ConfigFault),
    /// Something is wrong with the plant that it declares.
    Plant(PlantFault),
}

impl fmt::Display for ConfigurationFault {
    fn fmt<W: fmt::Write>(&self, f: &mut fmt::Formatter<W>) -> fmt::Result {
        match self {
            ConfigurationFault::Unreadable => write!(f, "config: unreadable"),
            ConfigurationFault::Refused(why) => match why.field() {
                Some(field) => write!(f, "config: {} {}", why.reason(), field.word()),
                None => write!(f, "config: {}", why.reason()),
            },
            ConfigurationFault::Plant(why) => write!(f, "config: plant: {why}"),
        }
    }
}

impl From<ConfigFault> for ConfigurationFault {
    ghost from_gives = { λ fault made. made ≡ Refused fault };

    fn from(fault: ConfigFault) -> ConfigurationFault {
        ConfigurationFault::Refused(fault)
    }
}

impl From<PlantFault> for ConfigurationFault {
    ghost from_gives = { λ fault made. made ≡ Plant fault };

    fn from(fault: PlantFault) -> ConfigurationFault {
        ConfigurationFault::Plant(fault)
    }
}

impl From<io::Error> for ConfigurationFault {
    ghost use Rattle.std.specs.Prelude.{◌≡◌, ◌≢◌};
    ghost use Rattle.std.specs.IoError.{error_kind};
    ghost use Rattle.std.specs.declared.io.ErrorKind.TheVariants.{OutOfMemory};
    ghost use Rattle.rig_model.specs.declared.config.faults.ConfigFault.TheVariants.{Memory};
    ghost use Rattle.rig_files.specs.declared.configuration.ConfigurationFault.TheVariants.{Refused, Unreadable};

    ghost from_gives = { λ error made.
        (error_kind error ≡ OutOfMemory → made ≡ Refused Memory) × (error_kind error ≢ OutOfMemory → made ≡ Unreadable) };

    fn from(error: io::Error) -> ConfigurationFault {
        match error.kind() {
            io::ErrorKind::OutOfMemory => ConfigurationFault::Refused(ConfigFault::Memory),
            _ => ConfigurationFault::Unreadable,
        }
    }
}

/// Returns the configuration in the file at this path, or the built-in one if there is no path.
///
/// # Errors
/// Each fault of the file or of its text, and out of memory.
pub fn read_configuration(
    rt: &impl System,
    path: Option<&str>,
) -> Result<Config, ConfigurationFault>
    ensures built_in { path.entry ≡ None → IfOk result (λ config. config ≡ built_in_config) }
{
    let Some(path) = path else {
        return match built_in(rt.alloc()) {
            Ok(config) => Ok(config),
            Err(_) => Err(ConfigurationFault::Refused(ConfigFault::Memory)),
        };
    };
    let text = read_text(rt, path)?;
    Ok(read_config(rt.alloc(), text.as_str())?)
}

/// Returns the configuration in the file at this path with the plant that it declares, or the built-in one, which declares none, if there is no
/// path.
///
/// # Errors
/// As `read_configuration`, then those of the plant.
pub fn read_rig(rt: &impl System, path: Option<&str>) -> Result<(Config, Plant), ConfigurationFault>
    ensures built_in { path.entry ≡ None → IfOk result (λ rig. rig.0 ≡ built_in_config) }
    ensures undeclared { path.entry ≡ None → IfOk result (λ rig. rig.1 ≡ undeclared) }
{
    let Some(path) = path else {
        return Ok((read_configuration(rt, None)?, Plant::undeclared()));
    };
    let text = read_text(rt, path)?;
    let config = read_config(rt.alloc(), text.as_str())?;
    let plant = read_plant(rt.alloc(), text.as_str(), config.lines())?;
    Ok((config, plant))
}

/// Returns the text of the file at this path.
///
/// # Errors
/// `Unreadable`, and out of memory.
pub fn read_text(rt: &impl System, path: &str) -> Result<String, ConfigurationFault> {
    Ok(fs::read_to_string(rt, path)?)
}
