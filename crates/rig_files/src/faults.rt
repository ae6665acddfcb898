//! How a subcommand fails: its message on standard error, and its exit status.

ghost use Rattle.std.specs.Prelude.{◌≡◌, ◌≢◌};
ghost use Rattle.std.specs.IoError.{error_kind};
ghost use Rattle.std.specs.Process.{exit_status};
ghost use Rattle.rig_files.specs.cited.Statuses.{status_of};
ghost use Rattle.rig_files.specs.declared.faults.SubcommandFault.TheVariants.{Arguments, Configuration, Picture, Run, Script};
ghost use Rattle.rig_script.specs.declared.faults.ScriptFault.TheVariants.{Memory};
ghost use Rattle.std.specs.declared.io.ErrorKind.TheVariants.{OutOfMemory};

use crate::configuration::ConfigurationFault;
use crate::file_faults::{PictureFault, RunFileFault};
use rig_arguments::subcommands::Subcommand;
use rig_arguments::{ArgumentFault, unreadable};
use rig_script::courses::Shortfall;
use rig_script::faults::ScriptFault;
use script_reports::reports::Report;
use script_reports::runs::RunFault;
use std::alloc::{AllocError, Global};
use std::process::ExitCode;
use std::{fmt, io};

/// Why a subcommand ends with another status than 0. Its `Display` is for standard error.
#[derive(Drop)]
pub enum SubcommandFault {
    /// The arguments are wrong; the text says how.
    Arguments(clap::Error),
    /// There is no configuration.
    Configuration(ConfigurationFault),
    /// Reading or writing failed, or memory ran out, in the script or before it.
    Script(ScriptFault),
    /// A file of a picture can't be read or written.
    Picture(PictureFault),
    /// Something is wrong with a file of a run.
    Run(RunFileFault),
    /// Something is wrong with files, which is already reported.
    Faulty,
    /// A file can't be read, which is already reported.
    Unread,
    /// Something went wrong in a script; the report says what.
    Reported(Report),
    /// A report about a script says less than it seems to.
    Short(Shortfall),
}

impl SubcommandFault {
    /// Returns the fault that the subcommand's arguments are wrong, with this text, or that memory ran out.
    pub fn wrong(alloc: Global, subcommand: Subcommand, text: &str) -> SubcommandFault {
        match subcommand.error(alloc, text) {
            Ok(error) => SubcommandFault::Arguments(error),
            Err(error) => SubcommandFault::from(error),
        }
    }

    /// Returns the fault that an argument isn't UTF-8, or that memory ran out.
    pub fn unreadable(alloc: Global) -> SubcommandFault {
        match unreadable(alloc) {
            Ok(error) => SubcommandFault::Arguments(error),
            Err(error) => SubcommandFault::from(error),
        }
    }

    /// Returns the fault for a file that can't be read: this one, or that memory ran out.
    pub fn of_unread(self, error: &io::Error) -> SubcommandFault
        ensures memory { error_kind error.now ≡ OutOfMemory → result ≡ Script Memory }
        ensures unreadable { error_kind error.now ≢ OutOfMemory → result ≡ self }
    {
        match error.kind() {
            io::ErrorKind::OutOfMemory => SubcommandFault::Script(ScriptFault::Memory),
            _ => self,
        }
    }

    /// The exit status: 2 for arguments, 1 for the configuration, 4 if something is wrong with what was read, and 3 for the rest.
    pub fn status(&self) -> ExitCode
        ensures { exit_status result ≡ status_of self.now }
    {
        match self {
            SubcommandFault::Arguments(_) => ExitCode::from(2),
            SubcommandFault::Configuration(_) => ExitCode::from(1),
            SubcommandFault::Faulty | SubcommandFault::Reported(_) | SubcommandFault::Short(_) => {
                ExitCode::from(4)
            }
            SubcommandFault::Script(_)
            | SubcommandFault::Picture(_)
            | SubcommandFault::Run(_)
            | SubcommandFault::Unread => ExitCode::from(3),
        }
    }
}

impl fmt::Display for SubcommandFault {
    fn fmt<W: fmt::Write>(&self, f: &mut fmt::Formatter<W>) -> fmt::Result {
        match self {
            SubcommandFault::Arguments(error) => write!(f, "{error}"),
            SubcommandFault::Configuration(fault) => writeln!(f, "{fault}"),
            SubcommandFault::Script(fault) => writeln!(f, "{}", fault.as_str()),
            SubcommandFault::Picture(fault) => writeln!(f, "{}", fault.as_str()),
            SubcommandFault::Faulty | SubcommandFault::Unread => Ok(()),
            SubcommandFault::Run(fault) => writeln!(f, "{fault}"),
            SubcommandFault::Reported(report) => write!(f, "{}", report.as_str()),
            SubcommandFault::Short(shortfall) => writeln!(f, "{shortfall}"),
        }
    }
}

impl From<ArgumentFault> for SubcommandFault {
    ghost use Rattle.rig_arguments.specs.declared.ArgumentFault.TheVariants as argument;

    ghost from_gives = { λ fault made.
        ((error : _) → fault ≡ argument.Wrong error → made ≡ Arguments error)
        × (fault ≡ argument.Memory → made ≡ Script Memory) };

    fn from(fault: ArgumentFault) -> SubcommandFault {
        match fault {
            ArgumentFault::Wrong(error) => SubcommandFault::Arguments(error),
            ArgumentFault::Memory => SubcommandFault::Script(ScriptFault::Memory),
        }
    }
}

impl From<ConfigurationFault> for SubcommandFault {
    ghost from_gives = { λ fault made. made ≡ Configuration fault };

    fn from(fault: ConfigurationFault) -> SubcommandFault {
        SubcommandFault::Configuration(fault)
    }
}

impl From<ScriptFault> for SubcommandFault {
    ghost from_gives = { λ fault made. made ≡ Script fault };

    fn from(fault: ScriptFault) -> SubcommandFault {
        SubcommandFault::Script(fault)
    }
}

impl From<PictureFault> for SubcommandFault {
    ghost from_gives = { λ fault made. made ≡ Picture fault };

    fn from(fault: PictureFault) -> SubcommandFault {
        SubcommandFault::Picture(fault)
    }
}

impl From<RunFault> for SubcommandFault {
    ghost use Rattle.script_reports.specs.declared.runs.RunFault.TheVariants as run;
    ghost use Rattle.rig_files.specs.declared.file_faults.RunFileFault.TheVariants as file;

    ghost from_gives = { λ fault made.
        ((number : _) → fault ≡ run.NoLine number → made ≡ Run (file.NoLine number))
        × (fault ≡ run.Memory → made ≡ Script Memory) };

    fn from(fault: RunFault) -> SubcommandFault {
        match fault {
            RunFault::NoLine(number) => SubcommandFault::Run(RunFileFault::NoLine(number)),
            RunFault::Memory => SubcommandFault::Script(ScriptFault::Memory),
        }
    }
}

impl From<AllocError> for SubcommandFault {
    ghost from_gives = { λ _ made. made ≡ Script Memory };

    fn from(_error: AllocError) -> SubcommandFault {
        SubcommandFault::Script(ScriptFault::Memory)
    }
}
