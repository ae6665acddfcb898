//! The arguments of the program: which it takes, with their help, and the requests that they make.
#![tactic(auto)]

mod arguments;
pub mod requests;
pub mod subcommands;

use clap::error::ErrorKind;
use clap::{Command, Error};
use requests::{Request, request_of};
use std::alloc::{AllocError, Global};
use subcommands::Subcommand;

// The version of the program, and the logic in which it is proved. `rt version` prints the logic after the name of the kit.
const VERSION: &str = "0.1.0 (logic dac8208d650f15bf)";

/// Why there is no request.
#[derive(Drop)]
pub enum ArgumentFault {
    /// The arguments are wrong; the text says how.
    Wrong(Error),
    /// Out of memory.
    Memory,
}

impl From<AllocError> for ArgumentFault {
    ghost use Rattle.std.specs.Prelude.{◌≡◌};
    ghost use Rattle.rig_arguments.specs.declared.ArgumentFault.TheVariants.{Memory};

    ghost from_gives = { λ _ fault. fault ≡ Memory };

    fn from(_error: AllocError) -> ArgumentFault {
        ArgumentFault::Memory
    }
}

/// Returns the request that these arguments make. The first is the program's own name.
///
/// # Errors
/// `Wrong` if the program takes no such arguments, and `Memory`.
pub fn read_arguments<'a>(
    alloc: Global,
    words: &'a [String],
) -> Result<Request<'a>, ArgumentFault> {
    match program(alloc)?.try_get_matches_from(words) {
        Ok(matches) => Ok(request_of(alloc, &matches)?),
        Err(error) => without_matches(error),
    }
}

/// Returns the message for arguments that aren't UTF-8.
///
/// # Errors
/// Out of memory.
pub fn unreadable(alloc: Global) -> Result<Error, AllocError> {
    program(alloc)?.error(ErrorKind::ValueValidation, "an argument isn't UTF-8")
}

// The command line of the program, with all subcommands.
fn program<'a>(alloc: Global) -> Result<Command<'a>, AllocError> {
    let mut program = Command::new(alloc, "rig_host")
        .about(
            "A host for shared test rigs: tenants load, run and inspect Giotto programs, and an operator gives the instants",
        )
        .after_help("Example: rig_host script examples/first/first.script")
        .version(VERSION)
        .subcommand_required(true);
    for subcommand in &Subcommand::ALL {
        program = program.subcommand(subcommand.command(alloc)?)?;
    }
    Ok(program)
}

// The request that arguments without matches make, or how they are wrong.
fn without_matches<'a>(error: Error) -> Result<Request<'a>, ArgumentFault> {
    match error.kind() {
        ErrorKind::DisplayHelp | ErrorKind::DisplayVersion => Ok(Request::Text(error)),
        ErrorKind::OutOfMemory => Err(ArgumentFault::Memory),
        _ => Err(ArgumentFault::Wrong(error)),
    }
}
