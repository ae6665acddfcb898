//! Where texts are written: to files, or to standard output if the file is `-`. A file that is read isn't overwritten.

ghost use Rattle.std.specs.Option.{option_map};
ghost use Rattle.std.specs.Prelude.{◌≡◌, codes};
ghost use Rattle.giotto_tasks.specs.Names.{same_name};
ghost use Rattle.rig_files.specs.inner.Outputs.{is_same_file};

use crate::faults::SubcommandFault;
use crate::systems::System;
use rig_arguments::subcommands::Subcommand;
use rig_script::faults::ScriptFault;
use std::alloc::AllocError;
use std::io::Write;
use std::path::PathBuf;
use std::{fs, io};

/// Whether the path of an output file means standard output.
pub fn is_standard(path: &str) -> bool
    ensures { result ≡ same_name path.now (codes "-") }
{
    path == "-"
}

/// Writes a text to a file, or to standard output if the path means that. Returns `fault` if the file can't be written.
///
/// # Errors
/// `fault`, and `Write` for standard output.
pub fn write_to(
    rt: &impl System,
    path: &str,
    text: &str,
    fault: SubcommandFault,
) -> Result<(), SubcommandFault> {
    if is_standard(path) {
        return Ok(print(rt, text)?);
    }
    match fs::write(rt, path, text) {
        Ok(()) => Ok(()),
        Err(_) => Err(fault),
    }
}

/// Writes a text to standard output.
///
/// # Errors
/// `Write`.
pub fn print(rt: &impl System, text: &str) -> Result<(), ScriptFault> {
    let mut writer = io::writer(rt);
    let Ok(()) = writer.write_all(text.as_bytes()) else {
        return Err(ScriptFault::Write);
    };
    match writer.flush() {
        Ok(()) => Ok(()),
        Err(_) => Err(ScriptFault::Write),
    }
}

/// Checks that no output file is one of the files that are read.
///
/// # Errors
/// `Arguments` if one is, by its path as given or by the path to which the system resolves it; out of memory.
pub fn check_outputs(
    rt: &impl System,
    subcommand: Subcommand,
    inputs: &[Option<&str>],
    outputs: &[Option<&str>],
) -> Result<(), SubcommandFault> {
    for output in outputs {
        if let Some(output) = output {
            check_output(rt, subcommand, inputs, output)?;
        }
    }
    Ok(())
}

// Checks that this output file isn't one of the files that are read.
fn check_output(
    rt: &impl System,
    subcommand: Subcommand,
    inputs: &[Option<&str>],
    output: &str,
) -> Result<(), SubcommandFault> {
    if is_standard(output) {
        return Ok(());
    }
    for input in inputs {
        if let Some(input) = input {
            if are_alike(rt, input, output) {
                let why = "is an input, and would be overwritten";
                return Err(wrong_file(rt, subcommand, output, why)?);
            }
        }
    }
    Ok(())
}

/// Checks that two output files aren't the same, and aren't both standard output.
///
/// # Errors
/// `Arguments` if they are; out of memory.
pub fn check_different(
    rt: &impl System,
    subcommand: Subcommand,
    one: Option<&str>,
    other: Option<&str>,
) -> Result<(), SubcommandFault> {
    let (Some(one), Some(other)) = (one, other) else {
        return Ok(());
    };
    if are_alike(rt, one, other) {
        let why = "would be written twice";
        return Err(wrong_file(rt, subcommand, other, why)?);
    }
    Ok(())
}

// Whether two paths are of one file.
fn are_alike(rt: &impl System, one: &str, other: &str) -> bool {
    let resolved_one = resolved(rt, one);
    let resolved_other = resolved(rt, other);
    is_same_file(one, other, text_of(&resolved_one), text_of(&resolved_other))
}

// The path to which the system resolves this one; `None` if there is no such file.
fn resolved(rt: &impl System, path: &str) -> Option<PathBuf> {
    fs::canonicalize(rt, path).ok()
}

fn text_of(path: &Option<PathBuf>) -> Option<&str> {
    match path {
        Some(path) => Some(path.as_str()),
        None => None,
    }
}

// Whether two paths are of one file: they are the same as given, or as they are resolved.
fn is_same_file(
    given: &str,
    other: &str,
    resolved: Option<&str>,
    other_resolved: Option<&str>,
) -> bool
    ensures { result ≡ is_same_file given.now other.now (option_map (λ p. p.now) resolved.entry) (option_map (λ p. p.now) other_resolved.entry) }
{
    if given == other {
        return true;
    }
    match (resolved, other_resolved) {
        (Some(one), Some(another)) => one == another,
        _ => false,
    }
}

// The fault of arguments with this file; the text says why.
fn wrong_file(
    rt: &impl System,
    subcommand: Subcommand,
    path: &str,
    why: &str,
) -> Result<SubcommandFault, AllocError> {
    let text = format!(in rt.alloc(); "'{path}' {why}")?;
    Ok(SubcommandFault::wrong(rt.alloc(), subcommand, text.as_str()))
}
