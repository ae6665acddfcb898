//! The file of a value change dump of a script, and its save file for gtkwave.
//!
//! What follows the head of the dump is written to a new file next to FILE as the run goes. At the end the head and a copy of it are written to
//! another new file, which takes FILE's place. If no file can be made there, as for standard output or a device, it is held in memory.

use rig_arguments::requests::DumpRequest;
use rig_arguments::subcommands::Subcommand;
use rig_files::faults::SubcommandFault;
use rig_files::file_faults::PictureFault;
use rig_files::inputs::ScriptInput;
use rig_files::outputs::{is_standard, write_to};
use rig_files::replacements::{ANYONE, ONLY_MINE, new_file, permissions_of, put_in_place};
use rig_files::systems::System;
use rig_model::config::Config;
use rig_reports::{ScriptDump, script_with_dump};
use rig_script::faults::ScriptFault;
use std::alloc::Global;
use std::fs::OpenFile;
use std::io::{BufWriter, ErrorKind, Read, Write};
use std::{fs, io, str};
use tenant_dumps::dumps::Dump;
use tenant_dumps::timescales::{TIMESCALE, is_timescale};

// The fault if a dump can't be written.
const UNWRITABLE: PictureFault = PictureFault::Dump;

/// Checks the timescale of a dump, if one is requested.
///
/// # Errors
/// `Arguments` if a tick can't have this duration; out of memory.
pub(crate) fn check_timescale(
    alloc: Global,
    request: Option<&DumpRequest<'_>>,
) -> Result<(), SubcommandFault> {
    let Some(timescale) = request.and_then(|it| it.timescale) else {
        return Ok(());
    };
    if is_timescale(timescale) {
        return Ok(());
    }
    let text = format!(in alloc;
        "the timescale '{timescale}' isn't 1, 10 or 100, a space, and s, ms, us, ns, ps or fs"
    )?;
    Err(SubcommandFault::wrong(alloc, Subcommand::Script, text.as_str()))
}

/// Answers a script, and writes its value change dump, with the save file if one is requested.
///
/// If one of these is written to standard output, the replies aren't printed.
///
/// # Errors
/// As the script; `Dump` or `Save` if the file can't be written. If the script ended by a fault, the file is as before.
pub(crate) fn write_dump(
    rt: &impl System,
    config: &Config,
    input: &ScriptInput<'_>,
    request: &DumpRequest<'_>,
) -> Result<(), SubcommandFault> {
    let mut reader = input.reader(rt)?;
    if is_standard(request.path) || request.save.is_some_and(is_standard) {
        return write_dump_of(rt, config, &mut reader, request);
    }
    let Ok(mut writer) = BufWriter::new(rt.alloc(), io::writer(rt)) else {
        return Err(SubcommandFault::Script(ScriptFault::Memory));
    };
    answer(rt, config, &mut reader, &mut writer, request)
}

/// Writes the value change dump of a reader's script, with the save file if one is requested. The replies aren't printed.
///
/// # Errors
/// As `write_dump`.
pub(crate) fn write_dump_of<R: Read>(
    rt: &impl System,
    config: &Config,
    reader: &mut R,
    request: &DumpRequest<'_>,
) -> Result<(), SubcommandFault> {
    answer(rt, config, reader, &mut io::sink(), request)
}

// Answers the script of a reader, and writes its dump and save file.
fn answer<R: Read, W: Write>(
    rt: &impl System,
    config: &Config,
    reader: &mut R,
    writer: &mut W,
    request: &DumpRequest<'_>,
) -> Result<(), SubcommandFault> {
    let Some((place, body)) = begin(rt, request.path)? else {
        let body: Vec<u8> = Vec::new(rt.alloc());
        let made = script_with_dump(rt.alloc(), reader, writer, config, body)?;
        return write_whole(rt, request, &made);
    };
    let written = match script_with_dump(rt.alloc(), reader, writer, config, body) {
        Ok(made) => put(rt, request, &place, &made),
        Err(fault) => Err(SubcommandFault::Script(fault)),
    };
    // at worst the new file stays
    let _ = fs::remove_file(rt, place.body.as_str());
    written
}

// Where a dump is written by way of files.
#[derive(Drop)]
struct Place {
    // The path of the dump.
    path: String,
    // Whether there is a file. Its permissions stay.
    is_there: bool,
    // The path of the new file with what follows the head.
    body: String,
}

// Makes the new file for what follows the head of a dump at this path; none if the dump is held in memory.
fn begin<R: System>(
    rt: &R,
    path: &str,
) -> Result<Option<(Place, BufWriter<R::File>)>, SubcommandFault> {
    if is_standard(path) {
        return Ok(None);
    }
    match begun(rt, path) {
        Ok(begun) => Ok(Some(begun)),
        Err(error) if error.kind() == ErrorKind::OutOfMemory => {
            Err(SubcommandFault::Script(ScriptFault::Memory))
        }
        Err(_) => Ok(None),
    }
}

fn begun<R: System>(rt: &R, path: &str) -> io::Result<(Place, BufWriter<R::File>)> {
    let (path, is_there) = place_of(rt, path)?;
    let (body, file) = new_file(rt, path.as_str(), ONLY_MINE)?;
    match BufWriter::new(rt.alloc(), file) {
        Ok(writer) => {
            let place = Place {
                path,
                is_there,
                body,
            };
            Ok((place, writer))
        }
        Err(error) => {
            let _ = fs::remove_file(rt, body.as_str());
            Err(error)
        }
    }
}

// The path without symbolic links, and whether there is a file. A file that is there has to be one that may be written.
fn place_of(rt: &impl System, path: &str) -> io::Result<(String, bool)> {
    match fs::canonicalize(rt, path) {
        Ok(place) => {
            permissions_of(rt, place.as_str())?;
            Ok((String::from_str(rt.alloc(), place.as_str())?, true))
        }
        Err(error) if error.kind() == ErrorKind::NotFound && !is_link(rt, path) => {
            Ok((String::from_str(rt.alloc(), path)?, false))
        }
        Err(error) => Err(error),
    }
}

// Whether there is something at this path, such as a symbolic link that leads nowhere.
fn is_link(rt: &impl System, path: &str) -> bool {
    fs::symlink_metadata(rt, path).is_ok()
}

// Writes a dump to its place, whose body is in a file.
fn put<F: Drop>(
    rt: &impl System,
    request: &DumpRequest<'_>,
    place: &Place,
    made: &ScriptDump<F>,
) -> Result<(), SubcommandFault> {
    let fault = SubcommandFault::Picture(UNWRITABLE);
    if !made.is_written {
        return Err(fault);
    }
    let head = made.dump.head(rt.alloc(), timescale_of(request))?;
    match place.fill(rt, head.as_str()) {
        Ok(()) => write_save(rt, request, &made.dump),
        Err(error) => Err(fault.of_unread(&error)),
    }
}

impl Place {
    // Puts the dump with this head in its place.
    fn fill(&self, rt: &impl System, head: &str) -> io::Result<()> {
        let mode = if self.is_there { ONLY_MINE } else { ANYONE };
        let (name, file) = new_file(rt, self.path.as_str(), mode)?;
        let written = self.write(rt, file, head);
        let Err(error) = put_in_place(rt, written, name.as_str(), self.path.as_str()) else {
            return Ok(());
        };
        // the fault is already known; at worst the new file stays
        let _ = fs::remove_file(rt, name.as_str());
        Err(error)
    }

    // Writes the head and the body to a new file.
    fn write<R: System>(&self, rt: &R, mut file: R::File, head: &str) -> io::Result<()> {
        file.write_all(head.as_bytes())?;
        let mut body = fs::open(rt, self.body.as_str())?;
        io::copy(&mut body, &mut file)?;
        if self.is_there {
            file.set_permissions(permissions_of(rt, self.path.as_str())?)?;
        }
        Ok(())
    }
}

// Writes a dump whose body is in memory.
fn write_whole(
    rt: &impl System,
    request: &DumpRequest<'_>,
    made: &ScriptDump<Vec<u8>>,
) -> Result<(), SubcommandFault> {
    let mut text = made.dump.head(rt.alloc(), timescale_of(request))?;
    let Ok(body) = str::from_utf8(made.body.as_slice()) else {
        return Err(SubcommandFault::Picture(UNWRITABLE));
    };
    text.push_str(body)?;
    let fault = SubcommandFault::Picture(UNWRITABLE);
    write_to(rt, request.path, text.as_str(), fault)?;
    write_save(rt, request, &made.dump)
}

fn timescale_of<'a>(request: &DumpRequest<'a>) -> &'a str {
    request.timescale.unwrap_or(TIMESCALE)
}

// Writes the save file, if one is requested. It names the dump, unless this is on standard output.
fn write_save(
    rt: &impl System,
    request: &DumpRequest<'_>,
    dump: &Dump,
) -> Result<(), SubcommandFault> {
    let Some(path) = request.save else {
        return Ok(());
    };
    let named = if is_standard(request.path) {
        None
    } else {
        Some(request.path)
    };
    let text = dump.save(rt.alloc(), named)?;
    let fault = SubcommandFault::Picture(PictureFault::Save);
    write_to(rt, path, text.as_str(), fault)
}
