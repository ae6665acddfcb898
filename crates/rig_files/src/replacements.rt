//! Files whose text is replaced as a whole.

use crate::systems::System;
use std::fs::{OpenFile, OpenOptions, Permissions};
use std::io::{ErrorKind, Write};
use std::os::unix::fs::OpenOptionsExt;
use std::{fs, io};

/// The mode of a file that its owner alone may read and write.
pub const ONLY_MINE: u32 = 0o600;

/// The mode of a file that anyone may read and write, as far as the system lets them.
pub const ANYONE: u32 = 0o666;

// How many names are tried for a new file.
const MOST_NAMES: u32 = 100;

/// Replaces the text of the file at this path. If that fails, as on a full disk, the file is as before.
///
/// The text is written to a new file next to the old one, which then takes its place. The permissions stay, and so does a symbolic link: the
/// file that it leads to is replaced.
///
/// # Errors
/// Those of the system; also if the path is of no file, or of one that may not be written.
pub fn replace_text(rt: &impl System, path: &str, text: &str) -> io::Result<()> {
    let place = fs::canonicalize(rt, path)?;
    let place = place.as_str();
    let permissions = permissions_of(rt, place)?;
    let (name, file) = new_file(rt, place, ONLY_MINE)?;
    let written = write_whole(file, text, permissions);
    let Err(error) = put_in_place(rt, written, name.as_str(), place) else {
        return Ok(());
    };
    // the fault is already known; at worst the new file stays
    let _ = fs::remove_file(rt, name.as_str());
    Err(error)
}

/// Returns the permissions of the file at this path, which has to be one that may be written.
///
/// # Errors
/// Those of the system; also if the path is of no file.
pub fn permissions_of(rt: &impl System, place: &str) -> io::Result<Permissions> {
    let metadata = fs::metadata(rt, place)?;
    if !metadata.is_file() {
        return Err(io::Error::from(ErrorKind::InvalidInput));
    }
    OpenOptions::new().write(true).open(rt, place)?;
    Ok(metadata.permissions())
}

/// Makes a new file next to the one at this path, with this mode. Returns its own path too, which is this one with the least number that is
/// free there, from 1 on.
///
/// # Errors
/// Those of the system; also if 100 numbers aren't free.
pub fn new_file<R: System>(rt: &R, place: &str, mode: u32) -> io::Result<(String, R::File)> {
    for number in 1..=MOST_NAMES {
        let name = format!(in rt.alloc(); "{place}.{number}")?;
        let mut options = OpenOptions::new();
        options.write(true).create_new(true).mode(mode);
        match options.open(rt, name.as_str()) {
            Ok(file) => return Ok((name, file)),
            Err(error) if error.kind() == ErrorKind::AlreadyExists => {}
            Err(error) => return Err(error),
        }
    }
    Err(io::Error::from(ErrorKind::AlreadyExists))
}

// Writes a text to a new file, and gives it these permissions.
fn write_whole<F: Write + OpenFile + Drop>(
    mut file: F,
    text: &str,
    permissions: Permissions,
) -> io::Result<()> {
    file.write_all(text.as_bytes())?;
    file.set_permissions(permissions)?;
    file.sync_all()
}

/// Gives the file with this name its place, if it was written.
///
/// # Errors
/// That of writing it, and those of the system.
pub fn put_in_place(
    rt: &impl System,
    written: io::Result<()>,
    name: &str,
    place: &str,
) -> io::Result<()> {
    written?;
    fs::rename(rt, name, place)
}
