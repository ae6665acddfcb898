//! The file of a server's history.

use crate::Failure;
use file_checks::head_of_history;
use rig_model::config::Config;
use rig_server::faults::ServeFault;
use std::fs::{File, OpenOptions};
use std::io;
use std::io::{ErrorKind, Write};
use std::os::unix::fs::{MetadataExt, OpenOptionsExt};

// The most histories in a folder.
const MOST_HISTORIES: u32 = 100_000;

// The permissions of a history, which has the programs and values of all tenants: its owner reads and writes it.
const ONLY_MINE: u32 = 0o600;

/// The file of a history. It takes nothing once it was removed, since nobody could read that.
#[derive(Drop)]
pub struct HistoryFile {
    file: File,
}

impl Write for HistoryFile {
    fn write(&mut self, buf: &[u8]) -> io::Result<usize> {
        if self.file.metadata()?.nlink() == 0 {
            return Err(io::Error::from(ErrorKind::NotFound));
        }
        self.file.write(buf)
    }

    fn flush(&mut self) -> io::Result<()> {
        self.file.flush()
    }
}

/// Creates a file in this folder, with the head of a history. `None` without a folder.
///
/// # Errors
/// `Memory`, or `History` if the folder can't have such a file.
pub fn history_in(
    rt: &HostRuntime,
    config: &Config,
    folder: Option<&str>,
) -> Result<Option<HistoryFile>, Failure> {
    let Some(folder) = folder else {
        return Ok(None);
    };
    let Ok(head) = head_of_history(rt.alloc(), config) else {
        return Err(Failure::Server(ServeFault::Memory));
    };
    match new_file(rt, folder, head.as_str()) {
        Ok(file) => Ok(Some(HistoryFile { file })),
        Err(_) => Err(Failure::Server(ServeFault::History)),
    }
}

// A new file in a folder, with this text. Its name is the least number that is free there, from 1 on, and `.history`.
fn new_file(rt: &HostRuntime, folder: &str, text: &str) -> io::Result<File> {
    for number in 1..=MOST_HISTORIES {
        let path = format!(in rt.alloc(); "{folder}/{number}.history")?;
        let mut options = OpenOptions::new();
        options.append(true).create_new(true).mode(ONLY_MINE);
        match options.open(rt, path.as_str()) {
            Ok(mut file) => {
                file.write_all(text.as_bytes())?;
                return Ok(file);
            }
            Err(error) if error.kind() == ErrorKind::AlreadyExists => {}
            Err(error) => return Err(error),
        }
    }
    Err(io::Error::from(ErrorKind::AlreadyExists))
}
