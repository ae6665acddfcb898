//! Notes on the file of a configuration: who may read it, and the keys that are soon guessed.

use config_checks::notes::note_on_key;
use rig_files::systems::System;
use rig_model::config::Config;
use std::alloc::AllocError;
use std::fs;
use std::os::unix::fs::PermissionsExt;

// The bit of a file's mode that lets everybody read it.
const READ_BY_ALL: u32 = 0o004;

/// The note that everybody may read the file at this path, in which the keys are. `None` if not everybody may, or the system doesn't say.
pub(crate) fn note_on_file(rt: &impl System, path: &str) -> Option<&'static str> {
    let Ok(metadata) = fs::metadata(rt, path) else {
        return None;
    };
    if metadata.permissions().mode() & READ_BY_ALL == 0 {
        return None;
    }
    Some("every user of this machine can read the keys in it")
}

/// Writes the notes on a configuration that is used, and on its file at this path, to standard error. Without a path it is the built-in
/// one, on which there are none.
///
/// # Errors
/// Out of memory.
pub fn print_notes(
    rt: &impl System,
    path: Option<&str>,
    config: &Config,
) -> Result<(), AllocError> {
    let Some(path) = path else {
        return Ok(());
    };
    if let Some(note) = note_on_file(rt, path) {
        print_note(rt, path, note);
    }
    for tenant in config.tenants() {
        if let Some(note) = note_on_key(rt.alloc(), tenant)? {
            print_note(rt, path, note.as_str());
        }
    }
    Ok(())
}

// Writes a note. If standard error is closed, the note is dropped.
fn print_note(rt: &impl System, path: &str, note: &str) {
    let _ = eprintln!(rt; "{path}: note: {note}");
}
