//! The program of a file, as the line that sends it.

ghost use Rattle.std.specs.Prelude.{◌≡◌, ◌≢◌, ◌↔◌, ◌+◌, ◌<◌, false, true, IfOk, IfErr, IfSome, Err, length, string_bytes};
ghost use Rattle.std.specs.Option.{MatchOption, option_map};
ghost use Rattle.std.specs.Str.{IsUtf8};
ghost use Rattle.rig_model.specs.declared.limits.TheConstants.{MAX_LINE};
ghost use Rattle.rig_client.specs.Requests.{line_of_file, word_of_command};
ghost use Rattle.rig_client.specs.Findings.{AreFindingsIn, AreFindingsOn};

use crate::user_lines::FileCommand;
use giotto_reports::files::one_line;
use giotto_reports::{Report, Wish, report_on};
use rig_model::limits::MAX_LINE;
use std::alloc::{AllocError, Global};
use thiserror::Error;

/// Why the text of a file isn't sent. Its text is printed after the path.
#[derive(Clone, Copy, Debug, PartialEq, Eq, Error)]
pub enum FileFault {
    /// The file isn't there, can't be read or is a folder.
    #[error("can't be read")]
    Unreadable,
    /// With the command the text is longer than a line, which has at most 16,384 bytes.
    #[error("is too long: with its command a text has at most 16384 bytes")]
    TooLong,
    /// The file's bytes aren't UTF-8.
    #[error("isn't UTF-8")]
    NotText,
    /// Out of memory.
    #[error("finds no memory")]
    Memory,
}

impl FileFault {
    /// The text after the path in the report to the user.
    pub fn as_str(self) -> &'static str {
        match self {
            FileFault::Unreadable => "can't be read",
            FileFault::TooLong => "is too long: with its command a text has at most 16384 bytes",
            FileFault::NotText => "isn't UTF-8",
            FileFault::Memory => "finds no memory",
        }
    }
}

impl From<AllocError> for FileFault {
    ghost use Rattle.std.specs.Prelude.{◌≡◌};
    ghost use Rattle.rig_client.specs.declared.programs.FileFault.TheVariants.{Memory};

    ghost from_gives = { λ _ fault. fault ≡ Memory };

    fn from(_error: AllocError) -> FileFault {
        FileFault::Memory
    }
}

/// A place with files of programs.
pub trait ProgramFiles {
    /// Returns the bytes of the file at this path. If it has more than `most`, returns some of them, but more than `most`.
    ///
    /// # Errors
    /// `Unreadable` and `Memory`.
    fn bytes(&self, path: &str, most: usize) -> Result<Vec<u8>, FileFault>;
}

/// Returns the line that sends the text of a file with this command.
///
/// The text is in one line, without comments, and each byte of the program is in its place.
///
/// # Errors
/// `TooLong` if the line would have more than 16,384 bytes, else `NotText` if the bytes aren't UTF-8, and `Memory`.
pub fn line_of_file(
    alloc: Global,
    command: FileCommand,
    bytes: Vec<u8>,
) -> Result<String, FileFault>
    ensures line { IfOk result (λ line. string_bytes line ≡ line_of_file command bytes.items) }
    ensures too_long { (result ≡ Err FileFault.TooLong) ↔ (MAX_LINE < length (word_of_command command) + 1 + length bytes.items) }
    ensures no_text { result ≡ Err FileFault.NotText → ¬ IsUtf8 bytes.items }
    ensures fault { IfErr result (λ fault. fault ≢ FileFault.Unreadable) }
{
    let word = command.as_str();
    if bytes.len() > MAX_LINE - 1 - word.len() {
        return Err(FileFault::TooLong);
    }
    let Ok(text) = String::from_utf8(bytes) else {
        return Err(FileFault::NotText);
    };
    let line = one_line(alloc, text.as_str())?;
    Ok(format!(in alloc; "{word} {line}")?)
}

/// Returns what is wrong with the program in the file at this path, as `check` reports it. `None` if nothing is wrong, or if the file can't be
/// read any more.
///
/// # Errors
/// Out of memory.
pub fn findings_on<F: ProgramFiles>(
    alloc: Global,
    files: &F,
    path: &str,
) -> Result<Option<String>, AllocError>
    ensures { IfOk result (λ found. IfSome found (λ findings. AreFindingsOn path.now (string_bytes findings))) }
{
    match source_of(files, path)? {
        Some(source) => findings_in(alloc, path, source.as_str()),
        None => Ok(None),
    }
}

/// Returns what is wrong with the program of this text of a file, as `check` reports it. `None` if nothing is wrong.
///
/// # Errors
/// Out of memory.
pub fn findings_in(alloc: Global, path: &str, source: &str) -> Result<Option<String>, AllocError>
    ensures { IfOk result (λ found. AreFindingsIn path.now source.now (option_map string_bytes found)) }
{
    let report = report_on(alloc, path, source, Wish::Summary)?;
    Ok(faults_of(report))
}

// The text of the file at this path, if it can be read.
fn source_of<F: ProgramFiles>(files: &F, path: &str) -> Result<Option<String>, AllocError> {
    match files.bytes(path, MAX_LINE) {
        Ok(bytes) => Ok(String::from_utf8(bytes).ok()),
        Err(FileFault::Memory) => Err(AllocError),
        Err(_) => Ok(None),
    }
}

// The text of a report that isn't good.
fn faults_of(report: Report) -> Option<String>
    ensures { MatchOption result (report.is_good ≡ true) (λ text. (report.is_good ≡ false) × (text ≡ report.text)) }
{
    if report.is_good {
        None
    } else {
        Some(report.text)
    }
}
