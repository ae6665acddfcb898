//! The report on a script, whose lines are read one after the other.

ghost use Rattle.std.specs.Prelude.{◌≡◌, ◌+◌, ℕ, List, [], ◌∷◌, ◌++◌, IfOk, OnOk, length, string_bytes};
ghost use Rattle.std.specs.Io.BufRead.{ends_with_byte, strip_last};
ghost use Rattle.rig_model.specs.config.Roster.{Rig};
ghost use Rattle.script_checks.specs.Reports.{Adds, IsReportOf, IsReportOfAll, told_first};
ghost use Rattle.script_checks.specs.Told.{findings_in};
ghost use Rattle.script_checks.specs.inner.Reading.{AreChecked, IsNextLine};

use crate::binds::GrantLines;
use crate::line_texts::{LineEnd, shown_in_line};
use crate::lines::{Found, examine_line};
use giotto_faults::findings::Finding;
use giotto_reports::Report;
use rig_model::config::Config;
use std::alloc::{AllocError, Global};
use std::io;
use std::io::BufRead;

/// The report on the script that a reader gives, with this name of its file. It is good exactly if no line is at fault.
///
/// The report has each line at fault, with its number and the place in the line. After these, it has a note for each bind that
/// grants nothing in this script. The script is read line by line, and nothing more is read after a line without LF. Of the lines, only the
/// names of loaded and offered ports are kept, each once, and the offers and binds that get a note as far as was read.
///
/// # Errors
/// Those of the reader, and `OutOfMemory`.
pub fn check_script<R: BufRead>(
    alloc: Global,
    file: &str,
    reader: &mut R,
    config: &Config,
) -> io::Result<Report>
    ensures { IfOk result (IsReportOfAll config.now file.now (R.remaining reader.old)) }
{
    let script = Script { file, config };
    let mut checked = CheckedLines::new(alloc);
    let mut line = Vec::new(alloc);
    for count in 0..usize::MAX {
        let is_whole = read_line(reader, &mut line)?;
        if !is_whole && line.is_empty() {
            return Ok(checked.report(alloc, &script, count)?);
        }
        checked.add(alloc, &script, count + 1, line.as_slice())?;
        if !is_whole {
            return Ok(checked.report(alloc, &script, count + 1)?);
        }
    }
    // no reader has that many lines
    Err(io::Error::from(io::ErrorKind::OutOfMemory))
}

// Puts the next line, without its LF, into `line`, in place of what was there. Returns whether it had an LF; if not, it is the last.
fn read_line<R: BufRead>(reader: &mut R, line: &mut Vec<u8>) -> io::Result<bool>
    ensures { IfOk result (λ whole. IsNextLine (R.remaining reader.old) (R.remaining reader.new) whole line.new.items) }
{
    line.clear();
    reader.read_until(b'\n', line)?;
    Ok(remove_lf(line))
}

// Removes the LF at the end of a line. Returns whether there was one.
fn remove_lf(line: &mut Vec<u8>) -> bool
    ensures whole { result ≡ ends_with_byte 10 line.old.items }
    ensures line { line.new.items ≡ strip_last 10 line.old.items }
{
    let len = line.len();
    let is_whole = len > 0 && line[len - 1] == b'\n';
    if is_whole {
        line.truncate(len - 1);
    }
    is_whole
}

// The file of a script, and the configuration of the rig on which it will run.
#[derive(Clone, Copy)]
struct Script<'a> {
    file: &'a str,
    config: &'a Config,
}

// What was found in the lines that were read.
#[derive(Drop)]
struct CheckedLines {
    is_good: bool,
    // what is reported about the lines at fault
    faults: String,
    grants: GrantLines,
}

impl CheckedLines {
    // No line was read.
    fn new(alloc: Global) -> CheckedLines
        ensures { (config : Rig) (file : List ℕ) → AreChecked config file [] result }
    {
        CheckedLines {
            is_good: true,
            faults: String::new(alloc),
            grants: GrantLines::new(alloc),
        }
    }

    // One more line, which has this number.
    fn add(
        &mut self,
        alloc: Global,
        script: &Script,
        number: usize,
        line: &[u8],
    ) -> Result<(), AllocError>
        ensures { (lines : List (List ℕ)) → length lines + 1 ≡ number → AreChecked script.now.config.now script.now.file.now lines self.old
            → OnOk result (AreChecked script.now.config.now script.now.file.now (lines ++ line.now ∷ []) self.new) }
    {
        match examine_line(alloc, script.config, line)? {
            Some(found) => {
                self.is_good = false;
                add_found(alloc, &mut self.faults, script.file, (number, line), &found)?;
            }
            None => {}
        }
        self.grants.add(alloc, script.config, number, line)
    }

    // The report on a script of these lines, of which there are `count`.
    fn report(self, alloc: Global, script: &Script, count: usize) -> Result<Report, AllocError>
        ensures { (lines : List (List ℕ)) → length lines ≡ count → AreChecked script.now.config.now script.now.file.now lines self
            → IfOk result (IsReportOf script.now.config.now script.now.file.now lines) }
    {
        let mut text = told_first(alloc, script.file, count, self.is_good)?;
        text.push_str(self.faults.as_str())?;
        self.grants
            .add_notes(alloc, &mut text, script.file, script.config)?;
        Ok(Report {
            is_good: self.is_good,
            text,
        })
    }
}

// Says how many lines a script has, if no line is at fault.
fn told_first(alloc: Global, file: &str, lines: usize, is_good: bool) -> Result<String, AllocError>
    ensures { IfOk result (λ text. string_bytes text ≡ told_first file.now lines is_good) }
{
    if is_good {
        format!(in alloc; "{file}: lines {lines}\n")
    } else {
        Ok(String::new(alloc))
    }
}

// Adds what was found in the line with this number.
fn add_found(
    alloc: Global,
    text: &mut String,
    file: &str,
    line: (usize, &[u8]),
    found: &Found,
) -> Result<(), AllocError>
    ensures { OnOk result (Adds file.now (findings_in line.entry.0 line.entry.1.now found.now.before found.now.findings.items) (string_bytes text.old) (string_bytes text.new)) }
{
    let (number, line) = line;
    let end = LineEnd {
        number,
        line,
        before: found.before,
    };
    add_findings(alloc, text, file, &end, found.findings.as_slice())
}

// Adds findings about the end of a line.
fn add_findings(
    alloc: Global,
    text: &mut String,
    file: &str,
    end: &LineEnd,
    findings: &[Finding],
) -> Result<(), AllocError>
    ensures { OnOk result (Adds file.now (findings_in end.now.number end.now.line.now end.now.before findings.now) (string_bytes text.old) (string_bytes text.new)) }
{
    for finding in findings {
        let told = shown_in_line(alloc, file, end, finding)?;
        text.push_str(told.as_str())?;
    }
    Ok(())
}
