//! The scripts that are read: on standard input, of a file, or of a run, whose replies are left out.
//!
//! The file of a run is read before the configuration, which it may name. Any other script is read after all else is checked.

ghost use Rattle.std.specs.Prelude.{◌≡◌, IfOk, codes, map, nat_eq, option_map, string_bytes};
ghost use Rattle.std.specs.List.{ends_with};
ghost use Rattle.script_reports.specs.cited.Runs.{configuration_of};
ghost use Rattle.script_reports.specs.cited.Updates.{updated_run};
ghost use Rattle.rig_files.specs.cited.Inputs.{AreBytesOf, IsReaderOf, IsRunOf, bytes_left, configuration_path, script_of, unread_fault};

use crate::faults::SubcommandFault;
use crate::file_faults::{PictureFault, RunFileFault};
use crate::outputs::check_outputs;
use crate::systems::System;
use rig_arguments::requests::Input;
use rig_arguments::subcommands::Subcommand;
use rig_script::faults::ScriptFault;
use script_reports::runs::{RunFault, RunLine, configuration_of, placed_script_of, read_run};
use script_reports::updates::updated_run;
use std::alloc::{AllocError, Global};
use std::io::{BufRead, BufReader, Read};
use std::{fs, io};

/// A run: its text, and the lines of its script with their replies.
#[derive(Drop)]
pub struct Run {
    pub text: String,
    pub lines: Vec<RunLine>,
    /// The script, each line with the number that it has in the run.
    pub script: String,
}

impl Run {
    /// Reads the run in the file at this path.
    ///
    /// # Errors
    /// `Run` if the file can't be read or isn't UTF-8, and as `of_text`.
    pub fn read(rt: &impl System, path: &str) -> Result<Run, SubcommandFault> {
        match fs::read_to_string(rt, path) {
            Ok(text) => Ok(Run::of_text(rt.alloc(), text)?),
            Err(error) => Err(SubcommandFault::Run(RunFileFault::Unreadable).of_unread(&error)),
        }
    }

    /// Reads the run of a text.
    ///
    /// # Errors
    /// `NoLine` for a reply that isn't right below a line of the script; `Memory`.
    pub fn of_text(alloc: Global, text: String) -> Result<Run, RunFault>
        ensures { IfOk result (IsRunOf (string_bytes text)) }
    {
        let lines = read_run(alloc, text.as_str())?;
        let script = placed_script_of(alloc, lines.as_slice())?;
        Ok(Run {
            text,
            lines,
            script,
        })
    }

    /// Returns the lines of its script, with their replies.
    pub fn lines(&self) -> &[RunLine]
        ensures { result.now ≡ self.now.lines.items }
    {
        self.lines.as_slice()
    }

    /// Returns the bytes of its script. Each line has the number that it has in the run.
    pub fn script(&self) -> &[u8]
        ensures { result.now ≡ string_bytes self.now.script }
    {
        self.script.as_str().as_bytes()
    }

    /// Returns its text with these replies in place of its own.
    ///
    /// # Errors
    /// Out of memory.
    pub fn with_replies(&self, alloc: Global, replies: &[String]) -> Result<String, AllocError>
        ensures { IfOk result (λ text. string_bytes text ≡ updated_run (string_bytes self.now.text) (map string_bytes replies.now)) }
    {
        updated_run(alloc, self.text.as_str(), replies)
    }

    /// Returns the path of the configuration that it names.
    pub fn config(&self) -> Option<&str>
        ensures { option_map (λ path. path.now) result ≡ configuration_of (string_bytes self.now.text) }
    {
        configuration_of(self.text.as_str())
    }
}

/// A script, not yet opened. A run is read already.
#[derive(Drop)]
pub enum ScriptInput<'a> {
    Standard,
    /// The file at this path.
    File(&'a str),
    Run(Run),
}

impl<'a> ScriptInput<'a> {
    /// Returns the script that the arguments name. `config` is the path of `--config`, `outputs` those of the files to write.
    ///
    /// # Errors
    /// `Arguments` if a file that is read would be overwritten; as `Run::read`.
    pub fn of_arguments(
        rt: &impl System,
        subcommand: Subcommand,
        config: Option<&str>,
        input: Input<'a>,
        outputs: &[Option<&str>],
    ) -> Result<ScriptInput<'a>, SubcommandFault> {
        check_outputs(rt, subcommand, &[config, input.path()], outputs)?;
        let script = match input {
            Input::File(path) if is_run(path) => ScriptInput::Run(Run::read(rt, path)?),
            _ => ScriptInput::of_script(input),
        };
        check_outputs(rt, subcommand, &[script.config(config)], outputs)?;
        Ok(script)
    }

    /// Returns the script of this input, which is no run.
    pub fn of_script(input: Input<'a>) -> ScriptInput<'a>
        ensures { result ≡ script_of input.entry }
    {
        match input {
            Input::Standard => ScriptInput::Standard,
            Input::File(path) => ScriptInput::File(path),
        }
    }

    /// Returns the path of the script's configuration: that of `--config`, or else the one that a run names.
    pub fn config<'b>(&'b self, given: Option<&'b str>) -> Option<&'b str>
        ensures { option_map (λ path. path.now) result ≡ configuration_path self.now (option_map (λ path. path.now) given.entry) }
    {
        match self {
            ScriptInput::Run(run) => given.or(run.config()),
            _ => given,
        }
    }

    /// Opens the script.
    ///
    /// # Errors
    /// `Script` if the file can't be read; out of memory.
    pub fn reader<'b, R: System>(
        &'b self,
        rt: &R,
    ) -> Result<ScriptReader<'b, R::Reader, R::File>, SubcommandFault>
        ensures { IfOk result (IsReaderOf self.now) }
    {
        match self.open(rt) {
            Ok(reader) => Ok(reader),
            Err(error) => Err(self.unread().of_unread(&error)),
        }
    }

    /// Opens the script, as `reader` does.
    ///
    /// # Errors
    /// Those of the file, and `OutOfMemory`.
    pub fn open<'b, R: System>(&'b self, rt: &R) -> io::Result<ScriptReader<'b, R::Reader, R::File>>
        ensures { IfOk result (IsReaderOf self.now) }
    {
        match self {
            ScriptInput::Standard => Ok(ScriptReader::Standard(rt.reader())),
            ScriptInput::File(path) => Ok(ScriptReader::File(opened(rt, path)?)),
            ScriptInput::Run(run) => Ok(ScriptReader::Run(run.script())),
        }
    }

    /// Reads the whole script, so that it can be answered more than once.
    ///
    /// # Errors
    /// As `reader`, and `Read` if standard input can't be read.
    pub fn bytes(&self, rt: &impl System) -> Result<Vec<u8>, SubcommandFault>
        ensures { IfOk result (λ bytes. AreBytesOf self.now bytes.items) }
    {
        match self.read(rt) {
            Ok(bytes) => Ok(bytes),
            Err(error) => Err(self.unread().of_unread(&error)),
        }
    }

    // The bytes of the script.
    fn read(&self, rt: &impl System) -> io::Result<Vec<u8>>
        ensures { IfOk result (λ bytes. AreBytesOf self.now bytes.items) }
    {
        let mut bytes = Vec::new(rt.alloc());
        self.open(rt)?.read_to_end(&mut bytes)?;
        Ok(bytes)
    }

    // The fault if it can't be read.
    fn unread(&self) -> SubcommandFault
        ensures { result ≡ unread_fault self.now }
    {
        match self {
            ScriptInput::File(_) => SubcommandFault::Picture(PictureFault::Script),
            _ => SubcommandFault::Script(ScriptFault::Read),
        }
    }
}

/// Whether a file with this path is a run.
pub fn is_run(path: &str) -> bool
    ensures { result ≡ ends_with nat_eq path.now (codes ".run") }
{
    path.ends_with(".run")
}

// Opens a file, and reads its first bytes: a folder can be opened, but not read. A read that was interrupted is made again later.
fn opened<R: System>(rt: &R, path: &str) -> io::Result<BufReader<R::File>> {
    let mut reader = BufReader::new(rt.alloc(), fs::open(rt, path)?)?;
    match reader.fill_buf() {
        Err(error) if error.kind() != io::ErrorKind::Interrupted => return Err(error),
        _ => {}
    }
    Ok(reader)
}

/// The reader of a script.
#[derive(Drop)]
pub enum ScriptReader<'a, I, F> {
    Standard(I),
    File(BufReader<F>),
    Run(&'a [u8]),
}

impl<'a, I: Read, F: Read> Read for ScriptReader<'a, I, F> {
    ghost remaining = { bytes_left I.remaining F.remaining };

    fn read(&mut self, buf: &mut [u8]) -> io::Result<usize> {
        match self {
            ScriptReader::Standard(reader) => reader.read(buf),
            ScriptReader::File(reader) => reader.read(buf),
            ScriptReader::Run(bytes) => bytes.read(buf),
        }
    }
}
