//! A script with the replies to its lines, as a run.

ghost use Rattle.std.specs.Prelude.{◌≡◌, ◌++◌, ◌∷◌, [], nat_eq, IfOk, OnOk, string_bytes};
ghost use Rattle.std.specs.List.{ends_with};
ghost use Rattle.rig_model.specs.Script.{past_after};
ghost use Rattle.rig_model.specs.TextLines.{cut};
ghost use Rattle.rig_reports.specs.inner.RecordedRuns.{before_reply, before_word, end_of_line, recorded_line, recorded_run_of};
ghost use Rattle.rig_script.specs.BrokenOff.{ForNewHostReading};
ghost use Rattle.rig_script.specs.Courses.{IsCourseOf};

use host_core::hosts::Host;
use rig_model::config::Config;
use rig_model::lines::words;
use rig_script::courses::Course;
use rig_script::faults::ScriptFault;
use rig_script::heard_without_output;
use rig_script::listeners::{Answered, Listener};
use std::alloc::{AllocError, Global};
use std::io::Read;

/// The run of a script, and how the script went.
#[derive(Drop)]
pub struct RecordedRun {
    pub text: String,
    pub course: Course,
}

/// Answers the lines of a reader as `rig_script::script` does, and returns the script as a run: each line with LF, and the reply to it below.
///
/// Blanks before the first word of a line are left out, and a blank is added before a `#`, since replies and remarks of a run begin so. A CR is
/// added after one at the end of a line. The host gives the same reply to such a line.
///
/// # Errors
/// As `script`; `Memory` also if an allocation for the run fails.
pub fn recorded_run<R: Read>(
    alloc: Global,
    reader: &mut R,
    config: &Config,
) -> Result<RecordedRun, ScriptFault>
    ensures text { IfOk result (λ run. ForNewHostReading config.now (R.remaining reader.old) (λ setting bytes. string_bytes run.text ≡ recorded_run_of setting bytes)) }
    ensures course { IfOk result (λ run. ForNewHostReading config.now (R.remaining reader.old) (λ setting bytes.
        IsCourseOf config.now bytes (R.remaining reader.new) (past_after setting [] (cut bytes)) run.course)) }
{
    let listener = RunListener {
        text: String::new(alloc),
    };
    let (listener, course) = heard_without_output(alloc, reader, config, listener)?;
    Ok(RecordedRun {
        text: listener.text,
        course,
    })
}

// Keeps the lines that it hears, with their replies.
#[derive(Drop)]
struct RunListener {
    text: String,
}

impl Listener for RunListener {
    ghost use Rattle.std.specs.Prelude.{◌≡◌, [], string_bytes};
    ghost use Rattle.rig_reports.specs.inner.RecordedRuns.{recorded_from};

    ghost heard = { λ it setting texts. string_bytes it.text ≡ recorded_from setting [] texts };

    fn hear(
        &mut self,
        _alloc: Global,
        _host: &mut Host,
        line: Answered<'_>,
    ) -> Result<(), AllocError> {
        add_line(&mut self.text, line.text, line.reply)
    }
}

// Adds a line with the reply to it.
fn add_line(text: &mut String, line: &str, reply: &str) -> Result<(), AllocError>
    ensures { OnOk result (string_bytes text.new ≡ string_bytes text.old ++ recorded_line line.now reply.now) }
{
    let (word, rest) = words::cut(line);
    let blank = before_word(word);
    let end = end_of_line(line);
    let blanks = before_reply(reply);
    write!(text, "{blank}{word}{rest}{end}{blanks}{reply}")
}

// What comes before a line whose first word is this.
fn before_word(word: &str) -> &'static str
    ensures { result.now ≡ before_word word.now }
{
    match word.as_bytes() {
        [b'#', ..] => " ",
        _ => "",
    }
}

// The end of a line. The last CR before LF isn't read.
fn end_of_line(line: &str) -> &'static str
    ensures { result.now ≡ end_of_line line.now }
{
    if has_cr(line) { "\r\n" } else { "\n" }
}

// Whether a line has a CR at its end.
fn has_cr(line: &str) -> bool
    ensures { result ≡ ends_with nat_eq line.now (13 ∷ []) }
{
    line.ends_with("\r")
}

// What comes before a reply.
fn before_reply(reply: &str) -> &'static str
    ensures { result.now ≡ before_reply reply.now }
{
    if reply.is_empty() { "" } else { "    " }
}
