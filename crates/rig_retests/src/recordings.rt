//! A recorded script: its lines with their replies, and its events.

ghost use Rattle.std.specs.Prelude.{◌≡◌, ◌++◌, [], length, map, reverse, IfOk, OnOk};
ghost use Rattle.rig_model.specs.Script.{past_after};
ghost use Rattle.rig_retests.specs.inner.Recording.{recorded_as, recorded_of, unless_blank};
ghost use Rattle.rig_model.specs.TextLines.{cut};
ghost use Rattle.rig_script.specs.BrokenOff.{ForNewHostReading};
ghost use Rattle.rig_script.specs.Courses.{IsCourseOf};

use host_core::events::Event;
use host_core::hosts::Host;
use rig_model::config::Config;
use rig_script::courses::Course;
use rig_script::faults::ScriptFault;
use rig_script::listeners::{Answered, Listener};
use rig_script::speakers::Speaker;
use rig_script::{Heard, heard_script};
use std::alloc::{AllocError, Global};
use std::io;
use std::io::Read;

/// A line of a script that isn't blank.
#[derive(Drop)]
pub struct RecordedLine {
    /// Counted from 1.
    pub number: u64,
    pub text: String,
    pub speaker: Speaker,
    /// The reply to it, with LF.
    pub reply: String,
    /// The number of its events.
    ///
    /// A command of a tenant is one event, and so is an instant. `work` is one event for each job that it completed. A line that was
    /// refused before it reached the host is no event, nor is a question of the operator.
    pub events: usize,
}

/// A script as it was answered.
#[derive(Drop)]
pub struct Recording {
    pub lines: Vec<RecordedLine>,
    /// The events of all lines, the oldest first.
    pub events: Vec<Event>,
    pub course: Course,
}

/// Answers the lines of a reader as `rig_script::script` does, and records them.
///
/// # Errors
/// As `script`; `Memory` also if an allocation for the recording fails.
pub fn recorded<R: Read>(
    alloc: Global,
    reader: &mut R,
    config: &Config,
) -> Result<Recording, ScriptFault>
    ensures events { IfOk result (λ recording. ForNewHostReading config.now (R.remaining reader.old) (λ setting bytes.
        recording.events.items ≡ reverse (past_after setting [] (cut bytes)))) }
    ensures lines { IfOk result (λ recording. ForNewHostReading config.now (R.remaining reader.old) (λ setting bytes.
        map recorded_as recording.lines.items ≡ recorded_of setting bytes)) }
    ensures course { IfOk result (λ recording. ForNewHostReading config.now (R.remaining reader.old) (λ setting bytes.
        IsCourseOf config.now bytes (R.remaining reader.new) (past_after setting [] (cut bytes)) recording.course)) }
{
    let host = Host::new(alloc, config, 0)?;
    let heard = heard_script(alloc, reader, &mut io::sink(), host, Recorder::new(alloc))?;
    let Heard {
        listener,
        host: _,
        course,
    } = heard;
    let Recorder { lines, events } = listener;
    Ok(Recording {
        lines,
        events,
        course,
    })
}

// Records the lines that it hears.
#[derive(Drop)]
struct Recorder {
    lines: Vec<RecordedLine>,
    events: Vec<Event>,
}

impl Recorder {
    // A recorder that has heard nothing yet.
    fn new(alloc: Global) -> Recorder
        ensures events { result.events.items ≡ [] }
        ensures lines { result.lines.items ≡ [] }
    {
        Recorder {
            lines: Vec::new(alloc),
            events: Vec::new(alloc),
        }
    }
}

impl Listener for Recorder {
    ghost use Rattle.rig_retests.specs.inner.Recording.{IsRecorded};

    ghost heard = { λ r setting texts. IsRecorded setting r.events.items r.lines.items texts };

    fn hear(
        &mut self,
        alloc: Global,
        _host: &mut Host,
        line: Answered<'_>,
    ) -> Result<(), AllocError> {
        note(alloc, &line, &mut self.lines)?;
        add_events(&mut self.events, line.events)
    }
}

// Notes a line, unless it is blank.
fn note(alloc: Global, line: &Answered<'_>, lines: &mut Vec<RecordedLine>) -> Result<(), AllocError>
    ensures { OnOk result (map recorded_as lines.new.items ≡ map recorded_as lines.old.items ++ unless_blank
        (record { number = line.now.number; text = line.now.text.now; speaker = line.now.speaker; reply = line.now.reply.now; events = length line.now.events.items })) }
{
    if line.speaker == Speaker::Nobody {
        return Ok(());
    }
    lines.push(RecordedLine {
        number: line.number,
        text: String::from_str(alloc, line.text)?,
        speaker: line.speaker,
        reply: String::from_str(alloc, line.reply)?,
        events: line.events.len(),
    })?;
    Ok(())
}

// Appends events to those before.
fn add_events(events: &mut Vec<Event>, more: Vec<Event>) -> Result<(), AllocError>
    ensures { OnOk result (events.new.items ≡ events.old.items ++ more.items) }
{
    for event in more {
        events.push(event)?;
    }
    Ok(())
}
