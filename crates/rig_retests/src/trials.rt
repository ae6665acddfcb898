//! The trial of a script for one tenant: the part that is kept, and the tenant's answers with and without the rest.

ghost use Rattle.std.specs.Prelude.{◌≡◌, [], IfOk, string_bytes};
ghost use Rattle.rig_model.specs.Script.{past_after};
ghost use Rattle.rig_model.specs.TextLines.{cut};
ghost use Rattle.rig_script.specs.BrokenOff.{ForNewHostReading};
ghost use Rattle.rig_script.specs.Courses.{IsCourseOf};
ghost use Rattle.rig_retests.specs.inner.Texts.{text_of_fate, text_of_part};

use crate::columns::Columns;
use crate::recordings::{RecordedLine, Recording, recorded};
use crate::summaries::text_of_summary;
use crate::sums::{Sum, write_sum};
use crate::texts::{cells, name_of, shortened};
use host_core::events::Event;
use host_core::trials::{TrialOutcome, trial_outcome};
use rig_model::config::{Config, TenantId};
use rig_model::lines::words;
use rig_script::courses::Course;
use rig_script::faults::ScriptFault;
use rig_script::speakers::Speaker;
use std::alloc::{AllocError, Global};
use std::io::Read;

// The number of characters shown of a line of the script.
const LINE_WIDTH: usize = 40;

// The number of characters shown of the tasks whose completions are left out.
const TASKS_WIDTH: usize = 60;

// The greatest length of answers that are shown side by side.
const ANSWER_WIDTH: usize = 28;

/// The form in which a trial is printed.
#[derive(Clone, Copy, Debug, PartialEq, Eq)]
pub enum TrialForm {
    /// A row for each line, with the answers in both runs.
    Listing,
    /// Which tenants were left out, and how many replies were compared.
    Summary,
}

/// The text of a trial, and how its script went.
#[derive(Drop)]
pub struct TrialText {
    pub text: String,
    pub course: Course,
}

/// Runs the script of a reader, and the part of it that is kept for a tenant, and returns a text about both runs.
///
/// A listing has a row for each line, with the tenant's answers in both runs; the other form is a summary. Below follow how many lines
/// were left out, and whether the answers are the same.
///
/// # Errors
/// As `rig_script::script`.
pub fn text_of_trial<R: Read>(
    alloc: Global,
    reader: &mut R,
    config: &Config,
    tenant: TenantId,
    form: TrialForm,
) -> Result<TrialText, ScriptFault>
    ensures { IfOk result (λ told. ForNewHostReading config.now (R.remaining reader.old) (λ setting bytes.
        IsCourseOf config.now bytes (R.remaining reader.new) (past_after setting [] (cut bytes)) told.course)) }
{
    let recording = recorded(alloc, reader, config)?;
    // The events are legal and the tenant is in the roster, so it is refused only if an allocation fails.
    let Ok(trial) = trial_outcome(alloc, config, recording.events.as_slice(), tenant) else {
        return Err(ScriptFault::Memory);
    };
    let text = text_of_both(alloc, config, tenant, &recording, &trial, form)?;
    Ok(TrialText {
        text,
        course: recording.course,
    })
}

// The rows or a summary, and the lines below them.
fn text_of_both(
    alloc: Global,
    config: &Config,
    tenant: TenantId,
    recording: &Recording,
    trial: &TrialOutcome,
    form: TrialForm,
) -> Result<String, AllocError> {
    let mut sheet = Sheet::new(alloc, tenant, recording, trial)?;
    for line in &recording.lines {
        sheet.add_line(alloc, config, line)?;
    }
    let mut text = match form {
        TrialForm::Listing => sheet.columns.text(alloc)?,
        TrialForm::Summary => text_of_summary(alloc, config, recording, trial)?,
    };
    let name = name_of(config, tenant);
    let is_same = trial.whole.as_str() == trial.kept.as_str();
    write_sum(&mut text, name, &sheet.sum, is_same)?;
    if let Some(number) = recording.course.bad_line {
        writeln!(
            text,
            "Line {number} is longer than 16384 bytes or not UTF-8, and ends the script."
        )?;
    }
    Ok(text)
}

// What is left out of a line.
#[derive(Drop)]
struct LeftOut {
    // The number of events.
    number: usize,
    // The tasks of the completions among them.
    tasks: String,
}

// The rows of a trial, and the events and answers that are left for the rows to come.
#[derive(Drop)]
struct Sheet<'a> {
    tenant: TenantId,
    columns: Columns,
    events: &'a [Event],
    stays: &'a [bool],
    // The tenant's answers in both runs, each with LF.
    whole: &'a str,
    kept: &'a str,
    sum: Sum,
}

impl<'a> Sheet<'a> {
    // The sheet with its titles only.
    fn new(
        alloc: Global,
        tenant: TenantId,
        recording: &'a Recording,
        trial: &'a TrialOutcome,
    ) -> Result<Sheet<'a>, AllocError> {
        let mut columns = Columns::new(alloc);
        let titles = ["line", "is", "script", "whole run", "kept run"];
        columns.add(cells(alloc, &titles)?)?;
        Ok(Sheet {
            tenant,
            columns,
            events: recording.events.as_slice(),
            stays: trial.stays.as_slice(),
            whole: trial.whole.as_str(),
            kept: trial.kept.as_str(),
            sum: Sum::new(),
        })
    }

    // The row of a line, and two below it for long answers.
    fn add_line(
        &mut self,
        alloc: Global,
        config: &Config,
        line: &RecordedLine,
    ) -> Result<(), AllocError> {
        let left_out = self.pass(alloc, config, line.events)?;
        self.sum.add_line(line.events, left_out.number);
        let mut row = Vec::new(alloc);
        add_head(alloc, line, left_out.number, &mut row)?;
        if line.speaker == Speaker::Tenant(self.tenant) {
            return self.add_own(alloc, line, row);
        }
        add_tasks(alloc, &left_out, &mut row)?;
        self.columns.add(row)
    }

    // Passes over the events of a line, and returns what is left out of it.
    fn pass(
        &mut self,
        alloc: Global,
        config: &Config,
        events: usize,
    ) -> Result<LeftOut, AllocError> {
        let mut left_out = LeftOut {
            number: 0,
            tasks: String::new(alloc),
        };
        for _event in 0..events {
            let Some((event, later)) = self.events.split_first() else {
                return Ok(left_out);
            };
            self.events = later;
            self.sum.add_event(event);
            let Some((stays, later)) = self.stays.split_first() else {
                return Ok(left_out);
            };
            self.stays = later;
            if !*stays {
                left_out.add(config, event)?;
            }
        }
        Ok(left_out)
    }

    // Adds the row of the tenant's own line, with its answers.
    fn add_own(
        &mut self,
        alloc: Global,
        line: &RecordedLine,
        row: Vec<String>,
    ) -> Result<(), AllocError> {
        if line.events == 0 {
            let reply = words::behind_first_word(line.reply.as_str()).trim();
            return self.add_answers(alloc, row, reply, reply);
        }
        let (whole, later) = first_line(self.whole);
        self.whole = later;
        let (kept, later) = first_line(self.kept);
        self.kept = later;
        self.sum.add_answer();
        self.add_answers(alloc, row, whole, kept)
    }

    // Adds a row with two answers, side by side or one below the other.
    fn add_answers(
        &mut self,
        alloc: Global,
        mut row: Vec<String>,
        whole: &str,
        kept: &str,
    ) -> Result<(), AllocError> {
        if whole.len() <= ANSWER_WIDTH && kept.len() <= ANSWER_WIDTH {
            row.push(String::from_str(alloc, whole)?)?;
            row.push(String::from_str(alloc, kept)?)?;
            return self.columns.add(row);
        }
        self.columns.add(row)?;
        self.columns.add(cells(alloc, &["", "whole run", whole])?)?;
        self.columns.add(cells(alloc, &["", "kept run", kept])?)
    }
}

impl LeftOut {
    // Adds an event.
    fn add(&mut self, config: &Config, event: &Event) -> Result<(), AllocError> {
        self.number = self.number.saturating_add(1);
        if let Event::Done(id) = event {
            let name = name_of(config, id.tenant);
            let task = id.task.as_str();
            if !self.tasks.is_empty() {
                self.tasks.push_str(", ")?;
            }
            write!(self.tasks, "{name}.{task}")?;
        }
        Ok(())
    }
}

// What becomes of a line with `events` events, of which `left_out` are left out.
fn fate(alloc: Global, events: usize, left_out: usize) -> Result<String, AllocError>
    ensures { IfOk result (λ text. string_bytes text ≡ text_of_fate events left_out) }
{
    if events == 0 {
        return String::from_str(alloc, "-");
    }
    if left_out == 0 {
        return String::from_str(alloc, "kept");
    }
    if events <= left_out {
        return String::from_str(alloc, "left out");
    }
    part(alloc, events - left_out, events)
}

// The text that `kept` of the events of a line are kept.
fn part(alloc: Global, kept: usize, events: usize) -> Result<String, AllocError>
    ensures { IfOk result (λ text. string_bytes text ≡ text_of_part kept events) }
{
    format!(in alloc; "{kept} of {events}")
}

// A text up to its first LF, and the rest after it.
fn first_line(text: &str) -> (&str, &str) {
    match text.split_once('\n') {
        Some(parts) => parts,
        None => (text, ""),
    }
}

// The number of a line, what became of its events, and its text.
fn add_head(
    alloc: Global,
    line: &RecordedLine,
    left_out: usize,
    row: &mut Vec<String>,
) -> Result<(), AllocError> {
    let number = line.number;
    row.push(format!(in alloc; "{number:>4}")?)?;
    row.push(fate(alloc, line.events, left_out)?)?;
    row.push(shortened(alloc, line.text.as_str(), LINE_WIDTH)?)?;
    Ok(())
}

// Instead of answers, the tasks whose completions are left out.
fn add_tasks(alloc: Global, left_out: &LeftOut, row: &mut Vec<String>) -> Result<(), AllocError> {
    row.push(String::new(alloc))?;
    if left_out.tasks.is_empty() {
        return Ok(());
    }
    let tasks = shortened(alloc, left_out.tasks.as_str(), TASKS_WIDTH)?;
    let tasks = tasks.as_str();
    row.push(format!(in alloc; "without {tasks}")?)?;
    Ok(())
}
