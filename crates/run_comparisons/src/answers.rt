//! The answers of a run.

ghost use Rattle.std.specs.Prelude.{◌≡◌, ◌++◌, [], IfOk, OnOk, codes, map, string_bytes};
ghost use Rattle.host_core.specs.HostStanding.{line_of};
ghost use Rattle.rig_model.specs.Answered.{reply_line};
ghost use Rattle.rig_model.specs.Script.{operator, past_after, text_of_lines};
ghost use Rattle.rig_model.specs.TextLines.{cut};
ghost use Rattle.rig_script.specs.BrokenOff.{ForNewHostReading};
ghost use Rattle.rig_script.specs.Courses.{IsCourseOf};
ghost use Rattle.run_comparisons.specs.Answers.{answers_at, answers_of, driven_at, run_answers, same_subject};
ghost use Rattle.run_comparisons.specs.inner.Hearing.{shown_by};

use host_core::hosts::Host;
use rig_model::config::{Config, TenantId};
use rig_script::courses::Course;
use rig_script::faults::ScriptFault;
use rig_script::listeners::{Answered, Listener};
use rig_script::speakers::Speaker;
use rig_script::{add_line_values, heard_without_output};
use std::alloc::{AllocError, Global};
use std::io::Read;
use std::marker::Model;

/// What is compared.
#[derive(Clone, Copy, Debug, PartialEq, Eq)]
pub enum Subject {
    /// The replies to the lines of the tenant at this place of the roster.
    Tenant(TenantId),
    /// The driven lines of the rig after each tick.
    Lines,
    /// The lines of the operator.
    Operator,
}

/// An answer of a run.
#[derive(Drop)]
pub struct Answer {
    subject: Subject,
    number: u64,
    // How many ticks came up to it.
    ticks: u64,
    line: String,
    reply: String,
}

impl Model for Answer {
    ghost use Rattle.std.specs.Prelude.{string_bytes};
    ghost use Rattle.run_comparisons.specs.Answers.{RunAnswer};

    ghost Value = { RunAnswer };

    ghost view = { λ a. record { subject = a.subject; number = a.number; ticks = a.ticks; line = string_bytes a.line; reply = string_bytes a.reply } };
}

impl Answer {
    /// The number of its line, counted from 1.
    pub fn number(&self) -> u64
        ensures { result ≡ self.now.number }
    {
        self.number
    }

    /// How many ticks came up to it.
    pub fn ticks(&self) -> u64
        ensures { result ≡ self.now.ticks }
    {
        self.ticks
    }

    /// Its line.
    pub fn line(&self) -> &str
        ensures { result.now ≡ self.now.line }
    {
        self.line.as_str()
    }

    /// The reply, with LF. Of a line of the operator, the line itself.
    pub fn reply(&self) -> &str
        ensures { result.now ≡ self.now.reply }
    {
        self.reply.as_str()
    }

    // Whether it is an answer of this subject.
    fn is_of(&self, subject: Subject) -> bool
        ensures { result ≡ same_subject subject self.now.subject }
    {
        match (subject, self.subject) {
            (Subject::Tenant(tenant), Subject::Tenant(other)) => tenant == other,
            (Subject::Lines, Subject::Lines) | (Subject::Operator, Subject::Operator) => true,
            _ => false,
        }
    }
}

/// The answers of a run, in their order, and how its script went.
#[derive(Drop)]
pub struct RunAnswers {
    pub answers: Vec<Answer>,
    pub course: Course,
}

/// Answers the lines of a reader as `rig_script::script` does, and returns the answers.
///
/// # Errors
/// As `script`; `Memory` also if an allocation for the answers fails.
pub fn run_answers<R: Read>(
    alloc: Global,
    reader: &mut R,
    config: &Config,
) -> Result<RunAnswers, ScriptFault>
    ensures answers { IfOk result (λ run. ForNewHostReading config.now (R.remaining reader.old) (λ setting bytes. run.answers.items ≡ run_answers setting bytes)) }
    ensures course { IfOk result (λ run. ForNewHostReading config.now (R.remaining reader.old) (λ setting bytes.
        IsCourseOf config.now bytes (R.remaining reader.new) (past_after setting [] (cut bytes)) run.course)) }
{
    let listener = AnswerListener {
        answers: Vec::new(alloc),
    };
    let (listener, course) = heard_without_output(alloc, reader, config, listener)?;
    Ok(RunAnswers {
        answers: listener.answers,
        course,
    })
}

/// Returns those of the answers that are this subject's, in their order.
///
/// # Errors
/// Out of memory.
pub fn answers_of<'a>(
    alloc: Global,
    answers: &'a [Answer],
    subject: Subject,
) -> Result<Vec<&'a Answer>, AllocError>
    ensures { IfOk result (λ found. map (λ a. a.now) found.items ≡ answers_of subject answers.now) }
{
    let mut found = Vec::new(alloc);
    for answer in answers {
        if answer.is_of(subject) {
            found.push(answer)?;
        }
    }
    Ok(found)
}

// Keeps the answers that it hears.
#[derive(Drop)]
struct AnswerListener {
    answers: Vec<Answer>,
}

impl Listener for AnswerListener {
    ghost use Rattle.std.specs.Prelude.{◌≡◌, []};
    ghost use Rattle.run_comparisons.specs.Answers.{answers_from};

    ghost heard = { λ it setting texts. it.answers.items ≡ answers_from setting [] 0 texts };

    fn hear(
        &mut self,
        alloc: Global,
        host: &mut Host,
        line: Answered<'_>,
    ) -> Result<(), AllocError> {
        add_answers(alloc, host, &line, &mut self.answers)
    }
}

// Adds the answers at a line, with the host after it.
fn add_answers(
    alloc: Global,
    host: &Host,
    line: &Answered<'_>,
    answers: &mut Vec<Answer>,
) -> Result<(), AllocError>
    ensures { OnOk result (answers.new.items ≡ answers.old.items ++ answers_at (shown_by host.now line.now)) }
{
    match line.speaker {
        Speaker::Tenant(tenant) => {
            let subject = Subject::Tenant(tenant);
            answers.push(answer_of(alloc, subject, host, line, line.reply)?)?;
        }
        Speaker::Operator => {
            let text = with_feed(alloc, line.text)?;
            answers.push(answer_of(alloc, Subject::Operator, host, line, text.as_str())?)?;
            add_driven(alloc, host, line, answers)?;
        }
        Speaker::Nobody | Speaker::Unknown => {}
    }
    Ok(())
}

// Adds the driven lines after a line, if it gave a tick.
fn add_driven(
    alloc: Global,
    host: &Host,
    line: &Answered<'_>,
    answers: &mut Vec<Answer>,
) -> Result<(), AllocError>
    ensures { OnOk result (answers.new.items ≡ answers.old.items ++ driven_at (shown_by host.now line.now)) }
{
    if line.is_instant() {
        let driven = driven_lines(alloc, host)?;
        answers.push(answer_of(alloc, Subject::Lines, host, line, driven.as_str())?)?;
    }
    Ok(())
}

// A line with its LF.
fn with_feed(alloc: Global, line: &str) -> Result<String, AllocError>
    ensures { IfOk result (λ text. string_bytes text ≡ line.now ++ codes "\n") }
{
    format!(in alloc; "{line}\n")
}

// The answer of this subject at a line, with the host after it.
fn answer_of(
    alloc: Global,
    subject: Subject,
    host: &Host,
    line: &Answered<'_>,
    reply: &str,
) -> Result<Answer, AllocError>
    ensures { IfOk result (λ answer. answer ≡ record { subject = subject; number = line.now.number; ticks = host.now.clock; line = line.now.text.now; reply = reply.now }) }
{
    Ok(Answer {
        subject,
        number: line.number,
        ticks: host.clock(),
        line: String::from_str(alloc, line.text)?,
        reply: String::from_str(alloc, reply)?,
    })
}

// The reply of this host to `op lines`: the value of each line of the rig.
fn driven_lines(alloc: Global, host: &Host) -> Result<String, AllocError>
    ensures { IfOk result (λ text. string_bytes text ≡ reply_line operator (codes "ok lines" ++ text_of_lines (line_of host.now) host.now.config.lines)) }
{
    let mut text = String::new(alloc);
    add_line_values(&mut text, host)?;
    Ok(text)
}
