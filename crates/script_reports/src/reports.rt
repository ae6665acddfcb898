//! The report on the lines of a script: which were refused, at which a tenant was stopped by an overrun, and which ended it.

ghost use Rattle.std.specs.Prelude.{◌≡◌, ◌++◌, [], IfOk, OnOk, string_bytes};
ghost use Rattle.std.specs.List.{flat_map};
ghost use Rattle.std.specs.Option.{option_map};
ghost use Rattle.std.specs.Str.{IsCharBoundary};
ghost use Rattle.script_reports.specs.cited.Reports.{first_words, last_boundary, report_line, report_on_end, report_on_line, report_on_overrun, report_on_refusal, text_of_overrun};

use giotto_tasks::names::Name;
use std::alloc::{AllocError, Global};
use std::marker::Model;

/// At most this many bytes of a line are shown.
pub const SHOWN: usize = 40;

/// A tenant that was stopped at an instant because this task missed its deadline.
#[derive(Drop)]
pub struct Overrun {
    pub tenant: Name,
    pub task: Name,
}

/// The report on the lines of a script: a line of text for each refusal, for each overrun, and for the line that ended the
/// script. Contracts see it as its bytes.
#[derive(Drop)]
pub struct Report {
    text: String,
}

impl Model for Report {
    ghost use Rattle.std.specs.Prelude.{ℕ, List, string_bytes};

    ghost Value = { List ℕ };

    ghost view = { λ r. string_bytes r.text };
}

impl Report {
    /// A report on no lines.
    pub fn new(alloc: Global) -> Report
        ensures { result ≡ [] }
    {
        Report {
            text: String::new(alloc),
        }
    }

    /// The lines of the report, each with LF. It is empty if nothing went wrong.
    pub fn as_str(&self) -> &str
        ensures { result.now ≡ self.now }
    {
        self.text.as_str()
    }

    /// Adds a line that was answered: its number, counted from 1, its text, why it was refused, if it was, and the overruns at the instant that
    /// it gave. The refusal ends with LF.
    ///
    /// # Errors
    /// Out of memory.
    pub fn add_line(
        &mut self,
        alloc: Global,
        number: u64,
        text: &str,
        refusal: Option<&str>,
        overruns: &[Overrun],
    ) -> Result<(), AllocError>
        ensures { OnOk result (self.new ≡ self.old ++ report_on_line (record { number = number; text = text.now; refusal = option_map (λ r. r.now) refusal.entry; overruns = overruns.now })) }
    {
        let refusal = report_on_refusal(alloc, number, text, refusal)?;
        let stops = report_on_overruns(alloc, number, text, overruns)?;
        self.add(refusal.as_str())?;
        self.add(stops.as_str())
    }

    /// Adds that the line with this number was too long or not UTF-8, and ended the script.
    ///
    /// # Errors
    /// Out of memory.
    pub fn add_end(&mut self, alloc: Global, number: u64) -> Result<(), AllocError>
        ensures { OnOk result (self.new ≡ self.old ++ report_on_end number) }
    {
        let end = format!(in alloc;
            "{number}: longer than 16384 bytes or not UTF-8: it ends the script\n"
        )?;
        self.add(end.as_str())
    }

    // Adds a text at the end of the report.
    fn add(&mut self, text: &str) -> Result<(), AllocError>
        ensures { OnOk result (self.new ≡ self.old ++ text.now) }
    {
        self.text.push_str(text)
    }
}

// What is reported about a line that was refused, if it was.
fn report_on_refusal(
    alloc: Global,
    number: u64,
    line: &str,
    refusal: Option<&str>,
) -> Result<String, AllocError>
    ensures { IfOk result (λ report. string_bytes report ≡ report_on_refusal number line.now (option_map (λ r. r.now) refusal.entry)) }
{
    match refusal {
        Some(refusal) => report_line(alloc, number, line, refusal),
        None => Ok(String::new(alloc)),
    }
}

// What is reported about the overruns at the instant that a line gave.
fn report_on_overruns(
    alloc: Global,
    number: u64,
    line: &str,
    overruns: &[Overrun],
) -> Result<String, AllocError>
    ensures { IfOk result (λ report. string_bytes report ≡ flat_map (report_on_overrun number line.now) overruns.now) }
{
    let mut text = String::new(alloc);
    for overrun in overruns {
        let report = report_on_overrun(alloc, number, line, overrun)?;
        text.push_str(report.as_str())?;
    }
    Ok(text)
}

// What is reported about an overrun at the instant that a line gave.
fn report_on_overrun(
    alloc: Global,
    number: u64,
    line: &str,
    overrun: &Overrun,
) -> Result<String, AllocError>
    ensures { IfOk result (λ report. string_bytes report ≡ report_on_overrun number line.now overrun.now) }
{
    let what = text_of_overrun(alloc, overrun)?;
    report_line(alloc, number, line, what.as_str())
}

// What is reported about a line, after its number and its first words.
fn report_line(alloc: Global, number: u64, line: &str, what: &str) -> Result<String, AllocError>
    ensures { IfOk result (λ report. string_bytes report ≡ report_line number line.now what.now) }
{
    let words = first_words(alloc, line)?;
    format!(in alloc; "{number}: {words}: {what}")
}

// Says that a tenant was stopped by an overrun.
fn text_of_overrun(alloc: Global, overrun: &Overrun) -> Result<String, AllocError>
    ensures { IfOk result (λ text. string_bytes text ≡ text_of_overrun overrun.now) }
{
    let tenant = overrun.tenant.as_str();
    let task = overrun.task.as_str();
    format!(in alloc; "{tenant} stopped, overrun {task}\n")
}

/// The first words of a line: its first 40 bytes, or fewer if a character would be cut. They are followed by ` ..` if the line is
/// longer.
///
/// # Errors
/// Out of memory.
pub fn first_words(alloc: Global, line: &str) -> Result<String, AllocError>
    ensures { IfOk result (λ words. string_bytes words ≡ first_words line.now) }
{
    if line.len() <= SHOWN {
        return String::from_str(alloc, line);
    }
    let (front, _rest) = line.split_at(last_boundary(line, SHOWN));
    format!(in alloc; "{front} ..")
}

// The last place, up to `most`, at which a character begins or the text ends.
fn last_boundary(text: &str, most: usize) -> usize
    ensures place { result ≡ last_boundary text.now most }
    ensures boundary { IsCharBoundary text.now result }
{
    let mut end = most;
    while end > 0 && !text.is_char_boundary(end) {
        end -= 1;
    }
    end
}
