//! Reports on a program's file: what the program has, or what is wrong with it and where.
//!
//! [`report_on`] reads the text of a file, with its line ends and comments, as the host would read it in a `load`:
//!
//! ```text
//! let report = report_on(alloc, "controller.giotto", source, Wish::Summary)?;
//! print!(rt; "{}", report.text)?;
//! ```
//!
//! [`examine`] returns the program that a text spells, or the findings about the text. It is for callers that need to know more
//! about a program than that it is well-formed. `specs/Reports.antt` says when a text is good: exactly if `read` and `check`
//! accept its program.
#![tactic(auto)]

ghost use Rattle.std.specs.Prelude.{◌≡◌, ◌++◌, ◌∷◌, [], IfOk, Ok, None, string_bytes};
ghost use Rattle.giotto_reports.specs.Comments.{one_line};
ghost use Rattle.giotto_breaks.specs.rules.Rules.{first_broken_rule};
ghost use Rattle.giotto_breaks.specs.text.Parsing.{parsed};
ghost use Rattle.giotto_reports.specs.Reports.{AreShown, IsExamined, IsWritten, Tells};

pub mod files;
mod layout;
pub mod parts;
pub mod summary;
pub mod texts;

use crate::files::one_line;
use crate::summary::summary_of;
use crate::texts::{load_line, pretty};
use giotto_breaks::broken_rule;
use giotto_check::{CheckFault, Checked, check};
use giotto_faults::faults::{ProgramFault, read_or_tell};
use giotto_faults::findings::Finding;
use giotto_read::{Program, print};
use std::alloc::{AllocError, Global};

/// What to write about a good program.
#[derive(Clone, Copy, Debug, PartialEq, Eq)]
pub enum Wish<'a> {
    /// What it has, in a few lines.
    Summary,
    /// The line of a script with which this tenant loads it.
    Load(&'a str),
    /// Its canonical text.
    Print,
    /// Its text, laid out over many lines.
    Pretty,
}

/// The report on a file.
#[derive(Drop)]
pub struct Report {
    /// Whether nothing is wrong with the file.
    pub is_good: bool,
    /// For a good file, the wished text. For any other file, what is wrong with it, as findings in the form of a compiler's
    /// messages. Each line ends with an LF.
    pub text: String,
}

/// What a text was found to be.
#[derive(Drop)]
pub enum Examined {
    /// It spells this well-formed program.
    Good(Checked),
    /// It spells no well-formed program, as at least one finding reports.
    Faulty(Vec<Finding>),
}

/// The report on a program's file with this name and this text.
///
/// # Errors
/// Out of memory.
pub fn report_on(alloc: Global, file: &str, source: &str, wish: Wish) -> Result<Report, AllocError>
    ensures { IfOk result (λ report. Tells file.now source.now wish.entry report) }
{
    let text = one_line(alloc, source)?;
    match examine(alloc, text.as_str(), source)? {
        Examined::Good(checked) => Ok(Report {
            is_good: true,
            text: written(alloc, &checked, wish)?,
        }),
        Examined::Faulty(findings) => Ok(Report {
            is_good: false,
            text: shown(alloc, file, source, &findings)?,
        }),
    }
}

/// The well-formed program that a text spells, or the findings about the text. `source` is the text as it is in its file, with
/// the same bytes in the same places except for line ends and comments.
///
/// # Errors
/// Out of memory.
pub fn examine(alloc: Global, text: &str, source: &str) -> Result<Examined, AllocError>
    ensures { IfOk result (IsExamined text.now) }
{
    match read_or_tell(alloc, text) {
        Ok(program) => by_rules(alloc, program, text),
        Err(ProgramFault::Memory) => Err(AllocError),
        Err(fault) => {
            let finding = fault.finding(alloc, text, source)?;
            let mut findings = Vec::new(alloc);
            findings.push(finding)?;
            Ok(Examined::Faulty(findings))
        }
    }
}

// Examines the program that this text spells.
fn by_rules(alloc: Global, program: Program, text: &str) -> Result<Examined, AllocError>
    requires { parsed text.now ≡ Ok program }
    ensures { IfOk result (IsExamined text.now) }
{
    match broken_rule(alloc, &program, text)? {
        Some(broken) => Ok(Examined::Faulty(broken.findings)),
        None => Ok(Examined::Good(checked(alloc, program)?)),
    }
}

// The program, checked.
fn checked(alloc: Global, program: Program) -> Result<Checked, AllocError>
    requires { first_broken_rule program ≡ None }
    ensures { IfOk result (λ checked. checked ≡ program) }
{
    match check(alloc, program) {
        Ok(checked) => Ok(checked),
        Err((_, CheckFault::Memory)) => Err(AllocError),
        Err((_, CheckFault::Rule(_))) => unreachable!(),
    }
}

/// The wished text about a well-formed program. Each line ends with an LF.
///
/// # Errors
/// Out of memory.
pub fn written(alloc: Global, checked: &Checked, wish: Wish) -> Result<String, AllocError>
    ensures { IfOk result (λ text. IsWritten wish.entry checked.now (string_bytes text)) }
{
    match wish {
        Wish::Summary => summary_of(alloc, checked),
        Wish::Load(tenant) => ended(load_line(alloc, tenant, checked.program())?),
        Wish::Print => ended(print(alloc, checked.program())?),
        Wish::Pretty => pretty(alloc, checked.program()),
    }
}

/// Findings as text, one below the other. `source` is the text of the file.
///
/// # Errors
/// Out of memory.
pub fn shown(
    alloc: Global,
    file: &str,
    source: &str,
    findings: &[Finding],
) -> Result<String, AllocError>
    ensures { IfOk result (λ text. AreShown file.now source.now findings.now (string_bytes text)) }
{
    let mut text = String::new(alloc);
    for finding in findings {
        let told = finding.shown(alloc, file, source)?;
        text.push_str(told.as_str())?;
    }
    Ok(text)
}

// The line with its end.
fn ended(line: String) -> Result<String, AllocError>
    ensures { IfOk result (λ text. string_bytes text ≡ string_bytes line ++ 10 ∷ []) }
{
    let mut line = line;
    line.push_str("\n")?;
    Ok(line)
}
