//! What is wrong with a line of a script, judged by its text alone.

ghost use Rattle.std.specs.Prelude.{◌≡◌, ◌≢◌, ◌-◌, ◌<◌, true, false, Some, IfOk, IfSome, get_or, length, option_map};
ghost use Rattle.rig_model.specs.TextLines.{text_of_line, without_last_cr};
ghost use Rattle.rig_model.specs.lines.CommandLine.{command_of_line};
ghost use Rattle.rig_model.specs.lines.Words.{behind_first_word};
ghost use Rattle.script_checks.specs.Scripts.{fault_of_command, fault_of_line, fault_of_program};
ghost use Rattle.script_checks.specs.Told.{IsOneFinding, TellLine, TellProgram};
ghost use Rattle.script_checks.specs.inner.Telling.{IsFound, TellCommand};

use crate::line_texts::one_finding;
use crate::operators::fault_of_operator;
use giotto_faults::findings::Finding;
use giotto_reports::{Examined, examine};
use program_checks::budgets::{Held, over_budget};
use rig_model::config::{Config, TenantConfig};
use rig_model::limits::MAX_LINE;
use rig_model::lines::command_lines::{LineFault as CommandFault, command_of};
use rig_model::lines::commands::Command;
use rig_model::lines::words;
use rig_model::speakers::{Speaker, who_speaks};
use std::alloc::{AllocError, Global};

/// What is wrong with a line of a script.
#[derive(Clone, Copy, Debug, PartialEq, Eq)]
pub(crate) enum LineFault {
    /// It has more than 16,384 bytes. It ends the script.
    TooLong,
    /// It isn't UTF-8. It ends the script.
    NotText,
    /// It begins with a word that is neither `op` nor a tenant's name.
    UnknownSpeaker,
    /// It has none of the forms of a command, or of an operator's line.
    BadCommand,
    /// A tick has more or fewer values than the rig has lines.
    BadFrame,
    /// It names a tenant whose jobs are to be completed, and no tenant has that name.
    UnknownTenant,
    /// The text of a `load` or a `replace` spells no well-formed program, or one that exceeds a budget of the tenant.
    Program,
}

/// What was found in a line.
#[derive(Drop)]
pub(crate) struct Found {
    pub(crate) fault: LineFault,
    /// How many bytes of the line's text come before what the findings are about. Their offsets count from there.
    pub(crate) before: usize,
    /// In their order.
    pub(crate) findings: Vec<Finding>,
}

/// What is wrong with a line, judged by its text alone, if anything is.
///
/// # Errors
/// Out of memory.
pub(crate) fn examine_line(
    alloc: Global,
    config: &Config,
    line: &[u8],
) -> Result<Option<Found>, AllocError>
    ensures fault { IfOk result (λ found. IsFound found (fault_of_line config.now line.now)) }
    ensures told { IfOk result (λ found. IfSome found (TellLine config.now line.now)) }
{
    let Some(text) = text_of_line(line) else {
        let fault = if line.len() > MAX_LINE {
            LineFault::TooLong
        } else {
            LineFault::NotText
        };
        return one_found(alloc, config, "", fault);
    };
    match who_speaks(config, text) {
        Speaker::Nobody => Ok(None),
        Speaker::Unknown => one_found(alloc, config, text, LineFault::UnknownSpeaker),
        Speaker::Operator => {
            match fault_of_operator(alloc, config, words::behind_first_word(text))? {
                Some(fault) => one_found(alloc, config, text, fault),
                None => Ok(None),
            }
        }
        Speaker::Tenant(tenant) => match config.tenants().get(tenant) {
            Some(tenant) => examine_command(alloc, config, tenant, text),
            None => unreachable!(),
        },
    }
}

/// The text of a line without one CR at its end, if the line is UTF-8 and has at most 16,384 bytes.
pub(crate) fn text_of_line(line: &[u8]) -> Option<&str>
    ensures { option_map (λ text. text.now) result ≡ text_of_line line.now }
{
    if line.len() > MAX_LINE {
        return None;
    }
    match std::str::from_utf8(line) {
        Ok(text) => Some(without_last_cr(text)),
        Err(_) => None,
    }
}

// The text without one CR at its end.
fn without_last_cr(text: &str) -> &str
    ensures { result.now ≡ without_last_cr text.now }
{
    if ends_with_cr(text.as_bytes()) {
        &text[..text.len() - 1]
    } else {
        text
    }
}

fn ends_with_cr(text: &[u8]) -> bool
    ensures cr { result ≡ true → (0 < length text.now) × (get_or text.now (length text.now - 1) 0 ≡ 13) }
    ensures none { result ≡ false → text.now ≡ without_last_cr text.now }
{
    let len = text.len();
    len > 0 && text[len - 1] == b'\r'
}

// What is wrong with the line of this tenant, if anything is.
fn examine_command(
    alloc: Global,
    config: &Config,
    tenant: &TenantConfig,
    line: &str,
) -> Result<Option<Found>, AllocError>
    ensures fault { IfOk result (λ found. IsFound found (fault_of_command tenant.now.budgets (command_of_line (behind_first_word line.now)))) }
    ensures told { IfOk result (λ found. IfSome found (TellCommand config.now tenant.now line.now)) }
{
    match command_of(alloc, words::behind_first_word(line)) {
        Ok(Command::Load(text)) | Ok(Command::Replace(text)) => examine_program(
            alloc,
            tenant,
            line,
            text.as_str(),
        ),
        Ok(_) => Ok(None),
        Err(CommandFault::BadCommand) => one_found(alloc, config, line, LineFault::BadCommand),
        Err(CommandFault::Memory) => Err(AllocError),
    }
}

// What is wrong with the program in the text with which a line ends, if anything is.
#[tactic(auto, using(crate::proofs::Deciding::refused_text, crate::proofs::Deciding::over_text))]
fn examine_program(
    alloc: Global,
    tenant: &TenantConfig,
    line: &str,
    text: &str,
) -> Result<Option<Found>, AllocError>
    ensures fault { IfOk result (λ found. IsFound found (fault_of_program tenant.now.budgets text.now)) }
    ensures told { IfOk result (λ found. IfSome found (TellProgram tenant.now line.now text.now)) }
{
    match examine(alloc, text, text)? {
        Examined::Faulty(findings) => Ok(Some(found_at_end(line, text, findings))),
        Examined::Good(checked) => {
            let held = Held {
                tenant,
                checked: &checked,
                bytes: text.len(),
            };
            match over_budget(alloc, &held, text)? {
                Some(over) => Ok(Some(found_at_end(line, text, over.findings))),
                None => Ok(None),
            }
        }
    }
}

// The findings about the text with which a line ends.
fn found_at_end(line: &str, text: &str, findings: Vec<Finding>) -> Found
    ensures { result ≡ record { fault = LineFault.Program; before = length line.now - length text.now; findings = findings } }
{
    Found {
        fault: LineFault::Program,
        before: line.len().saturating_sub(text.len()),
        findings,
    }
}

// This fault of a line, with the finding that reports it.
fn one_found(
    alloc: Global,
    config: &Config,
    line: &str,
    fault: LineFault,
) -> Result<Option<Found>, AllocError>
    requires { fault ≢ LineFault.Program }
    ensures fault { IfOk result (λ found. IsFound found (Some fault)) }
    ensures told { IfOk result (λ found. IfSome found (IsOneFinding config.now line.now)) }
{
    let mut findings = Vec::new(alloc);
    findings.push(one_finding(alloc, config, line, fault)?)?;
    Ok(Some(Found {
        fault,
        before: 0,
        findings,
    }))
}
