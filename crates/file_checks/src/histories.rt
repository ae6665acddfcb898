//! Histories: their head, which a server writes, and their audit.

ghost use Rattle.std.specs.Prelude.{◌≡◌, ◌++◌, ◌↔◌, IfOk, IsOk, IsTrue, codes, string_bytes};
ghost use Rattle.file_checks.specs.inner.Histories.{difference, error_at, good_part, head_of_history, is_good, last_line, text_of_audit, text_of_head_fault};

use config_checks::copies::configuration_for;
use rig_arguments::requests::{AuditRequest, Input};
use rig_arguments::subcommands::Subcommand;
use rig_files::configuration::ConfigurationFault;
use rig_files::faults::SubcommandFault;
use rig_files::outputs::print;
use rig_files::systems::System;
use rig_files::tenants::place_of;
use rig_history::audits::{Audited, Stop, audit};
use rig_model::config::{Config, TenantId, read_config};
use rig_script::faults::ScriptFault;
use script_reports::runs::after_first_line;
use std::alloc::{AllocError, Global};
use std::io::Read;
use std::{fs, io};

// The first line of a history.
const TITLE: &str = "rig_host history 1";

// What is between a history's configuration and its entries.
const ENTRIES: &str = "\nentries\n";

// The number of the first instant of a server.
const FIRST_TICK: u64 = 0;

// Why a text has no head of a history.
#[derive(Clone, Copy)]
enum HeadFault {
    // Its first line isn't the title.
    NoTitle,
    // It has no line `entries`.
    NoEntries,
}

/// Returns what a server's history begins with: a title, the configuration with all keys hidden, and the line `entries`.
///
/// # Errors
/// Out of memory.
pub fn head_of_history(alloc: Global, config: &Config) -> Result<String, AllocError>
    ensures { IfOk result (λ head. string_bytes head ≡ head_of_history config.now) }
{
    let copy = configuration_for(alloc, config, config.tenants().len())?;
    // the first line says for whom the copy is
    let toml = after_first_line(copy.as_str());
    format!(in alloc; "{TITLE}\n{toml}{ENTRIES}")
}

/// Plays a history on a new rig, and prints whether each entry is what that rig gives, with each reply; or the first that isn't. If a tenant
/// is named, its commands come first, each with its reply below.
///
/// A history whose last entry is cut off is good up to there.
///
/// # Errors
/// - `Read` if the file can't be read or isn't UTF-8, and `Write`; out of memory.
/// - `Faulty` if it has no head, or an entry isn't what the rig gives.
/// - Faults of its configuration, and `Arguments` if that has no such tenant.
pub fn run_audit(rt: &impl System, request: &AuditRequest<'_>) -> Result<(), SubcommandFault> {
    let (alloc, name) = (rt.alloc(), request.input.name());
    let text = text_of(rt, request.input)?;
    let (toml, entries) = match parts_of(text.as_str()) {
        Ok(parts) => parts,
        Err(fault) => {
            print(rt, text_of_head_fault(alloc, name, fault)?.as_str())?;
            return Err(SubcommandFault::Faulty);
        }
    };
    let config = match read_config(alloc, toml) {
        Ok(config) => config,
        Err(fault) => {
            return Err(SubcommandFault::from(ConfigurationFault::Refused(fault)));
        }
    };
    let tenant = tenant_of(alloc, &config, request)?;
    let first_line = lines_before(text.as_str(), entries);
    let audited = audit(alloc, &config, FIRST_TICK, first_line, tenant, entries)?;
    print(rt, text_of_audit(alloc, name, &audited)?.as_str())?;
    verdict(&audited.stop)
}

// The text of an input.
fn text_of(rt: &impl System, input: Input<'_>) -> Result<String, SubcommandFault> {
    let read = match input.path() {
        Some(path) => fs::read_to_string(rt, path),
        None => io::read_to_string(rt.alloc(), rt.reader()),
    };
    match read {
        Ok(text) => Ok(text),
        Err(error) => Err(SubcommandFault::Script(ScriptFault::Read).of_unread(&error)),
    }
}

// The tenant whose calls are printed, if one is named. The configuration is the one in the history.
fn tenant_of(
    alloc: Global,
    config: &Config,
    request: &AuditRequest<'_>,
) -> Result<Option<TenantId>, SubcommandFault> {
    match request.tenant {
        Some(name) => {
            let history = Some(request.input.name());
            Ok(Some(place_of(alloc, Subcommand::Audit, config, history, name)?))
        }
        None => Ok(None),
    }
}

// The configuration of a history, with an LF before it, and the entries.
fn parts_of(text: &str) -> Result<(&str, &str), HeadFault>
    ensures { IfOk result (λ parts. text.now ≡ codes "rig_host history 1" ++ (parts.0.now ++ (codes "\nentries\n" ++ parts.1.now))) }
{
    let Some(rest) = text.strip_prefix(TITLE) else {
        return Err(HeadFault::NoTitle);
    };
    if !rest.starts_with('\n') {
        return Err(HeadFault::NoTitle);
    }
    match rest.split_once(ENTRIES) {
        Some(parts) => Ok(parts),
        None => Err(HeadFault::NoEntries),
    }
}

// What is printed of a text without the head of a history.
fn text_of_head_fault(alloc: Global, name: &str, fault: HeadFault) -> Result<String, AllocError>
    ensures { IfOk result (λ text. string_bytes text ≡ text_of_head_fault name.now fault) }
{
    match fault {
        HeadFault::NoTitle => error_at(alloc, name, 1, "isn't the head of a history"),
        HeadFault::NoEntries => format!(in alloc;
            "{name}: error: the history has no line `entries`: it is cut off in its head\n"
        ),
    }
}

// The number of the first line of `rest`, which ends the text, counted from 1.
fn lines_before(text: &str, rest: &str) -> u64 {
    let all = text.split('\n').count() as u64;
    let later = rest.split('\n').count() as u64;
    all.saturating_sub(later).saturating_add(1)
}

// What is printed of an audit: the calls, and the last line.
fn text_of_audit(alloc: Global, name: &str, audited: &Audited) -> Result<String, AllocError>
    ensures { IfOk result (λ text. string_bytes text ≡ text_of_audit name.now audited.now) }
{
    let last = last_line(alloc, name, audited)?;
    format!(in alloc; "{}{}", audited.calls.as_str(), last.as_str())
}

fn last_line(alloc: Global, name: &str, audited: &Audited) -> Result<String, AllocError>
    ensures { IfOk result (λ line. string_bytes line ≡ last_line name.now audited.now.entries audited.now.replies audited.now.stop) }
{
    match &audited.stop {
        None => {
            let good = good_part(alloc, audited.entries, audited.replies)?;
            format!(in alloc; "{}\n", good.as_str())
        }
        Some(Stop::Cut { line }) => {
            let good = good_part(alloc, audited.entries, audited.replies)?;
            format!(in alloc;
                "{}; line {line} begins an entry that is cut off\n",
                good.as_str()
            )
        }
        Some(
            Stop::Differs {
                line,
                found,
                computed,
            },
        ) => {
            let what = difference(alloc, found.as_str(), computed.as_str())?;
            error_at(alloc, name, *line, what.as_str())
        }
        Some(Stop::NoEntry { line }) => error_at(alloc, name, *line, "begins no entry"),
        Some(Stop::Refused { line }) => {
            error_at(alloc, name, *line, "begins an entry that the rig refuses")
        }
    }
}

fn good_part(alloc: Global, entries: u64, replies: u64) -> Result<String, AllocError>
    ensures { IfOk result (λ text. string_bytes text ≡ good_part entries replies) }
{
    format!(in alloc; "audit: {entries} entries, {replies} replies, all as computed")
}

fn difference(alloc: Global, found: &str, computed: &str) -> Result<String, AllocError>
    ensures { IfOk result (λ text. string_bytes text ≡ difference found.now computed.now) }
{
    format!(in alloc; "is `{found}`, and the rig gives `{computed}`")
}

// The line of an error, which says what is wrong with a line of the history.
fn error_at(alloc: Global, name: &str, line: u64, what: &str) -> Result<String, AllocError>
    ensures { IfOk result (λ text. string_bytes text ≡ error_at name.now line what.now) }
{
    format!(in alloc; "{name}:{line}: error: this line {what}\n")
}

// The fault of a history in which a line isn't what the rig gives.
fn verdict(stop: &Option<Stop>) -> Result<(), SubcommandFault>
    ensures { IsOk result ↔ IsTrue (is_good stop.now) }
{
    match stop {
        None | Some(Stop::Cut { line: _ }) => Ok(()),
        _ => Err(SubcommandFault::Faulty),
    }
}
