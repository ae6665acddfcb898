//! The audit of a text: whether a new host gives it.

ghost use Rattle.std.specs.Prelude.{◌≡◌, ◌↔◌, ◌++◌, if◌then◌else◌, [], IfOk, None, OnOk, length, string_bytes, take};
ghost use Rattle.host_core.specs.HostStanding.{Stands};
ghost use Rattle.rig_history.specs.Audits.{IsHistoryText, calls_in, is_call_of};
ghost use Rattle.rig_history.specs.inner.Auditing.{HasPlayed, IsFront, first_setting};
ghost use Rattle.rig_model.specs.Base.{new_base};

use crate::asked::{asked_by, give};
use crate::entries::add_entry;
use host_core::hosts::Host;
use rig_model::config::{Config, TenantId};
use rig_model::logged::Logged;
use std::alloc::{AllocError, Global};

/// Why the history in a text ends before the text does. Lines are counted from the number that the first one has.
#[derive(Drop)]
pub enum Stop {
    /// The text ends within the entry that begins at this line.
    Cut {
        line: u64,
    },
    /// This line isn't the one that the host gives. Without their LF, `found` is the line of the text, and `computed` the one that the host
    /// gives.
    Differs {
        line: u64,
        found: String,
        computed: String,
    },
    /// No entry begins with this line.
    NoEntry {
        line: u64,
    },
    /// The entry that begins at this line can't happen here: an instant doesn't have one value for each line or can't have a number, or a
    /// completion isn't awaited.
    Refused {
        line: u64,
    },
}

/// What an audit found.
#[derive(Drop)]
pub struct Audited {
    /// How many entries the history has.
    pub entries: u64,
    /// How many of them are calls, each with its reply.
    pub replies: u64,
    /// The text of those that are calls of the tenant.
    pub calls: String,
    /// The number of bytes of the text that the history has.
    pub bytes: usize,
    /// Why it has no more. `None` if it has all bytes.
    pub stop: Option<Stop>,
}

// An entry that the host gave, with its text, which is at the front of a text, and the text after it.
#[derive(Drop)]
struct Found<'a> {
    entry: Logged,
    text: String,
    later: &'a str,
}

// What is at the front of a text: an entry, or why there is none.
#[derive(Drop)]
enum Front<'a> {
    Entry(Found<'a>),
    Stop(Stop),
}

/// Plays the entries of a text on a new host of this configuration, whose first instant has this number. Finds how far the text is a
/// history: each entry can happen after those before it, and has the text of what the host gives then, with each reply. Keeps the text of
/// the calls of a tenant; `None` keeps none. The first line of the text has the number `first_line`.
///
/// # Errors
/// Out of memory, or a share of a program or of a task's body is refused.
pub fn audit(
    alloc: Global,
    config: &Config,
    first_tick: u64,
    first_line: u64,
    tenant: Option<TenantId>,
    text: &str,
) -> Result<Audited, AllocError>
    ensures history { IfOk result (λ a. IsHistoryText config.now first_tick tenant a.entries a.replies (string_bytes a.calls) (take a.bytes text.now)) }
    ensures whole { IfOk result (λ a. a.stop ≡ None ↔ a.bytes ≡ length text.now) }
{
    let mut host = Host::new(alloc, config, first_tick)?;
    play(
        alloc, config, first_tick, &mut host, first_line, tenant, text,
    )
}

// Plays the entries of a text on this new host.
fn play(
    alloc: Global,
    config: &Config,
    first_tick: u64,
    host: &mut Host,
    first_line: u64,
    tenant: Option<TenantId>,
    text: &str,
) -> Result<Audited, AllocError>
    requires { Stands (first_setting config.now first_tick) host.old (new_base config.now first_tick) }
    ensures history { IfOk result (λ a. IsHistoryText config.now first_tick tenant a.entries a.replies (string_bytes a.calls) (take a.bytes text.now)) }
    ensures whole { IfOk result (λ a. a.stop ≡ None ↔ a.bytes ≡ length text.now) }
{
    let mut line = first_line;
    let mut entries = 0u64;
    let mut replies = 0u64;
    let mut calls = String::new(alloc);
    let mut rest = text;
    while !rest.is_empty() {
        match read_front(alloc, config, host, line, rest)? {
            Front::Entry(found) => {
                line = line_after(line, rest, found.later);
                entries += 1;
                replies += calls_in(&found.entry);
                add_call_of(&mut calls, tenant, &found.entry, found.text.as_str())?;
                rest = found.later;
            }
            Front::Stop(stop) => {
                return Ok(Audited {
                    entries,
                    replies,
                    calls,
                    bytes: text.len() - rest.len(),
                    stop: Some(stop),
                });
            }
        }
    }
    Ok(Audited {
        entries,
        replies,
        calls,
        bytes: text.len(),
        stop: None,
    })
}

// What is at the front of a text. The host gives the entry, if it can.
fn read_front<'a>(
    alloc: Global,
    config: &Config,
    host: &mut Host,
    line: u64,
    text: &'a str,
) -> Result<Front<'a>, AllocError>
    ensures { IfOk result (λ found. IsFront config.now host.old host.new text.now found) }
{
    let Some(first) = first_line_of(text) else {
        return Ok(Front::Stop(Stop::Cut { line }));
    };
    let Some(asked) = asked_by(alloc, config, first)? else {
        return Ok(Front::Stop(Stop::NoEntry { line }));
    };
    let tick = host.clock();
    let Some(entry) = give(alloc, host, asked)? else {
        return Ok(Front::Stop(Stop::Refused { line }));
    };
    let mut computed = String::new(alloc);
    add_entry(&mut computed, config, tick, &entry)?;
    match text.strip_prefix(computed.as_str()) {
        Some(later) => Ok(Front::Entry(Found {
            entry,
            text: computed,
            later,
        })),
        None => Ok(Front::Stop(difference(alloc, line, text, computed.as_str())?)),
    }
}

// The first line of an entry. `None` if the text ends within the entry: before an LF, or without the reply's line.
fn first_line_of(text: &str) -> Option<&str> {
    let (first, later) = text.split_once('\n')?;
    if !first.starts_with("done ") {
        let (_reply, _later) = later.split_once('\n')?;
    }
    Some(first)
}

// How many calls an entry is.
fn calls_in(entry: &Logged) -> u64
    ensures { result ≡ calls_in entry.now }
{
    match entry {
        Logged::Call(_, _) => 1,
        Logged::Tick(_) => 0,
        Logged::Done(_) => 0,
    }
}

// Appends the text of an entry if it is a call of this tenant.
fn add_call_of(
    calls: &mut String,
    tenant: Option<TenantId>,
    entry: &Logged,
    text: &str,
) -> Result<(), AllocError>
    ensures { OnOk result (string_bytes calls.new ≡ string_bytes calls.old ++ (if is_call_of tenant entry.now then text.now else [])) }
{
    if is_call_of(tenant, entry) {
        calls.push_str(text)?;
    }
    Ok(())
}

// Whether an entry is a call of this tenant.
fn is_call_of(tenant: Option<TenantId>, entry: &Logged) -> bool
    ensures { result ≡ is_call_of tenant entry.now }
{
    match (tenant, entry) {
        (Some(tenant), Logged::Call(_, call)) => call.as_call().tenant == tenant,
        _ => false,
    }
}

// The number of the line after an entry that begins at a line, given the text from the entry on, and the text after it.
fn line_after(line: u64, text: &str, later: &str) -> u64 {
    let mut number = line;
    let mut rest = text;
    while rest.len() > later.len() {
        let Some((_line, more)) = rest.split_once('\n') else {
            return number;
        };
        number = number.saturating_add(1);
        rest = more;
    }
    number
}

// Where a text differs from the computed text of the entry at its front, which begins at this line.
fn difference(alloc: Global, line: u64, text: &str, computed: &str) -> Result<Stop, AllocError> {
    let mut number = line;
    let mut found = text.split('\n');
    for given in computed.split('\n') {
        let there = found.next().unwrap_or("");
        if there != given {
            return Ok(Stop::Differs {
                line: number,
                found: String::from_str(alloc, there)?,
                computed: String::from_str(alloc, given)?,
            });
        }
        number = number.saturating_add(1);
    }
    Ok(Stop::Cut { line })
}
