//! What the first line of an entry asks of a host.
//!
//! The audit compares the text of the entry that the host gives with the text that it reads, so none of this needs a contract.

ghost use Rattle.std.specs.Prelude.{IfOk, IfSome};
ghost use Rattle.rig_history.specs.inner.Auditing.{HasGiven};

use crate::given;
use giotto_tasks::names::Name;
use host_core::hosts::Host;
use rig_model::config::{Config, TenantId};
use rig_model::jobs::JobId;
use rig_model::lines::command_lines::{LineFault, command_of};
use rig_model::lines::commands::Command;
use rig_model::lines::words::{Values, values_of_words};
use rig_model::logged::{Logged, SeatId};
use std::alloc::{AllocError, Global};

/// What an entry asks.
#[derive(Drop)]
pub(crate) enum Asked {
    Call(SeatId, TenantId, Command),
    Instant(Values),
    Completion(JobId),
}

/// What a line asks. `None` if it has none of the forms of an entry's first line.
///
/// # Errors
/// Out of memory.
pub(crate) fn asked_by(
    alloc: Global,
    config: &Config,
    line: &str,
) -> Result<Option<Asked>, AllocError> {
    match line.split_once(' ') {
        Some(("call", rest)) => call_asked_by(alloc, config, rest),
        Some(("tick", rest)) => instant_asked_by(alloc, rest),
        Some(("done", rest)) => Ok(completion_asked_by(config, rest)),
        _ => Ok(None),
    }
}

// The call of SEAT TENANT COMMAND.
fn call_asked_by(alloc: Global, config: &Config, rest: &str) -> Result<Option<Asked>, AllocError> {
    let Some((seat, rest)) = rest.split_once(' ') else {
        return Ok(None);
    };
    let Some((tenant, line)) = rest.split_once(' ') else {
        return Ok(None);
    };
    let (Ok(seat), Some(tenant)) = (seat.parse(), config.place_of(tenant)) else {
        return Ok(None);
    };
    match command_of(alloc, line) {
        Ok(command) => Ok(Some(Asked::Call(seat, tenant, command))),
        Err(LineFault::BadCommand) => Ok(None),
        Err(LineFault::Memory) => Err(AllocError),
    }
}

// The instant with the values V ..
fn instant_asked_by(alloc: Global, rest: &str) -> Result<Option<Asked>, AllocError> {
    match values_of_words(alloc, rest)? {
        Some(values) => Ok(Some(Asked::Instant(values))),
        None => Ok(None),
    }
}

// The completion of TENANT TICK TASK.
fn completion_asked_by(config: &Config, rest: &str) -> Option<Asked> {
    let (tenant, rest) = rest.split_once(' ')?;
    let (tick, task) = rest.split_once(' ')?;
    Some(Asked::Completion(JobId {
        tenant: config.place_of(tenant)?,
        tick: tick.parse().ok()?,
        task: Name::new(task)?,
    }))
}

/// Has the host do what is asked, and returns the entry of it. `None` if the host doesn't do it: it has no such tenant, the instant
/// doesn't have one value for each line or can't have a number, or the completion isn't awaited.
///
/// # Errors
/// Out of memory.
pub(crate) fn give(
    alloc: Global,
    host: &mut Host,
    asked: Asked,
) -> Result<Option<Logged>, AllocError>
    ensures { IfOk result (λ given. IfSome given (λ e. HasGiven host.old host.new e)) }
{
    match asked {
        Asked::Call(seat, tenant, command) => given::call(alloc, host, seat, tenant, command),
        Asked::Instant(frame) => given::instant(alloc, host, frame.as_slice()),
        Asked::Completion(id) => given::completion(host, &id),
    }
}
