//! The entries that a host gives.

ghost use Rattle.std.specs.Prelude.{◌≡◌, IfOk, IfSome};
ghost use Rattle.rig_history.specs.inner.Auditing.{HasGiven};

use host_core::hosts::{Counted, Host};
use rig_model::config::TenantId;
use rig_model::frames::copy_of_frame;
use rig_model::jobs::JobId;
use rig_model::lines::commands::Command;
use rig_model::logged::{Call, KeptCall, Logged, SeatId};
use std::alloc::{AllocError, Global};
use tenant_jobs::jobs::run_job;

/// The entry of a tenant's command, which the host carries out. `None` if the roster has no such tenant.
///
/// # Errors
/// Out of memory.
pub(crate) fn call(
    alloc: Global,
    host: &mut Host,
    seat: SeatId,
    tenant: TenantId,
    command: Command,
) -> Result<Option<Logged>, AllocError>
    ensures { IfOk result (λ given. IfSome given (λ e. HasGiven host.old host.new e)) }
{
    if tenant >= host.config().tenants().len() {
        return Ok(None);
    }
    let copy = command.copy()?;
    let reply = host.command(tenant, copy);
    if reply.is_memory() {
        return Err(AllocError);
    }
    let call = Call {
        tenant,
        command,
        reply,
    };
    Ok(Some(Logged::Call(seat, KeptCall::own(Box::new(alloc, call)?))))
}

/// The entry of an instant, which the host runs. `None` if the frame doesn't have one value for each line, or if the clock has ended.
///
/// # Errors
/// Out of memory.
pub(crate) fn instant(
    alloc: Global,
    host: &mut Host,
    frame: &[i64],
) -> Result<Option<Logged>, AllocError>
    ensures { IfOk result (λ given. IfSome given (λ e. HasGiven host.old host.new e)) }
{
    if frame.len() != host.config().lines() || host.clock() == u64::MAX {
        return Ok(None);
    }
    let copy = copy_of_frame(alloc, frame)?;
    match host.instant(frame) {
        Ok(()) => Ok(Some(Logged::Tick(copy))),
        Err(_) => Err(AllocError),
    }
}

/// The entry of a job's completion, which the host counts. `None` if it doesn't await it.
///
/// # Errors
/// A share of the task's body is refused.
pub(crate) fn completion(host: &mut Host, id: &JobId) -> Result<Option<Logged>, AllocError>
    ensures { IfOk result (λ given. IfSome given (λ e. HasGiven host.old host.new e)) }
{
    let Some(job) = host.job(id)? else {
        return Ok(None);
    };
    let done = run_job(job);
    let id = done.id().copy();
    match host.done(done) {
        Counted::Counted => Ok(Some(Logged::Done(id))),
        Counted::Late => Ok(None),
    }
}
