//! The overruns at an instant: the tenants that ran before it, and are stopped after it because a task missed its deadline.

ghost use Rattle.std.specs.Prelude.{◌≡◌, ◌<◌, ◌++◌, List, IfOk, OnOk, false, get_or, length};
ghost use Rattle.rig_model.specs.config.Roster.{name_at};
ghost use Rattle.rig_model.specs.Commands.{status_of};
ghost use Rattle.rig_model.specs.Row.{Row, is_running};
ghost use Rattle.rig_model.specs.declared.events.Event.{Event};
ghost use Rattle.rig_reports.specs.inner.Reported.{listed, missed_task, overrun_of, overruns_up_to, row_after};
ghost use Rattle.rig_reports.specs.inner.Reporting.{ForEachPastOf, running_up_to};
ghost use Rattle.rig_model.specs.declared.lines.replies.Reply.TheVariants.{Mode};

use crate::questions::ask;
use giotto_tasks::names::Name;
use host_core::hosts::Host;
use rig_model::config::{Config, TenantId};
use rig_model::lines::commands::Command;
use rig_model::lines::replies::{Reply, Status};
use script_reports::reports::Overrun;
use std::alloc::{AllocError, Global};

/// Returns which tenants run, by their places in the roster.
///
/// # Errors
/// Out of memory.
pub fn running(alloc: Global, host: &mut Host) -> Result<Vec<bool>, AllocError>
    ensures same { host.new ≡ host.old }
    ensures each { IfOk result (λ ran. ForEachPastOf host.old (λ setting past. ran.items ≡ running_up_to setting past (length setting.config.tenants))) }
{
    let mut running = Vec::new(alloc);
    for tenant in 0..host.config().tenants().len() {
        let status = ask(host, tenant, Command::ShowMode)?;
        running.push(says_running(&status))?;
    }
    Ok(running)
}

/// Returns the overruns at an instant, in the order of the roster.
///
/// `ran` says which tenants ran before it, by their places in the roster.
///
/// # Errors
/// Out of memory.
pub fn overruns(alloc: Global, host: &mut Host, ran: &[bool]) -> Result<Vec<Overrun>, AllocError>
    ensures same { host.new ≡ host.old }
    ensures each { IfOk result (λ stops. (before : List Event) → ForEachPastOf host.old (λ setting past. ran.now ≡ running_up_to setting before (length setting.config.tenants)
        → stops.items ≡ overruns_up_to setting before past (length setting.config.tenants))) }
{
    let mut overruns = Vec::new(alloc);
    for tenant in 0..host.config().tenants().len() {
        let overrun = overrun_of(host, tenant, ran_at(ran, tenant))?;
        add(&mut overruns, overrun)?;
    }
    Ok(overruns)
}

// Adds an overrun, if there is one.
fn add(overruns: &mut Vec<Overrun>, overrun: Option<Overrun>) -> Result<(), AllocError>
    ensures { OnOk result (overruns.new.items ≡ overruns.old.items ++ listed overrun) }
{
    if let Some(overrun) = overrun {
        overruns.push(overrun)?;
    }
    Ok(())
}

// Whether the tenant at this place ran.
fn ran_at(ran: &[bool], tenant: TenantId) -> bool
    ensures { result ≡ get_or ran.now tenant false }
{
    match ran.get(tenant) {
        Some(ran) => *ran,
        None => false,
    }
}

// The overrun of the tenant at this place, if there is one. `ran` says whether the tenant ran before the instant.
fn overrun_of(host: &mut Host, tenant: TenantId, ran: bool) -> Result<Option<Overrun>, AllocError>
    requires { tenant < length host.old.config.tenants }
    ensures same { host.new ≡ host.old }
    ensures overrun { IfOk result (λ stop. (before : Row) → ran ≡ is_running before
        → ForEachPastOf host.old (λ setting past. stop ≡ overrun_of (name_at setting.config tenant) before (row_after setting past tenant))) }
{
    if !ran {
        return Ok(None);
    }
    let status = ask(host, tenant, Command::ShowMode)?;
    match missed_task(&status) {
        Some(task) => Ok(Some(Overrun {
            tenant: name_of(host.config(), tenant),
            task,
        })),
        None => Ok(None),
    }
}

// The name of the tenant at this place.
fn name_of(config: &Config, tenant: TenantId) -> Name
    requires { tenant < length config.now.tenants }
    ensures { result ≡ name_at config.now tenant }
{
    config.tenants()[tenant].name.copy()
}

// Whether a reply to `show mode` says that the tenant runs.
fn says_running(reply: &Reply) -> bool
    ensures { (row : Row) → reply.now ≡ Mode (status_of row) → result ≡ is_running row }
{
    match reply {
        Reply::Mode(Status::Running(_, _)) => true,
        _ => false,
    }
}

// The task whose overrun stopped the tenant, if a reply to `show mode` names one.
fn missed_task(reply: &Reply) -> Option<Name>
    ensures { (row : Row) → reply.now ≡ Mode (status_of row) → result ≡ missed_task row }
{
    match reply {
        Reply::Mode(Status::StoppedOverrun(task)) => Some(task.copy()),
        _ => None,
    }
}
