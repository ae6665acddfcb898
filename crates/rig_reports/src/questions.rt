//! Questions to tenants between two lines of a script. They change nothing.

ghost use Rattle.std.specs.Prelude.{◌≡◌, ◌<◌, length, IfOk, IsTrue};
ghost use Rattle.rig_script.specs.host.HostStanding.{ForEachState};
ghost use Rattle.rig_script.specs.host.Questions.{LeavesRow, is_question};
ghost use Rattle.rig_script.specs.engine.Tenants.{tenant_at};
ghost use Rattle.rig_model.specs.HostState.{row_at};
ghost use Rattle.rig_model.specs.Views.{after_command};

use giotto_tasks::lists::List;
use host_core::hosts::Host;
use rig_model::config::TenantId;
use rig_model::lines::commands::Command;
use rig_model::lines::ports::PortValue;
use rig_model::lines::replies::Reply;
use std::alloc::{AllocError, Global};
use tenant_dumps::views::View;

/// Returns what all tenants show, in the order of the roster.
///
/// # Errors
/// Out of memory.
pub(crate) fn views_of(alloc: Global, host: &mut Host) -> Result<Vec<View>, AllocError>
    ensures { host.new ≡ host.old }
{
    let mut views = Vec::new(alloc);
    for tenant in 0..host.config().tenants().len() {
        let view = view_of(alloc, host, tenant)?;
        views.push(view)?;
    }
    Ok(views)
}

// Returns what the tenant at this place shows.
fn view_of(alloc: Global, host: &mut Host, tenant: TenantId) -> Result<View, AllocError>
    requires { tenant < length host.old.config.tenants }
    ensures { host.new ≡ host.old }
{
    let ports = ports_of(alloc, ask(host, tenant, Command::ShowAll)?);
    match ask(host, tenant, Command::ShowMode)? {
        Reply::Mode(status) => Ok(View { status, ports }),
        _ => Err(AllocError),
    }
}

/// Returns what all tenants are doing, in the order of the roster: views without ports.
///
/// # Errors
/// Out of memory.
pub(crate) fn statuses_of(alloc: Global, host: &mut Host) -> Result<Vec<View>, AllocError>
    ensures { host.new ≡ host.old }
{
    let mut statuses = Vec::new(alloc);
    for tenant in 0..host.config().tenants().len() {
        let view = status_at(alloc, host, tenant)?;
        statuses.push(view)?;
    }
    Ok(statuses)
}

// Returns what the tenant at this place is doing, without its ports.
fn status_at(alloc: Global, host: &mut Host, tenant: TenantId) -> Result<View, AllocError>
    requires { tenant < length host.old.config.tenants }
    ensures { host.new ≡ host.old }
{
    let ports = List::from_vec(Vec::new(alloc));
    match ask(host, tenant, Command::ShowMode)? {
        Reply::Mode(status) => Ok(View { status, ports }),
        _ => Err(AllocError),
    }
}

// The ports of a reply to `show all`; none if there is no program.
fn ports_of(alloc: Global, reply: Reply) -> List<PortValue> {
    match reply {
        Reply::All(ports) => ports,
        _ => List::from_vec(Vec::new(alloc)),
    }
}

/// Returns the reply of the tenant at this place to a command.
///
/// A command that leaves the tenant's row unchanged, as the question `show mode` does, leaves the host unchanged.
///
/// # Errors
/// Out of memory.
pub fn ask(host: &mut Host, tenant: TenantId, question: Command) -> Result<Reply, AllocError>
    requires { tenant < length host.old.config.tenants }
    ensures same { IsTrue (is_question question) → host.new ≡ host.old }
    ensures unchanged { LeavesRow (tenant_at host.old.tenants tenant) question → host.new ≡ host.old }
    ensures reply { IfOk result (λ reply. ForEachState host.old (λ setting state. reply ≡ (after_command setting tenant question (row_at state tenant)).reply)) }
{
    let reply = host.command(tenant, question);
    if reply.is_memory() {
        return Err(AllocError);
    }
    Ok(reply)
}
