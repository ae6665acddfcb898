//! Commands that are carried out, as the log and the pass keep them.
//!
//! Memory has to be allocated before the host changes. A question changes nothing, so its call is made afterwards, and is kept once for
//! the log and the pass. If a pass asks it again and the reply is the same, the call is kept in its earlier place. The calls of other
//! commands are made before, in two separate places that share the text of a `load` or `replace`, and get their replies afterwards.

ghost use Rattle.std.specs.Box.{box_value};
ghost use Rattle.std.specs.Prelude.{◌≡◌, ◌<◌, ◌≤◌, ◌↔◌, length, IfOk, IfSome, IsTrue, OnErr};
ghost use Rattle.host_core.specs.HostStanding.{outstanding_count};
ghost use Rattle.host_core.specs.Questions.{is_question};
ghost use Rattle.locked_book.specs.inner.Carried.{IsCarriedOut, IsTaken, call_with};

use giotto_check::Checked;
use giotto_tasks::same::Same;
use host_core::hosts::Host;
use rig_model::config::TenantId;
use rig_model::lines::commands::Command;
use rig_model::lines::grant_lines::GrantCommand;
use rig_model::lines::replies::Reply;
use rig_model::logged::{Call, KeptCall};
use std::alloc::{AllocError, Global};
use tenant_programs::prepared::Prepared;

// How many of the last calls of a pass are looked at for one that asks the same.
const LOOKED_AT: usize = 4;

/// A call of a command that was carried out, for the log and for the pass.
#[derive(Drop)]
pub(crate) struct Carried {
    pub(crate) logged: KeptCall,
    pub(crate) noted: KeptCall,
}

/// Carries out a tenant's command. `before` are the calls of its pass so far.
///
/// # Errors
/// Out of memory. The host stays as it was then.
pub(crate) fn carry_out(
    alloc: Global,
    host: &mut Host,
    tenant: TenantId,
    prepared: Prepared,
    left: &mut Option<Checked>,
    before: &[KeptCall],
) -> Result<Carried, AllocError>
    requires { tenant < length host.old.config.tenants }
    ensures carried { IfOk result (λ c. IsCarriedOut host.old host.new tenant prepared c.logged c.noted) }
    ensures outstanding { outstanding_count host.new ≤ outstanding_count host.old }
    ensures refused { OnErr result (host.new ≡ host.old) }
{
    if !is_question(prepared.command()) {
        return carry_out_change(alloc, host, tenant, prepared, left);
    }
    match asked_before(before, tenant, prepared.command()) {
        Some(asked) => ask_again(alloc, host, prepared, left, asked),
        None => carry_out_question(alloc, host, tenant, prepared, left),
    }
}

// The last call of this command by this tenant, if it is one of the last few calls.
fn asked_before<'a>(
    calls: &'a [KeptCall],
    tenant: TenantId,
    command: &Command,
) -> Option<&'a KeptCall>
    ensures { IfSome result (λ c. (c.now.tenant ≡ tenant) × (c.now.command ≡ command.now)) }
{
    for call in calls.iter().rev().take(LOOKED_AT) {
        if asks_the_same(call.as_call(), tenant, command) {
            return Some(call);
        }
    }
    None
}

fn is_question(command: &Command) -> bool
    ensures { result ≡ is_question command.now }
{
    match command {
        Command::Load(_) | Command::Replace(_) | Command::Start | Command::Stop => false,
        Command::ShowMode | Command::ShowPort(_) | Command::ShowAll | Command::Trace => true,
        Command::Grants(command) => matches!(command, GrantCommand::Rows),
    }
}

// Carries out a question. Its call is kept once.
fn carry_out_question(
    alloc: Global,
    host: &mut Host,
    tenant: TenantId,
    prepared: Prepared,
    left: &mut Option<Checked>,
) -> Result<Carried, AllocError>
    requires tenant { tenant < length host.old.config.tenants }
    requires question { IsTrue (is_question prepared) }
    ensures carried { IfOk result (λ c. IsCarriedOut host.old host.new tenant prepared c.logged c.noted) }
    ensures same { host.new ≡ host.old }
{
    let command = prepared.command().copy()?;
    let reply = reply_of(host, tenant, prepared, left)?;
    keep_twice(
        alloc,
        Call {
            tenant,
            command,
            reply,
        },
    )
}

fn asks_the_same(call: &Call, tenant: TenantId, command: &Command) -> bool
    ensures { IsTrue result ↔ ((call.now.tenant ≡ tenant) × (call.now.command ≡ command.now)) }
{
    if call.tenant != tenant {
        return false;
    }
    call.command.is_same(command)
}

// Carries out the question of a call again.
fn ask_again(
    alloc: Global,
    host: &mut Host,
    prepared: Prepared,
    left: &mut Option<Checked>,
    asked: &KeptCall,
) -> Result<Carried, AllocError>
    requires tenant { asked.now.tenant < length host.old.config.tenants }
    requires same { asked.now.command ≡ prepared }
    requires question { IsTrue (is_question prepared) }
    ensures carried { IfOk result (λ c. IsCarriedOut host.old host.new asked.now.tenant prepared c.logged c.noted) }
    ensures same { host.new ≡ host.old }
{
    let reply = reply_of(host, asked.as_call().tenant, prepared, left)?;
    keep_again(alloc, asked, reply)
}

// Keeps the call of a question that was asked again, with this reply: in its earlier place if the reply is the same.
fn keep_again(alloc: Global, asked: &KeptCall, reply: Reply) -> Result<Carried, AllocError>
    ensures logged { IfOk result (λ c. c.logged ≡ call_with asked.now.tenant asked.now.command reply) }
    ensures noted { IfOk result (λ c. c.noted ≡ c.logged) }
{
    let call = asked.as_call();
    if call.reply.is_same(&reply) {
        return Ok(Carried {
            logged: asked.copy(alloc)?,
            noted: asked.copy(alloc)?,
        });
    }
    let tenant = call.tenant;
    let command = call.command.copy()?;
    keep_twice(
        alloc,
        Call {
            tenant,
            command,
            reply,
        },
    )
}

// Keeps a call once, for both.
fn keep_twice(alloc: Global, call: Call) -> Result<Carried, AllocError>
    ensures logged { IfOk result (λ c. c.logged ≡ call) }
    ensures noted { IfOk result (λ c. c.noted ≡ call) }
{
    let (logged, noted) = KeptCall::twice(alloc, call)?;
    Ok(Carried { logged, noted })
}

// Carries out a command that isn't a question. Once the host has changed, no memory is taken.
fn carry_out_change(
    alloc: Global,
    host: &mut Host,
    tenant: TenantId,
    prepared: Prepared,
    left: &mut Option<Checked>,
) -> Result<Carried, AllocError>
    requires { tenant < length host.old.config.tenants }
    ensures carried { IfOk result (λ c. IsCarriedOut host.old host.new tenant prepared c.logged c.noted) }
    ensures outstanding { outstanding_count host.new ≤ outstanding_count host.old }
    ensures refused { OnErr result (host.new ≡ host.old) }
{
    let mut logged = place_for(alloc, tenant, prepared.command())?;
    let mut noted = place_for(alloc, tenant, prepared.command())?;
    let reply = reply_of(host, tenant, prepared, left)?;
    noted.reply = reply.copy(alloc)?;
    logged.reply = reply;
    Ok(Carried {
        logged: KeptCall::own(logged),
        noted: KeptCall::own(noted),
    })
}

// The host's reply to a tenant's command. Fails if that is `err memory`.
#[inline(always)]
fn reply_of(
    host: &mut Host,
    tenant: TenantId,
    prepared: Prepared,
    left: &mut Option<Checked>,
) -> Result<Reply, AllocError>
    requires { tenant < length host.old.config.tenants }
    ensures taken { IfOk result (λ reply. IsTaken host.old host.new tenant prepared reply) }
    ensures asked { IsTrue (is_question prepared) → host.new ≡ host.old }
    ensures outstanding { outstanding_count host.new ≤ outstanding_count host.old }
    ensures refused { OnErr result (host.new ≡ host.old) }
{
    let reply = host.carry_out(tenant, prepared, left);
    if reply.is_memory() {
        return Err(AllocError);
    }
    Ok(reply)
}

// A separate place for a call of this command, whose reply is to come.
fn place_for(alloc: Global, tenant: TenantId, command: &Command) -> Result<Box<Call>, AllocError>
    ensures tenant { IfOk result (λ c. (box_value c).tenant ≡ tenant) }
    ensures command { IfOk result (λ c. (box_value c).command ≡ command.now) }
{
    let call = Call {
        tenant,
        command: command.copy()?,
        reply: Reply::Loaded,
    };
    Ok(Box::new(alloc, call)?)
}
