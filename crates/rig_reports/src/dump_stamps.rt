//! What the stamps of a value change dump have: the tenants and the lines of the rig after an instant.

ghost use Rattle.std.specs.Prelude.{◌<◌, length};

use crate::dump_jobs::OpenJobs;
use giotto_check::Checked;
use giotto_tasks::bodies::Body;
use giotto_tasks::names::Name;
use host_core::hosts::Host;
use rig_model::config::{Config, TenantId};
use rig_model::lines::ports::PortName;
use std::alloc::{AllocError, Global};
use tenant_dumps::dumps::Dump;
use tenant_dumps::ports::Kind;
use tenant_dumps::rigs::RigScope;
use tenant_dumps::scopes::Scope;

/// What is known of a tenant from the lines of a script.
#[derive(Drop)]
pub(crate) struct Tracked {
    pub(crate) jobs: OpenJobs,
    /// Whether its program may be another one than at the last stamp.
    pub(crate) is_changed: bool,
}

/// The dump before the first line: each tenant, and each line of the rig that a tenant may read or drive.
///
/// # Errors
/// Out of memory.
pub(crate) fn dump_of(alloc: Global, config: &Config) -> Result<Dump, AllocError> {
    let mut dump = Dump::new(alloc);
    for tenant in config.tenants() {
        dump.add_tenant(alloc, &tenant.name)?;
    }
    add_lines(alloc, dump.rig(), config)?;
    Ok(dump)
}

// Adds each line of the rig that a tenant may read or drive.
fn add_lines(alloc: Global, rig: &mut RigScope, config: &Config) -> Result<(), AllocError> {
    for line in 0..config.lines() {
        if is_read(config, line) {
            rig.add_input(alloc, line)?;
        }
        if is_driven(config, line) {
            rig.add_output(alloc, line)?;
        }
    }
    Ok(())
}

// Whether a tenant may read the line.
fn is_read(config: &Config, line: usize) -> bool {
    config
        .tenants()
        .iter()
        .any(|it| it.budgets.reads.as_slice().contains(&line))
}

// Whether a tenant may drive the line.
fn is_driven(config: &Config, line: usize) -> bool {
    config
        .tenants()
        .iter()
        .any(|it| it.budgets.writes.as_slice().contains(&line))
}

/// Adds what changed of a tenant's ports and tasks.
///
/// # Errors
/// Out of memory.
pub(crate) fn write_tenant(
    text: &mut String,
    scope: &mut Scope,
    tracked: &Tracked,
    host: &Host,
    tenant: TenantId,
) -> Result<(), AllocError>
    requires { tenant < length host.now.config.tenants }
{
    for port in scope.ports() {
        let value = host.port_value(tenant, port.port()).ok();
        port.write(text, value)?;
    }
    for task in scope.tasks() {
        let state = if task.is_there() {
            Some(tracked.jobs.state_of(task.task()))
        } else {
            None
        };
        task.write(text, state)?;
    }
    Ok(())
}

/// Adds the variables of a program, if the tenant has one, and notes which tasks it has.
///
/// # Errors
/// Out of memory.
pub(crate) fn add_program(
    alloc: Global,
    scope: &mut Scope,
    program: Option<&Checked>,
    is_late: bool,
) -> Result<(), AllocError> {
    scope.forget_tasks();
    let Some(program) = program else {
        return Ok(());
    };
    let program = program.program();
    for sensor in program.sensors() {
        add_shared(alloc, scope, Kind::Sensor, &sensor.name, is_late)?;
    }
    for actuator in program.actuators() {
        add_shared(alloc, scope, Kind::Actuator, &actuator.name, is_late)?;
    }
    for output in program.outputs() {
        add_shared(alloc, scope, Kind::Output, &output.name, is_late)?;
    }
    for task in program.tasks() {
        scope.add_task(alloc, &task.name, is_late)?;
        add_body(alloc, scope, &task.name, &task.body, is_late)?;
    }
    Ok(())
}

// Adds a sensor, an actuator or an output.
fn add_shared(
    alloc: Global,
    scope: &mut Scope,
    kind: Kind,
    name: &Name,
    is_late: bool,
) -> Result<(), AllocError> {
    let port = PortName {
        task: None,
        name: name.copy(),
    };
    scope.add_port(alloc, kind, &port, is_late)
}

// Adds the inputs and states of a task.
fn add_body(
    alloc: Global,
    scope: &mut Scope,
    task: &Name,
    body: &Body,
    is_late: bool,
) -> Result<(), AllocError> {
    for name in body.inputs.as_slice().iter().chain(body.states.as_slice()) {
        let port = PortName {
            task: Some(task.copy()),
            name: name.copy(),
        };
        scope.add_port(alloc, Kind::Own, &port, is_late)?;
    }
    Ok(())
}

/// Adds what changed of the rig's lines. Without a frame, the lines that come in have their last values.
///
/// # Errors
/// Out of memory.
pub(crate) fn write_lines(
    text: &mut String,
    rig: &mut RigScope,
    host: &Host,
    frame: Option<&[i64]>,
) -> Result<(), AllocError> {
    write_inputs(text, rig, frame)?;
    for output in rig.outputs() {
        let value = host.line_value(output.line());
        output.write(text, Some(value))?;
    }
    Ok(())
}

// Adds what changed of the lines that come in. At a stamp without a frame, only lines without any value are written.
fn write_inputs(
    text: &mut String,
    rig: &mut RigScope,
    frame: Option<&[i64]>,
) -> Result<(), AllocError> {
    for input in rig.inputs() {
        match frame {
            Some(frame) => input.write(text, frame.get(input.line()).copied())?,
            None => input.write_missing(text)?,
        }
    }
    Ok(())
}
