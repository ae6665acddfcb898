//! The variables of a tenant's ports and tasks.

ghost use Rattle.std.specs.Prelude.{◌≡◌, IfOk, string_bytes};
ghost use Rattle.tenant_dumps.specs.inner.Lines.{variable_of, variable_of_task};

use crate::variables::{Value, Variable};
use giotto_tasks::names::Name;
use std::alloc::{AllocError, Global};
use tenant_lines::ports::PortName;

/// The kind of a port.
#[derive(Clone, Copy, Debug, PartialEq, Eq)]
pub enum Kind {
    Sensor,
    Actuator,
    Output,
    /// An input or a state of a task.
    Own,
}

/// The variable of a port.
#[derive(Drop)]
pub struct PortVariable {
    kind: Kind,
    port: PortName,
    variable: Variable,
}

impl PortVariable {
    /// The variable of a tenant's port, without a value.
    ///
    /// # Errors
    /// Out of memory.
    pub(crate) fn new(
        alloc: Global,
        tenant: &Name,
        kind: Kind,
        port: &PortName,
        is_late: bool,
    ) -> Result<PortVariable, AllocError> {
        let name = port_variable(alloc, tenant.as_str(), port)?;
        Ok(PortVariable {
            kind,
            port: port.copy(),
            variable: Variable::new(name, Value::Number(None), is_late),
        })
    }

    /// The port.
    pub fn port(&self) -> &PortName {
        &self.port
    }

    /// Writes the port's value, if it changed. `None` if the tenant's program has no such port.
    ///
    /// # Errors
    /// Out of memory.
    pub fn write(&mut self, text: &mut String, value: Option<i64>) -> Result<(), AllocError> {
        self.variable.write(text, Value::Number(value))
    }

    /// Whether it is the variable of this port.
    pub(crate) fn is_for(&self, port: &PortName) -> bool {
        match &port.task {
            Some(task) => self.is_of(task) && self.port.name == port.name,
            None => self.port.task.is_none() && self.port.name == port.name,
        }
    }

    /// Whether the port is an input or a state of this task.
    pub(crate) fn is_of(&self, task: &Name) -> bool {
        match &self.port.task {
            Some(owner) => *owner == *task,
            None => false,
        }
    }

    pub(crate) fn kind(&self) -> Kind {
        self.kind
    }

    pub(crate) fn variable(&self) -> &Variable {
        &self.variable
    }

    /// Declares it with its name in its scope.
    ///
    /// # Errors
    /// Out of memory.
    pub(crate) fn declare(&self, text: &mut String) -> Result<(), AllocError> {
        self.variable.declare(text, self.port.name.as_str())
    }
}

/// What a stamp has of a task's job.
#[derive(Clone, Copy, Debug, PartialEq, Eq)]
pub struct TaskState {
    /// Whether the task is active: a job is released and not yet at its deadline.
    pub is_active: bool,
    /// Whether this job is completed.
    pub is_worked: bool,
    /// Whether a job was due at the instant of the stamp and not completed.
    pub is_late: bool,
}

/// The variables of a task.
#[derive(Drop)]
pub struct TaskVariables {
    task: Name,
    // Whether the tenant's program has the task.
    is_there: bool,
    active: Variable,
    worked: Variable,
    late: Variable,
}

impl TaskVariables {
    /// The variables of a tenant's task, without values.
    ///
    /// # Errors
    /// Out of memory.
    pub(crate) fn new(
        alloc: Global,
        tenant: &Name,
        task: &Name,
        is_late: bool,
    ) -> Result<TaskVariables, AllocError> {
        Ok(TaskVariables {
            task: task.copy(),
            is_there: true,
            active: bit(alloc, tenant, task, "is-active", is_late)?,
            worked: bit(alloc, tenant, task, "is-worked", is_late)?,
            late: bit(alloc, tenant, task, "is-late", is_late)?,
        })
    }

    /// The name of the task.
    pub fn task(&self) -> &Name {
        &self.task
    }

    /// Whether the tenant's program has the task.
    pub fn is_there(&self) -> bool {
        self.is_there
    }

    /// Notes whether the tenant's program has the task.
    pub(crate) fn set_there(&mut self, is_there: bool) {
        self.is_there = is_there;
    }

    /// Writes what changed. `None` if the tenant's program has no such task.
    ///
    /// # Errors
    /// Out of memory.
    pub fn write(&mut self, text: &mut String, state: Option<TaskState>) -> Result<(), AllocError> {
        self.active
            .write(text, Value::Bit(state.map(|it| it.is_active)))?;
        self.worked
            .write(text, Value::Bit(state.map(|it| it.is_worked)))?;
        self.late
            .write(text, Value::Bit(state.map(|it| it.is_late)))
    }

    /// Writes that they had no values at the first stamp, if they weren't there.
    ///
    /// # Errors
    /// Out of memory.
    pub(crate) fn write_late(&self, text: &mut String) -> Result<(), AllocError> {
        self.active.write_late(text)?;
        self.worked.write_late(text)?;
        self.late.write_late(text)
    }

    /// Declares them.
    ///
    /// # Errors
    /// Out of memory.
    pub(crate) fn declare(&self, text: &mut String) -> Result<(), AllocError> {
        self.active.declare(text, "is-active")?;
        self.worked.declare(text, "is-worked")?;
        self.late.declare(text, "is-late")
    }

    /// Adds them to a save file for gtkwave, each with the task in the name that is shown.
    ///
    /// # Errors
    /// Out of memory.
    pub(crate) fn save(&self, text: &mut String, tenant: &str) -> Result<(), AllocError> {
        let task = self.task.as_str();
        for what in ["is-active", "is-worked", "is-late"] {
            writeln!(text, "+{{{task} {what}}} {tenant}.{task}.{what}")?;
        }
        Ok(())
    }
}

// A variable of a task, by what it says.
fn bit(
    alloc: Global,
    tenant: &Name,
    task: &Name,
    what: &str,
    is_late: bool,
) -> Result<Variable, AllocError> {
    let name = task_variable(alloc, tenant.as_str(), task.as_str(), what)?;
    Ok(Variable::new(name, Value::Bit(None), is_late))
}

// The name of the variable of a tenant's port.
fn port_variable(alloc: Global, tenant: &str, port: &PortName) -> Result<String, AllocError>
    ensures { IfOk result (λ name. string_bytes name ≡ variable_of tenant.now port.now) }
{
    format!(in alloc; "{tenant}.{}", port)
}

// The name of the variable that says this of a tenant's task.
fn task_variable(alloc: Global, tenant: &str, task: &str, what: &str) -> Result<String, AllocError>
    ensures { IfOk result (λ name. string_bytes name ≡ variable_of_task tenant.now task.now what.now) }
{
    format!(in alloc; "{tenant}.{task}.{what}")
}
