//! The variables of one tenant in a dump.

ghost use Rattle.std.specs.Prelude.{◌≡◌, IfOk, string_bytes};
ghost use Rattle.tenant_dumps.specs.inner.Lines.{word_of_mode, word_of_state};

use crate::ports::{Kind, PortVariable, TaskVariables};
use crate::variables::{Value, Variable, add_word};
use giotto_tasks::names::Name;
use std::alloc::{AllocError, Global};
use tenant_lines::ports::PortName;
use tenant_lines::replies::Status;

/// The variables of a tenant.
#[derive(Drop)]
pub struct Scope {
    tenant: Name,
    // The status that was written last, if one was.
    status: Option<Status>,
    time: Variable,
    ports: Vec<PortVariable>,
    tasks: Vec<TaskVariables>,
}

impl Scope {
    /// The variables of a tenant, of which none is written yet.
    ///
    /// # Errors
    /// Out of memory.
    pub(crate) fn new(alloc: Global, tenant: &Name) -> Result<Scope, AllocError> {
        let time = format!(in alloc; "{}.mode-time", tenant.as_str())?;
        Ok(Scope {
            tenant: tenant.copy(),
            status: None,
            time: Variable::new(time, Value::Number(None), false),
            ports: Vec::new(alloc),
            tasks: Vec::new(alloc),
        })
    }

    /// Adds the variable of a port, unless it is there. A late one isn't there at the first stamp.
    ///
    /// # Errors
    /// Out of memory.
    pub fn add_port(
        &mut self,
        alloc: Global,
        kind: Kind,
        port: &PortName,
        is_late: bool,
    ) -> Result<(), AllocError> {
        if self.ports.iter().any(|it| it.is_for(port)) {
            return Ok(());
        }
        let variable = PortVariable::new(alloc, &self.tenant, kind, port, is_late)?;
        self.ports.push(variable)?;
        Ok(())
    }

    /// Adds the variables of a task, which the tenant's program has, unless they are there. Late ones aren't there at the first stamp.
    ///
    /// # Errors
    /// Out of memory.
    pub fn add_task(
        &mut self,
        alloc: Global,
        task: &Name,
        is_late: bool,
    ) -> Result<(), AllocError> {
        if let Some(variables) = self.tasks.iter_mut().find(|it| *it.task() == *task) {
            variables.set_there(true);
            return Ok(());
        }
        let variables = TaskVariables::new(alloc, &self.tenant, task, is_late)?;
        self.tasks.push(variables)?;
        Ok(())
    }

    /// Notes that the tenant's program has none of these tasks, until they are added again.
    pub fn forget_tasks(&mut self) {
        for task in self.tasks.iter_mut() {
            task.set_there(false);
        }
    }

    /// The variables of its ports, in the order in which they were added.
    pub fn ports(&mut self) -> &mut [PortVariable] {
        self.ports.as_mut_slice()
    }

    /// The variables of its tasks, in the order in which they were added.
    pub fn tasks(&mut self) -> &mut [TaskVariables] {
        self.tasks.as_mut_slice()
    }

    /// Writes what changed of the state, the mode and the mode time. At the first stamp, writes all of it.
    ///
    /// # Errors
    /// Out of memory.
    pub fn write_status(
        &mut self,
        alloc: Global,
        text: &mut String,
        status: Status,
    ) -> Result<(), AllocError> {
        self.write_state(alloc, text, &status)?;
        self.write_mode(alloc, text, &status)?;
        self.time.write(text, Value::Number(time_of(&status)))?;
        self.status = Some(status);
        Ok(())
    }

    // Writes the state, if it changed.
    fn write_state(
        &self,
        alloc: Global,
        text: &mut String,
        status: &Status,
    ) -> Result<(), AllocError> {
        if let Some(before) = &self.status
            && is_same_state(before, status)
        {
            return Ok(());
        }
        let variable = format!(in alloc; "{}.state", self.tenant.as_str())?;
        let word = state_of(alloc, status)?;
        add_word(text, variable.as_str(), word.as_str())
    }

    // Writes the mode, if it changed.
    fn write_mode(
        &self,
        alloc: Global,
        text: &mut String,
        status: &Status,
    ) -> Result<(), AllocError> {
        if let Some(before) = &self.status
            && mode_of(before) == mode_of(status)
        {
            return Ok(());
        }
        let variable = format!(in alloc; "{}.mode", self.tenant.as_str())?;
        add_word(text, variable.as_str(), mode_of(status))
    }

    /// Writes the ports and tasks that weren't there at the first stamp, each without a value.
    ///
    /// # Errors
    /// Out of memory.
    pub(crate) fn write_late(&self, text: &mut String) -> Result<(), AllocError> {
        for port in &self.ports {
            port.variable().write_late(text)?;
        }
        for task in &self.tasks {
            task.write_late(text)?;
        }
        Ok(())
    }

    /// Declares all variables.
    ///
    /// # Errors
    /// Out of memory.
    pub(crate) fn declare(&self, text: &mut String) -> Result<(), AllocError> {
        let tenant = self.tenant.as_str();
        writeln!(text, "$scope module {tenant} $end")?;
        writeln!(text, "$var string 1 {tenant}.state state $end")?;
        writeln!(text, "$var string 1 {tenant}.mode mode $end")?;
        self.time.declare(text, "mode-time")?;
        for port in &self.ports {
            if port.port().task.is_none() {
                port.declare(text)?;
            }
        }
        for task in &self.tasks {
            self.declare_task(text, task)?;
        }
        text.push_str("$upscope $end\n")
    }

    /// Adds the tenant to a save file for gtkwave: its state and mode, tasks, actuators and sensors.
    ///
    /// # Errors
    /// Out of memory.
    pub(crate) fn save(&self, text: &mut String) -> Result<(), AllocError> {
        let tenant = self.tenant.as_str();
        writeln!(
            text,
            "@200\n-{tenant}\n@820\n{tenant}.state\n{tenant}.mode\n@28"
        )?;
        for task in &self.tasks {
            task.save(text, tenant)?;
        }
        text.push_str("@420\n")?;
        self.save_ports(text, Kind::Actuator)?;
        self.save_ports(text, Kind::Sensor)
    }

    // Adds the ports of this kind to a save file.
    fn save_ports(&self, text: &mut String, kind: Kind) -> Result<(), AllocError> {
        for port in &self.ports {
            if port.kind() == kind {
                writeln!(text, "{}", port.variable().name())?;
            }
        }
        Ok(())
    }

    // Declares a task's variables, inputs and states, in a scope of its own.
    fn declare_task(&self, text: &mut String, task: &TaskVariables) -> Result<(), AllocError> {
        let name = task.task().as_str();
        writeln!(text, "$scope module {name} $end")?;
        task.declare(text)?;
        for port in &self.ports {
            if port.is_of(task.task()) {
                port.declare(text)?;
            }
        }
        text.push_str("$upscope $end\n")
    }
}

// Whether two states are the same word.
fn is_same_state(one: &Status, other: &Status) -> bool {
    match (one, other) {
        (Status::Empty, Status::Empty) => true,
        (Status::Loaded(_), Status::Loaded(_)) => true,
        (Status::Running(_, _), Status::Running(_, _)) => true,
        (Status::StoppedAsked, Status::StoppedAsked) => true,
        (Status::StoppedOverrun(task), Status::StoppedOverrun(late)) => *task == *late,
        _ => false,
    }
}

// A state as a word: that of `show mode`, with the reason if the tenant is stopped.
fn state_of(alloc: Global, status: &Status) -> Result<String, AllocError>
    ensures { IfOk result (λ word. string_bytes word ≡ word_of_state status.now) }
{
    match status {
        Status::Empty => String::from_str(alloc, "empty"),
        Status::Loaded(_) => String::from_str(alloc, "loaded"),
        Status::Running(_, _) => String::from_str(alloc, "running"),
        Status::StoppedAsked => String::from_str(alloc, "stopped:asked"),
        Status::StoppedOverrun(task) => { format!(in alloc; "stopped:overrun:{}", task.as_str()) }
    }
}

// The mode that is shown, or `-` if there is none.
fn mode_of(status: &Status) -> &str
    ensures { result.now ≡ word_of_mode status.now }
{
    match status {
        Status::Loaded(mode) | Status::Running(mode, _) => mode.as_str(),
        Status::Empty | Status::StoppedAsked | Status::StoppedOverrun(_) => "-",
    }
}

// The mode time of the next instant, if the tenant runs.
fn time_of(status: &Status) -> Option<i64> {
    match status {
        Status::Running(_, time) => i64::try_from(*time).ok(),
        _ => None,
    }
}
