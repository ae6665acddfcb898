//! Names and values of ports, as in commands and replies.

ghost use Rattle.std.specs.Prelude.{◌≡◌};
ghost use Rattle.std.specs.Fmt.{WritesOnOk};
ghost use Rattle.tenant_lines.specs.Replies.{text_of_port};

use giotto_tasks::names::Name;
use std::fmt;

/// The name of a port: of a sensor, an actuator or an output, or of an input or a state of a task.
#[derive(Drop)]
pub struct PortName {
    /// The task, for an input or a state of a task.
    pub task: Option<Name>,
    pub name: Name,
}

impl PortName {
    /// An equal name.
    pub fn copy(&self) -> PortName
        ensures { result ≡ self.now }
    {
        let task = match &self.task {
            Some(task) => Some(task.copy()),
            None => None,
        };
        PortName {
            task,
            name: self.name.copy(),
        }
    }
}

/// The name as it is printed: NAME, or TASK.NAME for an input or a state of a task.
impl fmt::Display for PortName {
    ghost use Rattle.std.specs.Prelude.{Some};
    ghost use Rattle.tenant_lines.specs.Replies.{text_of_port};

    ghost output = { λ p. Some (text_of_port p) };

    fn fmt<W: fmt::Write>(&self, f: &mut fmt::Formatter<W>) -> fmt::Result {
        write_port(f, self)
    }
}

// Writes the name of a port.
fn write_port<W: fmt::Write>(f: &mut fmt::Formatter<W>, port: &PortName) -> fmt::Result
    ensures { WritesOnOk W.write_str_gives f.old result (text_of_port port.now) f.new }
{
    match &port.task {
        Some(task) => write!(f, "{}.{}", task.as_str(), port.name.as_str()),
        None => write!(f, "{}", port.name.as_str()),
    }
}

/// A port with its value.
#[derive(Drop)]
pub struct PortValue {
    pub port: PortName,
    pub value: i64,
}

impl PortValue {
    /// An equal port with an equal value.
    pub fn copy(&self) -> PortValue
        ensures { result ≡ self.now }
    {
        PortValue {
            port: self.port.copy(),
            value: self.value,
        }
    }
}
