//! What a tenant shows: its mode and the values of its ports.

use giotto_tasks::lists::List;
use giotto_tasks::names::Name;
use tenant_lines::ports::PortValue;
use tenant_lines::replies::Status;

/// What a tenant shows: the answers to `show mode` and `show all`.
#[derive(Drop)]
pub struct View {
    pub status: Status,
    /// In the order of `show all`; empty if there is no program.
    pub ports: List<PortValue>,
}

impl View {
    /// The value of the sensor, actuator or output of this name.
    pub fn value(&self, name: &Name) -> Option<i64> {
        self.ports
            .as_slice()
            .iter()
            .find(|it| it.port.task.is_none() && it.port.name == *name)
            .map(|it| it.value)
    }

    /// The value of a task's input or state of this name.
    pub fn own_value(&self, task: &Name, name: &Name) -> Option<i64> {
        self.ports
            .as_slice()
            .iter()
            .find(|it| is_of(&it.port.task, task) && it.port.name == *name)
            .map(|it| it.value)
    }
}

// Whether the port is one of this task.
fn is_of(owner: &Option<Name>, task: &Name) -> bool {
    match owner {
        Some(owner) => *owner == *task,
        None => false,
    }
}
