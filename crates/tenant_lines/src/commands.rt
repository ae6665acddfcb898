//! The commands of a tenant.

ghost use Rattle.std.specs.Prelude.{◌≡◌, IsTrue, IsErr, IfOk};
ghost use Rattle.tenant_lines.specs.cited.Copies.{has_text};

use crate::grant_lines::GrantCommand;
use crate::ports::PortName;
use crate::shared_texts::SharedText;
use std::alloc::AllocError;

/// A command, one variant for each form.
#[derive(Drop)]
pub enum Command {
    /// `load TEXT`: loads a program from its text. It takes the place of the tenant's program, if there is one.
    Load(SharedText),
    /// `replace TEXT`: gives the text of a program that is to replace the running one.
    Replace(SharedText),
    /// `start`: runs the program from its beginning.
    Start,
    /// `stop`: stops the running program.
    Stop,
    /// `show mode`: shows what the tenant is doing.
    ShowMode,
    /// `show port NAME` or `show port TASK.NAME`: shows the value of a port.
    ShowPort(PortName),
    /// `show all`: shows the value of every port.
    ShowAll,
    /// `trace`: lists the last records of the tenant, the oldest first.
    Trace,
    /// `offer`, `unoffer`, `bind`, `unbind` or `rows`: the commands about grants.
    Grants(GrantCommand),
}

impl Command {
    /// An equal command, which shares the text of `load` and `replace`. Takes no memory.
    ///
    /// # Errors
    /// A share of that text is refused. Never if it is empty.
    pub fn copy(&self) -> Result<Command, AllocError>
        ensures same { IfOk result (λ c. c ≡ self.now) }
        ensures memory { IsErr result → IsTrue (has_text self.now) }
    {
        Ok(match self {
            Command::Load(text) => Command::Load(text.copy()?),
            Command::Replace(text) => Command::Replace(text.copy()?),
            Command::Start => Command::Start,
            Command::Stop => Command::Stop,
            Command::ShowMode => Command::ShowMode,
            Command::ShowPort(port) => Command::ShowPort(port.copy()),
            Command::ShowAll => Command::ShowAll,
            Command::Trace => Command::Trace,
            Command::Grants(command) => Command::Grants(command.copy()),
        })
    }
}
