//! Commands as their lines.

ghost use Rattle.std.specs.Prelude.{◌≡◌, ◌++◌, OnOk, string_bytes};
ghost use Rattle.std.specs.Fmt.{signed_decimal};
ghost use Rattle.rig_history.specs.Commands.{text_of_bounds, text_of_command, text_of_grant_command};
ghost use Rattle.rig_model.specs.lines.Replies.{text_of_port};

use rig_model::config::intervals::Bounds;
use rig_model::lines::commands::Command;
use rig_model::lines::grant_lines::GrantCommand;
use rig_model::lines::ports::PortName;
use std::alloc::AllocError;

/// Appends the line of a command, without the tenant's name and without LF. An empty text of `load` or `replace` is nothing after the
/// word and its blank.
///
/// # Errors
/// Out of memory. After an error the content of the text is unspecified.
pub fn add_command(text: &mut String, command: &Command) -> Result<(), AllocError>
    ensures { OnOk result (string_bytes text.new ≡ string_bytes text.old ++ text_of_command command.now) }
{
    match command {
        Command::Load(program) => {
            text.push_str("load ")?;
            text.push_str(program.as_str())
        }
        Command::Replace(program) => {
            text.push_str("replace ")?;
            text.push_str(program.as_str())
        }
        Command::Start => text.push_str("start"),
        Command::Stop => text.push_str("stop"),
        Command::ShowMode => text.push_str("show mode"),
        Command::ShowPort(port) => {
            text.push_str("show port ")?;
            add_port(text, port)
        }
        Command::ShowAll => text.push_str("show all"),
        Command::Trace => text.push_str("trace"),
        Command::Grants(command) => add_grant_command(text, command),
    }
}

// Appends the name of a port.
fn add_port(text: &mut String, port: &PortName) -> Result<(), AllocError>
    ensures { OnOk result (string_bytes text.new ≡ string_bytes text.old ++ text_of_port port.now) }
{
    if let Some(task) = &port.task {
        text.push_str(task.as_str())?;
        text.push('.')?;
    }
    text.push_str(port.name.as_str())
}

// Appends the line of a command about grants.
fn add_grant_command(text: &mut String, command: &GrantCommand) -> Result<(), AllocError>
    ensures { OnOk result (string_bytes text.new ≡ string_bytes text.old ++ text_of_grant_command command.now) }
{
    match command {
        GrantCommand::Offer {
            actuator,
            tenant,
            bounds,
        } => {
            add_words(text, "offer ", actuator.as_str(), " to ", tenant.as_str())?;
            add_bounds(text, bounds)
        }
        GrantCommand::Unoffer { actuator, tenant } => {
            add_words(text, "unoffer ", actuator.as_str(), " to ", tenant.as_str())
        }
        GrantCommand::Bind {
            sensor,
            tenant,
            actuator,
        } => {
            add_words(text, "bind ", sensor.as_str(), " from ", tenant.as_str())?;
            text.push('.')?;
            text.push_str(actuator.as_str())
        }
        GrantCommand::Unbind { sensor } => {
            text.push_str("unbind ")?;
            text.push_str(sensor.as_str())
        }
        GrantCommand::Rows => text.push_str("rows"),
    }
}

// Appends these four texts.
pub(crate) fn add_words(
    text: &mut String,
    one: &str,
    two: &str,
    three: &str,
    four: &str,
) -> Result<(), AllocError>
    ensures { OnOk result (string_bytes text.new ≡ string_bytes text.old ++ (one.now ++ (two.now ++ (three.now ++ four.now)))) }
{
    text.push_str(one)?;
    text.push_str(two)?;
    text.push_str(three)?;
    text.push_str(four)
}

// Appends the bounds of an offer, if it has them.
fn add_bounds(text: &mut String, bounds: &Option<Bounds>) -> Result<(), AllocError>
    ensures { OnOk result (string_bytes text.new ≡ string_bytes text.old ++ text_of_bounds bounds.now) }
{
    let Some(bounds) = bounds else {
        return Ok(());
    };
    text.push_str(" from ")?;
    add_value(text, bounds.low())?;
    text.push_str(" to ")?;
    add_value(text, bounds.high())
}

// Appends a value in decimal.
pub(crate) fn add_value(text: &mut String, value: i64) -> Result<(), AllocError>
    ensures { OnOk result (string_bytes text.new ≡ string_bytes text.old ++ signed_decimal value) }
{
    write!(text, "{value}")
}
