//! A law of the text of a command, a function without a body that carries it.

ghost use Rattle.std.specs.Prelude.{◌≡◌, Some, true};
ghost use Rattle.rig_history.specs.Commands.{is_line, text_of_command};
ghost use Rattle.rig_model.specs.declared.lines.commands.Command.{Command};
ghost use Rattle.rig_model.specs.lines.CommandLine.{command_of_line};

/// A command is read from its line as the same command, if its names have the shape of names, and its bounds are in order and fit an i64.
/// A text of `load` or `replace` may have any bytes.
#[tactic(auto, using(crate::proofs::ReadBack::line_back))]
pub fn command_is_read_back()
    ensures { (command : Command) → is_line command ≡ true → command_of_line (text_of_command command) ≡ Some command }
{}
