//! Commands whose text is read before they are carried out.

ghost use Rattle.std.specs.Prelude.{◌≡◌, ◌≢◌, IfOk, IfErr, IfSome, Ok, Err};
ghost use Rattle.rig_model.specs.Admission.{program_of};
ghost use Rattle.rig_model.specs.declared.lines.replies.Refusal.{Refusal};
ghost use Rattle.tenant_programs.specs.cited.Prepared.{IsReadingOf, IsRead};

use crate::admission::read_program;
use giotto_check::Checked;
use rig_model::lines::commands::Command;
use rig_model::lines::replies::Refusal;
use std::alloc::Global;
use std::marker::Model;

/// The result of reading a text, if it was read: the well-formed program, or the reason why there is none.
pub type Reading = Option<Result<Checked, Refusal>>;

/// A command with the reading of its text, so that carrying it out needn't read the text. Contracts see it as the command.
#[derive(Drop)]
pub struct Prepared {
    command: Command,
    reading: Reading,
}

impl Model for Prepared {
    ghost use Rattle.rig_model.specs.declared.lines.commands.Command.{Command};
    ghost use Rattle.tenant_programs.specs.cited.Prepared.{IsRead};

    ghost Value = { Command };

    ghost view = { λ p. p.command };

    ghost invariant = { λ p. IsRead p.command p.reading };
}

impl Prepared {
    /// The command.
    pub fn command(&self) -> &Command
        ensures { result.now ≡ self.now }
    {
        &self.command
    }

    /// The command, and the reading of its text.
    pub fn into_parts(self) -> (Command, Reading)
        ensures command { result.0 ≡ self }
        ensures reading { IsRead self result.1 }
    {
        (self.command, self.reading)
    }
}

/// Prepares a command: the text of `load` and `replace` is read and checked. If memory runs out, the text is read when the command is carried
/// out.
pub fn prepare(alloc: Global, command: Command) -> Prepared
    ensures { result ≡ command }
{
    let reading = match &command {
        Command::Load(text) | Command::Replace(text) => reading_of(alloc, text.as_str()),
        _ => None,
    };
    Prepared { command, reading }
}

/// The well-formed program that a text spells, given its reading. Reads the text if it wasn't read before.
///
/// # Errors
/// As in `read_program`. If the text was read before, never for lack of memory.
pub fn program_by_reading(alloc: Global, text: &str, reading: Reading) -> Result<Checked, Refusal>
    requires { IsReadingOf text.now reading }
    ensures read { IfOk result (λ p. program_of text.now ≡ Ok p) }
    ensures refused { IfErr result (λ r. r ≢ Refusal.Memory → program_of text.now ≡ Err r) }
    ensures given { IfSome reading (λ read. result ≡ read) }
{
    match reading {
        Some(read) => read,
        None => read_program(alloc, text),
    }
}

// The reading of a text. `None` if memory runs out.
fn reading_of(alloc: Global, text: &str) -> Reading
    ensures { IsReadingOf text.now result }
{
    match read_program(alloc, text) {
        Err(Refusal::Memory) => None,
        read => Some(read),
    }
}
