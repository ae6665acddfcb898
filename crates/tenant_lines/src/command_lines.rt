//! Reads the command that a line spells.

ghost use Rattle.std.specs.Prelude.{◌≡◌, ◌<◌, true, IfOk, IfErr, IfSome, IsErr, if◌then◌else◌, Some, None, length};
ghost use Rattle.std.specs.Option.{option_map};
ghost use Rattle.giotto_text.specs.Bytes.{is_name};
ghost use Rattle.tenant_lines.specs.CommandLine.{alone, command_of_words, command_of_line, own_port_of, port_of_word, port_shown_by, shown_by, text_behind};
ghost use Rattle.tenant_lines.specs.Words.{words_of};
ghost use Rattle.tenant_lines.specs.cited.Copies.{has_text};
ghost use Rattle.tenant_lines.specs.inner.CutLines.{words_from};

use crate::commands::Command;
use crate::grant_lines::grant_command_of;
use crate::ports::PortName;
use crate::shared_texts::SharedText;
use crate::words::{behind_first_word, cut, first_word, is_word, skip_blanks};
use giotto_tasks::names::Name;
use giotto_text::name_bytes::is_name;
use std::alloc::Global;
use thiserror::Error;

/// Why a line gives no command.
#[derive(Clone, Copy, Debug, PartialEq, Eq, Error)]
pub enum LineFault {
    /// The line has none of the forms of a command.
    #[error("the line has none of the forms of a command")]
    BadCommand,
    /// Out of memory for the text of a `load` or a `replace`.
    #[error("no memory for the text of the command")]
    Memory,
}

/// The command of a line, without the tenant's name.
///
/// The forms are `load TEXT`, `replace TEXT`, `start`, `stop`, `show mode`, `show all`, `show port NAME`, `show port TASK.NAME`
/// and `trace`, and the commands about grants: `offer NAME to TENANT`, `offer NAME to TENANT from LO to HI`,
/// `unoffer NAME to TENANT`, `bind NAME from TENANT.NAME`, `unbind NAME` and `rows`. NAME, TASK and TENANT have the shape of a
/// program's name.
///
/// The text of `load` and `replace` is all that follows the one blank after the word, and may be empty. Only this text takes
/// memory; an empty one takes none. In the other commands, one or more blanks separate words.
///
/// # Errors
/// `BadCommand` for every other line. `Memory` if memory runs out for the text of a `load` or a `replace`; never for an empty text.
#[inline(always)]
pub fn command_of(alloc: Global, line: &str) -> Result<Command, LineFault>
    ensures command { IfOk result (λ c. command_of_line line.now ≡ Some c) }
    ensures none { result ≡ Err LineFault.BadCommand → command_of_line line.now ≡ None }
    ensures memory { result ≡ Err LineFault.Memory → option_map has_text (command_of_line line.now) ≡ Some true }
{
    match name_shown(line) {
        Some(name) => Ok(Command::ShowPort(PortName { task: None, name })),
        None => command_by_words(alloc, line),
    }
}

/// The name in a line `show port NAME`, without making a command of the line. Reads only lines with one blank between the words
/// and nothing after the name. `None` says nothing about the line.
///
/// This command is the most frequent, so its line isn't cut into words.
#[inline(always)]
pub fn name_shown(line: &str) -> Option<Name>
    ensures { IfSome result (λ name. command_of_line line.now ≡ Some (Command.ShowPort (record { task = None; name = name }))) }
{
    let (words, name) = skip_blanks(line).split_at_checked(10)?;
    if !is_word(words, "show port ") {
        return None;
    }
    name_of_word(name)
}

// The command of a line, word by word.
#[inline(never)]
fn command_by_words(alloc: Global, line: &str) -> Result<Command, LineFault>
    ensures command { IfOk result (λ c. command_of_line line.now ≡ Some c) }
    ensures none { result ≡ Err LineFault.BadCommand → command_of_line line.now ≡ None }
    ensures memory { result ≡ Err LineFault.Memory → option_map has_text (command_of_line line.now) ≡ Some true }
{
    let (word, rest) = cut(line);
    if is_word(word, "load") {
        return Ok(Command::Load(text_of(alloc, line)?));
    }
    if is_word(word, "replace") {
        return Ok(Command::Replace(text_of(alloc, line)?));
    }
    command_of_words(word, rest).ok_or(LineFault::BadCommand)
}

// The text after the first word. Takes no memory if nothing follows the word.
fn text_of(alloc: Global, line: &str) -> Result<SharedText, LineFault>
    ensures text { IfOk result (λ text. text ≡ text_behind line.now) }
    ensures memory { IfErr result (λ fault. fault ≡ LineFault.Memory) }
    ensures room { IsErr result → 0 < length (text_behind line.now) }
{
    SharedText::from_str(alloc, text_behind(line)).map_err(|_| LineFault::Memory)
}

// What follows the first word and one blank.
fn text_behind(line: &str) -> &str
    ensures { result.now ≡ text_behind line.now }
{
    let rest = behind_first_word(line);
    if rest.is_empty() { rest } else { &rest[1..] }
}

// The command of this first word and the words that follow it, if it is one without a text.
fn command_of_words(word: &str, rest: &str) -> Option<Command>
    ensures { result ≡ command_of_words (words_from word.now rest.now) }
{
    if is_word(word, "show") {
        return show(rest);
    }
    if is_word(word, "trace") {
        return alone(Command::Trace, rest);
    }
    if is_word(word, "start") {
        return alone(Command::Start, rest);
    }
    if is_word(word, "stop") {
        return alone(Command::Stop, rest);
    }
    Some(Command::Grants(grant_command_of(word, rest)?))
}

// The command, if no word follows it.
fn alone(command: Command, rest: &str) -> Option<Command>
    ensures { result ≡ alone command (words_of rest.now) }
{
    first_word(rest).is_empty().then_some(command)
}

// The command of `show` and what follows it.
fn show(rest: &str) -> Option<Command>
    ensures { result ≡ shown_by (words_of rest.now) }
{
    let (word, behind) = cut(rest);
    if is_word(word, "port") {
        return show_port(behind);
    }
    if is_word(word, "mode") {
        return alone(Command::ShowMode, behind);
    }
    if is_word(word, "all") {
        return alone(Command::ShowAll, behind);
    }
    None
}

// The command of `show port` and what follows it.
fn show_port(rest: &str) -> Option<Command>
    ensures { result ≡ port_shown_by (words_of rest.now) }
{
    let (word, behind) = cut(rest);
    let port = port_of_word(word)?;
    alone(Command::ShowPort(port), behind)
}

// A port's name: NAME, or TASK.NAME.
fn port_of_word(word: &str) -> Option<PortName>
    ensures { result ≡ port_of_word word.now }
{
    match word.split_once('.') {
        Some((task, name)) => own_port_of(task, name),
        None => Some(PortName {
            task: None,
            name: name_of_word(word)?,
        }),
    }
}

// The name of a task's port.
fn own_port_of(task: &str, name: &str) -> Option<PortName>
    ensures { result ≡ own_port_of task.now name.now }
{
    Some(PortName {
        task: Some(name_of_word(task)?),
        name: name_of_word(name)?,
    })
}

// A word as a name, if it has the shape of one.
pub(crate) fn name_of_word(word: &str) -> Option<Name>
    ensures { result ≡ (if is_name word.now then Some word.now else None) }
{
    if !is_name(word.as_bytes()) {
        return None;
    }
    Name::new(word)
}
