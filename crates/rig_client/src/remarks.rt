//! What the client writes below an answer about the line that was answered: what is wrong with it, and how to fix it.
//!
//! ```text
//! alpha> shwo mode
//! err bad-command
//! error: `shwo` is no command
//!  = help: did you mean `show mode`?
//! ```

ghost use Rattle.std.specs.Prelude.{◌≡◌, false, true, IfOk, IfSome, option_map, string_bytes};
ghost use Rattle.rig_model.specs.lines.Words.{first_word_of};
ghost use Rattle.similar_words.specs.Distances.{nearest_of};
ghost use Rattle.rig_client.specs.Answers.{is_refused_program};
ghost use Rattle.rig_client.specs.Findings.{AreFindingsOn};
ghost use Rattle.rig_client.specs.Remarks.{forms_for, help_on, meant_by, meant_with, remark_on, remark_on_command, remark_on_refusal, shown_by, words_of_show};

use crate::answers::is_refused_program;
use crate::programs::{ProgramFiles, findings_on};
use rig_model::lines::words;
use script_checks::commands::forms_of;
use similar_words::nearest;
use std::alloc::{AllocError, Global};

// The words that begin lines of a user.
const WORDS: [&str; 13] = [
    "load", "replace", "start", "stop", "show", "trace", "offer", "unoffer", "bind", "unbind",
    "rows", "quit", "help",
];

/// Returns the remark on a line with this answer, each row with LF. `None` if the answer explains itself, as every accepted line's does.
///
/// # Errors
/// Out of memory.
pub fn remark_on(alloc: Global, line: &str, answer: &[u8]) -> Result<Option<String>, AllocError>
    ensures { IfOk result (λ remark. option_map string_bytes remark ≡ remark_on line.now answer.now) }
{
    if answer == b"err bad-command\n".as_slice() {
        return Ok(Some(remark_on_command(alloc, line)?));
    }
    match remark_on_refusal(answer) {
        Some(remark) => Ok(Some(String::from_str(alloc, remark)?)),
        None => Ok(None),
    }
}

/// Returns the remark on a line with this answer that sent the file at this path. If the program is refused, it is what `check` finds in the
/// file, unless the file can't be read any more or nothing is wrong with it by now.
///
/// # Errors
/// Out of memory.
pub fn remark_on_file<F: ProgramFiles>(
    alloc: Global,
    files: &F,
    file: (&str, &str),
    answer: &[u8],
) -> Result<Option<String>, AllocError>
    ensures findings { is_refused_program answer.now ≡ true → IfOk result (λ remark. IfSome remark (λ findings. AreFindingsOn file.entry.0.now (string_bytes findings))) }
    ensures others { is_refused_program answer.now ≡ false → IfOk result (λ remark. option_map string_bytes remark ≡ remark_on file.entry.1.now answer.now) }
{
    let (path, line) = file;
    if is_refused_program(answer) {
        findings_on(alloc, files, path)
    } else {
        remark_on(alloc, line, answer)
    }
}

// What a refusal means that isn't explained by the line.
fn remark_on_refusal(answer: &[u8]) -> Option<&'static str>
    ensures { option_map (λ remark. remark.now) result ≡ remark_on_refusal answer.now }
{
    if answer == b"err who\n".as_slice() {
        return Some("error: the server has no tenant with this name and this key\n");
    }
    if answer == b"err budget offers\n".as_slice() || answer == b"err budget binds\n".as_slice() {
        return Some(
            "error: the tenant has as many of these as it may have\n = help: `rows` lists them, `unoffer` and `unbind` remove them\n",
        );
    }
    if answer.starts_with(b"err budget ") {
        return Some(
            "error: the program exceeds this budget of the tenant\n = help: `rig_host check` with `--config` and `--tenant` says by how much\n",
        );
    }
    None
}

// What is wrong with a line that is no command.
fn remark_on_command(alloc: Global, line: &str) -> Result<String, AllocError>
    ensures { IfOk result (λ remark. string_bytes remark ≡ remark_on_command line.now) }
{
    let word = words::first_word(line);
    if let Some(forms) = forms_for(word) {
        return format!(in alloc;
            "error: this is none of the forms of `{word}`\n = help: {forms}\n"
        );
    }
    let meant = meant_by(alloc, line)?;
    let help = help_on(alloc, meant)?;
    format!(in alloc; "error: `{word}` is no command\n = help: {help}\n")
}

// The forms of the user's lines that begin with this word.
fn forms_for(word: &str) -> Option<&'static str>
    ensures { option_map (λ forms. forms.now) result ≡ forms_for word.now }
{
    match word {
        "quit" | "help" => Some("nothing comes after this word"),
        _ => forms_of(word),
    }
}

// How to fix a line that is no command, by the command that may be meant.
fn help_on(alloc: Global, meant: Option<String>) -> Result<String, AllocError>
    ensures { IfOk result (λ help. string_bytes help ≡ help_on (option_map string_bytes meant)) }
{
    match meant {
        Some(command) => format!(in alloc; "did you mean `{command}`?"),
        None => String::from_str(alloc, "`help` lists the commands"),
    }
}

// The command that may be meant by a line.
fn meant_by(alloc: Global, line: &str) -> Result<Option<String>, AllocError>
    ensures { IfOk result (λ meant. option_map string_bytes meant ≡ meant_by line.now) }
{
    let (word, rest) = words::cut(line);
    let near = nearest(alloc, word, &WORDS)?;
    meant_with(alloc, rest, near)
}

// The command that may be meant by the word that is near, and by what follows in the line.
fn meant_with(
    alloc: Global,
    rest: &str,
    near: Option<&'static str>,
) -> Result<Option<String>, AllocError>
    ensures { IfOk result (λ meant. option_map string_bytes meant ≡ meant_with rest.now (option_map (λ w. w.now) near.entry)) }
{
    match near {
        Some("show") => Ok(Some(shown_by(alloc, rest)?)),
        Some(word) => Ok(Some(String::from_str(alloc, word)?)),
        None => Ok(None),
    }
}

// `show`, with the word that may be meant by the next one.
fn shown_by(alloc: Global, rest: &str) -> Result<String, AllocError>
    ensures { IfOk result (λ shown. string_bytes shown ≡ shown_by (nearest_of (first_word_of rest.now) words_of_show)) }
{
    match nearest(alloc, words::first_word(rest), &["mode", "port", "all"])? {
        Some(word) => format!(in alloc; "show {word}"),
        None => String::from_str(alloc, "show"),
    }
}
