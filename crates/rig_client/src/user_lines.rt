//! The lines of a user: those that the client answers itself, those that it makes of a file, and those that it sends.

ghost use Rattle.std.specs.Prelude.{◌≡◌, ◌==◌, if◌then◌else◌, codes, length, nat_eq, true};
ghost use Rattle.std.specs.List.{starts_with};
ghost use Rattle.std.specs.Option.{option_map};
ghost use Rattle.rig_model.specs.lines.Words.{first_word_of};
ghost use Rattle.rig_client.specs.UserLines.{command_line_of, kind_of, help as help_line, path_of, request, sole_word_of, user_line_of};
ghost use Rattle.rig_client.specs.Requests.{word_of_command};

use rig_model::lines::words;

/// A command whose text can be that of a file.
#[derive(Clone, Copy, Debug, PartialEq, Eq)]
pub enum FileCommand {
    /// `load`.
    Load,
    /// `replace`.
    Replace,
}

impl FileCommand {
    /// The word of the command.
    pub fn as_str(self) -> &'static str
        ensures { result.now ≡ word_of_command self }
    {
        match self {
            FileCommand::Load => "load",
            FileCommand::Replace => "replace",
        }
    }
}

/// What a line of a user is.
#[derive(Clone, Copy, Debug)]
pub enum UserLine<'a> {
    /// Only blanks: it has no answer.
    Blank,
    /// `help`, which the client answers.
    Help,
    /// `load < FILE` or `replace < FILE`, also without `<`, and the path, if there is exactly one.
    OfFile(FileCommand, Option<&'a str>),
    /// Everything else, which the server answers.
    Request,
}

/// Returns what a line of a user is.
pub fn user_line(line: &str) -> UserLine<'_>
    ensures { kind_of result ≡ user_line_of line.now }
{
    let rest = words::behind_first_word(line);
    match words::first_word(line) {
        "" => UserLine::Blank,
        "help" => help(rest),
        "load" => command_line(FileCommand::Load, rest),
        "replace" => command_line(FileCommand::Replace, rest),
        _ => UserLine::Request,
    }
}

// The line `help`, with this rest after the word.
fn help(rest: &str) -> UserLine<'_>
    ensures { kind_of result ≡ (if (length (first_word_of rest.now) == 0) then help_line else request) }
{
    if words::first_word(rest).is_empty() {
        UserLine::Help
    } else {
        UserLine::Request
    }
}

// The line `load` or `replace`, with this rest after the word.
fn command_line(command: FileCommand, rest: &str) -> UserLine<'_>
    ensures { kind_of result ≡ command_line_of command rest.now }
{
    if words::first_word(rest).starts_with('<') {
        return UserLine::OfFile(command, path(rest));
    }
    // one word spells no program, so it is a path
    match sole_word(rest) {
        Some(path) => UserLine::OfFile(command, Some(path)),
        None => UserLine::Request,
    }
}

// The path in `< PATH` or `<PATH`, if there is exactly one.
fn path(rest: &str) -> Option<&str>
    requires { starts_with nat_eq (first_word_of rest.now) (codes "<") ≡ true }
    ensures { option_map (λ p. p.now) result ≡ path_of rest.now }
{
    let word = words::first_word(rest);
    let later = words::behind_first_word(rest);
    if word.len() == 1 {
        return sole_word(later);
    }
    if words::first_word(later).is_empty() {
        Some(&word[1..])
    } else {
        None
    }
}

// The word of a text, if it has exactly one.
fn sole_word(text: &str) -> Option<&str>
    ensures { option_map (λ p. p.now) result ≡ sole_word_of text.now }
{
    let word = words::first_word(text);
    if word.is_empty() || !words::first_word(words::behind_first_word(text)).is_empty() {
        return None;
    }
    Some(word)
}
