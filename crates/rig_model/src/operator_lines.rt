//! The lines of an operator.

ghost use Rattle.std.specs.Prelude.{◌≡◌, ◌==◌, ◌∷◌, if◌then◌else◌, codes, length};
ghost use Rattle.rig_model.specs.OperatorLines.{bad_command, form_of, operator_line_of};
ghost use Rattle.tenant_lines.specs.Words.{first_word_of, words_of};

use giotto_rules::text::name_bytes::is_name;
use tenant_lines::words;

/// A line of the operator. A script refuses `Wait`, `Archive` and `Halt`, and a server refuses `Work` and `WorkOf`.
#[derive(Drop)]
pub enum OperatorLine<'a> {
    /// A line without a word. A server doesn't reply to it, and a script refuses it.
    Blank,
    /// An instant, with the words after `tick`: the value of each line of the rig. If a word has no value, the line is a bad command.
    Tick(&'a str),
    /// Asks for the value that each line is driven with.
    Lines,
    /// Runs and completes all outstanding jobs.
    Work,
    /// Runs and completes the outstanding jobs of the tenant with this name.
    WorkOf(&'a str),
    /// Waits until no job is outstanding.
    Wait,
    /// Hands out the log, which is then dropped.
    Archive,
    /// Accepts no further connection, and ends after the open ones have ended.
    Halt,
    /// None of these forms.
    BadCommand,
}

/// Reads a line of the operator: blank, `tick V ..`, `lines`, `work`, `work TENANT`, `wait`, `archive` or `halt`. In a script it is what
/// comes after `op`. Takes no memory, since the values of a `tick` are left as words.
#[inline(always)]
pub fn operator_line(line: &str) -> OperatorLine<'_>
    ensures { form_of result ≡ operator_line_of (words_of line.now) }
{
    let (word, rest) = words::cut(line);
    if words::is_word(word, "tick") {
        return OperatorLine::Tick(rest);
    }
    if words::is_word(word, "work") {
        return work(rest);
    }
    if words::is_word(word, "lines") {
        return alone(rest, OperatorLine::Lines);
    }
    match word {
        "" => OperatorLine::Blank,
        "wait" => alone(rest, OperatorLine::Wait),
        "archive" => alone(rest, OperatorLine::Archive),
        "halt" => alone(rest, OperatorLine::Halt),
        _ => OperatorLine::BadCommand,
    }
}

// A `work`, given the words after it.
#[inline(always)]
fn work(rest: &str) -> OperatorLine<'_>
    ensures { form_of result ≡ operator_line_of (codes "work" ∷ words_of rest.now) }
{
    let (name, more) = words::cut(rest);
    if name.is_empty() {
        return OperatorLine::Work;
    }
    if is_name(name.as_bytes()) && words::first_word(more).is_empty() {
        return OperatorLine::WorkOf(name);
    }
    OperatorLine::BadCommand
}

// A line of one word, given the rest of the line.
#[inline(always)]
fn alone<'a>(rest: &str, line: OperatorLine<'a>) -> OperatorLine<'a>
    ensures { form_of result ≡ (if (length (first_word_of rest.now) == 0) then form_of line.entry else bad_command) }
{
    if words::first_word(rest).is_empty() {
        line
    } else {
        OperatorLine::BadCommand
    }
}
