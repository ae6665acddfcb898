//! Runs: scripts with the reply that each line should get.

ghost use Rattle.std.specs.Prelude.{◌≡◌, ◌++◌, ◌∷◌, [], ◌<◌, ◌==◌, IfOk, IsTrue, OnOk, false, get_or, length, map, option_map, string_bytes};
ghost use Rattle.std.specs.List.{after_first, before_first, position_or_len};
ghost use Rattle.std.specs.Str.Lines.{strip_carriage_return};
ghost use Rattle.script_reports.specs.cited.Runs.{IsReadAs, configuration_of, entries_from, entries_of, first_line_of, is_remark, is_reply, line_in, parts_of, placed_line, placed_script_of, reply_in, script_of};

use std::alloc::{AllocError, Global};
use std::marker::Model;
use thiserror::Error;

/// What is wrong with the text of a run.
#[derive(Clone, Copy, Debug, PartialEq, Eq, Error)]
pub enum RunFault {
    /// The line with this number is a reply, and no line of the script is right above it.
    #[error("this is a reply, and there is no line above that it answers")]
    NoLine(usize),
    /// Out of memory.
    #[error("out of memory")]
    Memory,
}

impl From<AllocError> for RunFault {
    ghost use Rattle.std.specs.Prelude.{◌≡◌};
    ghost use Rattle.script_reports.specs.declared.runs.RunFault.TheVariants.{Memory};

    ghost from_gives = { λ _ fault. fault ≡ Memory };

    fn from(_error: AllocError) -> RunFault {
        RunFault::Memory
    }
}

/// A line of a script with the reply that it should get. Contracts see it as its number, its text and the reply.
#[derive(Drop)]
pub struct RunLine {
    number: usize,
    text: String,
    reply: String,
}

impl Model for RunLine {
    ghost use Rattle.std.specs.Prelude.{string_bytes};
    ghost use Rattle.script_reports.specs.cited.Runs.{RunEntry};

    ghost Value = { RunEntry };

    ghost view = { λ l. record { number = l.number; text = string_bytes l.text; reply = string_bytes l.reply } };
}

impl RunLine {
    /// The line's number in the file, counted from 1.
    pub fn number(&self) -> usize
        ensures { result ≡ self.now.number }
    {
        self.number
    }

    /// The line, as the script has it.
    pub fn text(&self) -> &str
        ensures { result.now ≡ self.now.text }
    {
        self.text.as_str()
    }

    /// The reply, without LF. It is empty if there should be none.
    pub fn reply(&self) -> &str
        ensures { result.now ≡ self.now.reply }
    {
        self.reply.as_str()
    }
}

/// Reads a run.
///
/// A line that begins with four blanks and has more bytes after them is the reply to the line of the script right above it. An
/// empty line, and a line that begins with `#`, mean nothing. Each other line is a line of the script. Lines may end with CR LF.
///
/// # Errors
/// `NoLine` with the number of the first reply that isn't right below a line of the script; `Memory`.
pub fn read_run(alloc: Global, text: &str) -> Result<Vec<RunLine>, RunFault>
    ensures { IsReadAs (entries_of text.now) result }
{
    let parts = parts_of(alloc, text)?;
    lines_of_parts(alloc, parts.as_slice())
}

// The lines of the script among the lines of a file.
fn lines_of_parts(alloc: Global, parts: &[&str]) -> Result<Vec<RunLine>, RunFault>
    ensures { IsReadAs (entries_from false 0 (map (λ p. p.now) parts.now)) result }
{
    let mut lines = Vec::new(alloc);
    let mut is_awaited = false;
    for (place, part) in parts.iter().enumerate() {
        if is_reply(part) {
            if !is_awaited {
                return Err(RunFault::NoLine(place + 1));
            }
            is_awaited = false;
        } else if is_remark(part) {
            is_awaited = false;
        } else {
            let reply = reply_at(parts, place + 1);
            add_line(alloc, &mut lines, place + 1, part, reply)?;
            is_awaited = true;
        }
    }
    Ok(lines)
}

/// The lines of a file.
///
/// # Errors
/// Out of memory.
pub(crate) fn parts_of(alloc: Global, text: &str) -> Result<Vec<&str>, AllocError>
    ensures { IfOk result (λ parts. map (λ p. p.now) parts.items ≡ parts_of text.now) }
{
    let mut parts = Vec::new(alloc);
    let mut rest = text;
    while has_feed(rest) {
        parts.push(before_feed(rest))?;
        rest = after_first_line(rest);
    }
    parts.push(rest)?;
    Ok(parts)
}

// Whether a text has an LF.
fn has_feed(text: &str) -> bool
    ensures some { IsTrue result → position_or_len (λ c. c == 10) text.now < length text.now }
    ensures none { result ≡ false → position_or_len (λ c. c == 10) text.now ≡ length text.now }
{
    match text.split_once('\n') {
        Some(_) => true,
        None => false,
    }
}

// What comes before the first LF.
fn before_feed(text: &str) -> &str
    ensures { position_or_len (λ c. c == 10) text.now < length text.now → result.now ≡ before_first (λ c. c == 10) text.now }
{
    match text.split_once('\n') {
        Some((before, _later)) => before,
        None => text,
    }
}

/// What comes after the first line of a text. It is empty if the text has no LF.
pub fn after_first_line(text: &str) -> &str
    ensures { result.now ≡ after_first (λ c. c == 10) text.now }
{
    match text.split_once('\n') {
        Some((_line, later)) => later,
        None => "",
    }
}

// The reply at this place, without its blanks, if there is one.
fn reply_at<'a>(parts: &[&'a str], place: usize) -> &'a str
    ensures { result.now ≡ reply_in (get_or (map (λ p. p.now) parts.now) place []) }
{
    match parts.get(place) {
        Some(part) => reply_in(part),
        None => "",
    }
}

// The reply that a line of a file is, without its blanks and a CR at its end. It is empty if the line is not a reply.
fn reply_in(part: &str) -> &str
    ensures { result.now ≡ reply_in part.now }
{
    if !is_reply(part) {
        return "";
    }
    without_cr(&part[4..])
}

// A text without the CR at its end, if it has one.
fn without_cr(text: &str) -> &str
    ensures { result.now ≡ strip_carriage_return text.now }
{
    match text.strip_suffix('\r') {
        Some(front) => front,
        None => text,
    }
}

// Adds a line with its reply.
fn add_line(
    alloc: Global,
    lines: &mut Vec<RunLine>,
    number: usize,
    text: &str,
    reply: &str,
) -> Result<(), AllocError>
    ensures { OnOk result (lines.new.items ≡ lines.old.items ++ record { number = number; text = text.now; reply = reply.now } ∷ []) }
{
    let line = run_line(alloc, number, text, reply)?;
    lines.push(line)?;
    Ok(())
}

// A line with its reply.
fn run_line(alloc: Global, number: usize, text: &str, reply: &str) -> Result<RunLine, AllocError>
    ensures { IfOk result (λ line. line ≡ record { number = number; text = text.now; reply = reply.now }) }
{
    Ok(RunLine {
        number,
        text: String::from_str(alloc, text)?,
        reply: String::from_str(alloc, reply)?,
    })
}

/// Whether a line of a file is a reply: it begins with four blanks, and has more bytes after them.
pub(crate) fn is_reply(part: &str) -> bool
    ensures { result ≡ is_reply part.now }
{
    matches!(part.as_bytes(), [b' ', b' ', b' ', b' ', _, ..])
}

/// Whether a line of a file means nothing: it is empty, or begins with `#`.
pub(crate) fn is_remark(part: &str) -> bool
    ensures { result ≡ is_remark part.now }
{
    matches!(part.as_bytes(), [] | [b'\r'] | [b'#', ..])
}

/// The lines of the script, each with LF.
///
/// # Errors
/// Out of memory.
pub fn script_of(alloc: Global, lines: &[RunLine]) -> Result<String, AllocError>
    ensures { IfOk result (λ text. string_bytes text ≡ script_of lines.now) }
{
    let mut text = String::new(alloc);
    for line in lines {
        text.push_str(line.text())?;
        text.push('\n')?;
    }
    Ok(text)
}

/// The lines of the script, each with LF and at its own number. Each other line of the file before the last of them is empty here.
///
/// # Errors
/// Out of memory.
pub fn placed_script_of(alloc: Global, lines: &[RunLine]) -> Result<String, AllocError>
    ensures { IfOk result (λ text. string_bytes text ≡ placed_script_of lines.now) }
{
    let mut text = String::new(alloc);
    // how many lines the text has
    let mut count = 0usize;
    for line in lines {
        let placed = placed_line(alloc, count, line)?;
        text.push_str(placed.as_str())?;
        count = line.number();
    }
    Ok(text)
}

// A line with its LF, as it follows a text of `count` lines: after an LF for each line of the file between them.
fn placed_line(alloc: Global, count: usize, line: &RunLine) -> Result<String, AllocError>
    ensures { IfOk result (λ text. string_bytes text ≡ placed_line count line.now) }
{
    let missing = line.number().saturating_sub(1).saturating_sub(count);
    let feeds = "\n".repeat(alloc, missing)?;
    let feeds = feeds.as_str();
    let words = line.text();
    format!(in alloc; "{feeds}{words}\n")
}

/// The path of the configuration that a run names in its first line, `# --config PATH`.
pub fn configuration_of(text: &str) -> Option<&str>
    ensures { option_map (λ path. path.now) result ≡ configuration_of text.now }
{
    if !has_feed(text) {
        return None;
    }
    let path = before_feed(text).strip_prefix("# --config ")?;
    Some(path.trim())
}

/// The first line of a run whose configuration has this path, with LF. Without a path it is empty.
///
/// # Errors
/// Out of memory.
pub fn first_line_of(alloc: Global, path: Option<&str>) -> Result<String, AllocError>
    ensures { IfOk result (λ line. string_bytes line ≡ first_line_of (option_map (λ p. p.now) path.entry)) }
{
    match path {
        Some(path) => format!(in alloc; "# --config {path}\n"),
        None => Ok(String::new(alloc)),
    }
}

/// The replies to the lines of a script, without LF. A reply is empty if there is none. Contracts see it as the list of the
/// replies.
#[derive(Drop)]
pub struct Replies {
    replies: Vec<String>,
}

impl Model for Replies {
    ghost use Rattle.std.specs.Prelude.{ℕ, List, map, string_bytes};

    ghost Value = { List (List ℕ) };

    ghost view = { λ r. map string_bytes r.replies.items };
}

impl Replies {
    /// No replies.
    pub fn new(alloc: Global) -> Replies
        ensures { result ≡ [] }
    {
        Replies {
            replies: Vec::new(alloc),
        }
    }

    /// The replies, the first line's first.
    pub fn as_slice(&self) -> &[String]
        ensures { map string_bytes result.now ≡ self.now }
    {
        self.replies.as_slice()
    }

    /// Adds the reply to one more line, up to its LF.
    ///
    /// # Errors
    /// Out of memory.
    pub fn add(&mut self, alloc: Global, reply: &str) -> Result<(), AllocError>
        ensures { OnOk result (self.new ≡ self.old ++ line_in reply.now ∷ []) }
    {
        let line = String::from_str(alloc, line_in(reply))?;
        self.replies.push(line)?;
        Ok(())
    }
}

// What comes before an LF.
fn line_in(reply: &str) -> &str
    ensures { result.now ≡ line_in reply.now }
{
    match reply.split_once('\n') {
        Some((line, _later)) => line,
        None => reply,
    }
}
