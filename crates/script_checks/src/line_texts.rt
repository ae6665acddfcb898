//! Findings about lines of a script, in the form of a compiler's messages.

ghost use Rattle.std.specs.Prelude.{◌≡◌, ◌≢◌, ◌+◌, IfOk, is_some, min, string_bytes};
ghost use Rattle.program_checks.specs.faults.Findings.{BeginsWith, head_at};
ghost use Rattle.giotto_tasks.specs.Names.{is_among};
ghost use Rattle.rig_model.specs.lines.Words.{behind_first_word, first_word_of};
ghost use Rattle.script_checks.specs.LineTexts.{IsErrorAt, column_in, end_with_command, has_forms, offset_of_command, offset_of_fault, offset_of_word, place_in, text_or_none, words_of_bad_command, words_of_command, words_of_fault, words_of_frame, words_of_nobody, words_of_operator};

use crate::commands::forms_of;
use crate::lines::{LineFault, text_of_line};
use giotto_faults::findings::{Finding, Severity};
use giotto_faults::places::Place;
use rig_model::config::Config;
use rig_model::lines::words;
use similar_words::nearest;
use std::alloc::{AllocError, Global};
use unicode_width::UnicodeWidthStr;

// How many bytes of a long line are shown on each side of the place of a finding.
const SIDE: usize = 60;

/// The finding that reports a fault of a line with this text. If the line is too long or not UTF-8, the finding is about the line
/// as a whole.
///
/// # Errors
/// Out of memory.
pub(crate) fn one_finding(
    alloc: Global,
    config: &Config,
    line: &str,
    fault: LineFault,
) -> Result<Finding, AllocError>
    requires { fault ≢ LineFault.Program }
    ensures { IfOk result (IsErrorAt (offset_of_fault line.now fault) (words_of_fault config.now line.now fault)) }
{
    match fault {
        LineFault::TooLong => whole(
            alloc,
            "the line has more than 16384 bytes, and ends the script for all",
        ),
        LineFault::NotText => whole(alloc, "the line isn't UTF-8, and ends the script for all"),
        LineFault::UnknownSpeaker => unknown_name(alloc, config, line, line),
        LineFault::UnknownTenant => {
            let rest = words::behind_first_word(line);
            unknown_name(alloc, config, line, words::behind_first_word(rest))
        }
        LineFault::BadFrame => bad_frame(alloc, config, line),
        LineFault::BadCommand => bad_command(alloc, line),
        LineFault::Program => unreachable!(),
    }
}

// A finding at the start of a line.
fn whole(alloc: Global, message: &str) -> Result<Finding, AllocError>
    ensures { IfOk result (IsErrorAt 0 message.now) }
{
    Ok(Finding {
        severity: Severity::Error,
        offset: 0,
        len: 0,
        message: String::from_str(alloc, message)?,
        rule: None,
        help: None,
    })
}

// A finding at the first word of `end`, with which the line ends.
fn at_word(line: &str, end: &str, message: String, help: Option<String>) -> Finding
    ensures { IsErrorAt (offset_of_word line.now end.now) (string_bytes message) result }
{
    Finding {
        severity: Severity::Error,
        offset: offset_of_word(line, end),
        len: words::first_word(end).len(),
        message,
        rule: None,
        help,
    }
}

/// The offset of the first word of `end`, with which the line ends.
pub(crate) fn offset_of_word(line: &str, end: &str) -> usize
    ensures { result ≡ offset_of_word line.now end.now }
{
    let (word, behind) = words::cut(end);
    line.len()
        .saturating_sub(behind.len())
        .saturating_sub(word.len())
}

// The finding if the first word of `end`, with which the line ends, is not a tenant's name.
fn unknown_name(
    alloc: Global,
    config: &Config,
    line: &str,
    end: &str,
) -> Result<Finding, AllocError>
    ensures { IfOk result (IsErrorAt (offset_of_word line.now end.now) (words_of_nobody (first_word_of end.now))) }
{
    let name = words::first_word(end);
    let message = format!(in alloc; "no tenant has the name `{name}`")?;
    let names = names(alloc, config)?;
    Ok(at_word(line, end, message, Some(names)))
}

// The finding if a tick has the wrong number of values.
fn bad_frame(alloc: Global, config: &Config, line: &str) -> Result<Finding, AllocError>
    ensures { IfOk result (IsErrorAt (offset_of_word line.now (behind_first_word line.now)) (words_of_frame config.now)) }
{
    let lines = config.lines();
    let message = format!(in alloc;
        "a tick has one value for each rig line, and this rig has {lines}"
    )?;
    Ok(at_word(line, words::behind_first_word(line), message, None))
}

// Lists who may speak.
fn names(alloc: Global, config: &Config) -> Result<String, AllocError> {
    let mut text = String::from_str(alloc, "the tenants are ")?;
    for (place, tenant) in config.tenants().iter().enumerate() {
        text.push_str(if place == 0 { "" } else { ", " })?;
        text.push_str(tenant.name.as_str())?;
    }
    text.push_str("; the operator is `op`")?;
    Ok(text)
}

// The finding about a line that has none of the forms of a command.
fn bad_command(alloc: Global, line: &str) -> Result<Finding, AllocError>
    ensures { IfOk result (IsErrorAt (offset_of_command line.now) (words_of_bad_command line.now)) }
{
    let (speaker, rest) = words::cut(line);
    let word = words::first_word(rest);
    let forms = forms_for(speaker, word);
    let message = words_of_command(alloc, speaker, word, forms.is_some())?;
    let help = help_on_forms(alloc, speaker, word, forms)?;
    Ok(at_word(line, end_with_command(line, rest), message, Some(help)))
}

// What comes after the first word, if there is a word in it, or else the whole line.
fn end_with_command<'a>(line: &'a str, rest: &'a str) -> &'a str
    requires { rest.now ≡ behind_first_word line.now }
    ensures { result.now ≡ end_with_command line.now }
{
    if words::first_word(rest).is_empty() {
        line
    } else {
        rest
    }
}

// The message about a command that begins with this word. `is_known` says whether the word's forms are known.
fn words_of_command(
    alloc: Global,
    speaker: &str,
    word: &str,
    is_known: bool,
) -> Result<String, AllocError>
    requires { is_known ≡ has_forms speaker.now word.now }
    ensures { IfOk result (λ words. string_bytes words ≡ words_of_command speaker.now word.now) }
{
    if word.is_empty() {
        return format!(in alloc; "there is no command after `{speaker}`");
    }
    if is_known {
        format!(in alloc; "this is none of the forms of `{word}`")
    } else {
        format!(in alloc; "`{word}` is no command")
    }
}

// How to fix a command: the forms of its word, or else the word that is meant, or else the words that exist.
fn help_on_forms(
    alloc: Global,
    speaker: &str,
    word: &str,
    forms: Option<&'static str>,
) -> Result<String, AllocError> {
    if let Some(forms) = forms {
        return String::from_str(alloc, forms);
    }
    match nearest(alloc, word, words_of(speaker))? {
        Some(meant) => format!(in alloc; "did you mean `{meant}`?"),
        None => String::from_str(alloc, words_for(speaker, word)),
    }
}

// The words that begin this speaker's commands.
fn words_of(speaker: &str) -> &'static [&'static str] {
    if speaker == "op" {
        &["tick", "work", "lines"]
    } else {
        &[
            "load", "replace", "start", "stop", "show", "trace", "offer", "unoffer", "bind",
            "unbind", "rows",
        ]
    }
}

// The commands of this speaker, if the word begins none of them.
fn words_for(speaker: &str, word: &str) -> &'static str {
    match (speaker, word) {
        ("op", "wait" | "archive" | "halt") =>
            "this is a line for the operator of `serve`; in a script the operator has `op tick V ..`, `op work`, `op work TENANT` and `op lines`",
        ("op", _) =>
            "an operator's line is `op tick V ..`, `op work`, `op work TENANT` or `op lines`",
        _ =>
            "the commands are load, replace, start, stop, show, trace, offer, unoffer, bind, unbind and rows",
    }
}

// The forms of this speaker's commands that begin with this word.
fn forms_for(speaker: &str, word: &str) -> Option<&'static str>
    ensures { is_some result ≡ has_forms speaker.now word.now }
{
    if words::is_word(speaker, "op") {
        forms_of_operator(word)
    } else {
        forms_of(word)
    }
}

fn forms_of_operator(word: &str) -> Option<&'static str>
    ensures { is_some result ≡ is_among words_of_operator word.now }
{
    match word {
        "tick" => Some("`op tick V ..`, a whole number for each rig line"),
        "work" => Some("`op work` or `op work TENANT`"),
        "lines" => Some("`op lines`"),
        _ => None,
    }
}

// The text of a line as it is shown. If it isn't UTF-8, each byte that isn't ASCII is shown as `?`.
fn lossy(alloc: Global, line: &[u8]) -> Result<String, AllocError> {
    if let Ok(text) = std::str::from_utf8(line) {
        return String::from_str(alloc, text.trim_end_matches('\r'));
    }
    let mut text = String::new(alloc);
    for byte in line {
        text.push(if *byte < 128 { char::from(*byte) } else { '?' })?;
    }
    Ok(text)
}

/// The end of a line of a script, which findings are about.
#[derive(Clone, Copy)]
pub(crate) struct LineEnd<'a> {
    /// The line's number, counted from 1.
    pub(crate) number: usize,
    /// The line's bytes.
    pub(crate) line: &'a [u8],
    /// How many bytes of the line's text come before this end.
    pub(crate) before: usize,
}

impl LineEnd<'_> {
    /// The place of the byte with this offset in this end.
    pub(crate) fn place(&self, offset: usize) -> Place
        ensures { result ≡ place_in self.now.number self.now.line.now (self.now.before + offset) }
    {
        Place {
            line: self.number,
            column: column_of(self.line, self.before, offset),
        }
    }
}

/// A finding about the end of a line as text. It has the file, the line's number and the column, what is found, and the line with
/// carets below. Of a long line, only the part around the place is shown.
///
/// # Errors
/// Out of memory.
pub(crate) fn shown_in_line(
    alloc: Global,
    file: &str,
    end: &LineEnd,
    finding: &Finding,
) -> Result<String, AllocError>
    ensures { IfOk result (λ shown. BeginsWith (head_at finding.now file.now (place_in end.now.number end.now.line.now (end.now.before + finding.now.offset))) (string_bytes shown)) }
{
    let below = below(alloc, end, finding)?;
    shown_at(
        alloc,
        file,
        end.place(finding.offset),
        finding,
        below.as_str(),
    )
}

/// A finding at a place of a file as text, with these lines below its first line.
///
/// # Errors
/// Out of memory.
pub(crate) fn shown_at(
    alloc: Global,
    file: &str,
    place: Place,
    finding: &Finding,
    below: &str,
) -> Result<String, AllocError>
    ensures { IfOk result (λ shown. BeginsWith (head_at finding.now file.now place) (string_bytes shown)) }
{
    let head = head_of(alloc, file, place, finding)?;
    format!(in alloc; "{head}{below}")
}

// The first line: the file, the place and what is found.
fn head_of(alloc: Global, file: &str, place: Place, finding: &Finding) -> Result<String, AllocError>
    ensures { IfOk result (λ head. string_bytes head ≡ head_at finding.now file.now place) }
{
    let Place { line, column } = place;
    let severity = finding.severity;
    let message = finding.message.as_str();
    format!(in alloc; "{file}:{line}:{column}: {severity}: {message}\n")
}

// The column of the byte of a line that comes `offset` bytes after the first `before` bytes.
fn column_of(line: &[u8], before: usize, offset: usize) -> usize
    ensures { result ≡ column_in line.now (before + offset) }
{
    let text = text_or_none(line);
    Place::of(text, offset_within(before, offset, text.len())).column
}

// The sum of `before` and `offset`, but at most `len`.
fn offset_within(before: usize, offset: usize, len: usize) -> usize
    ensures { result ≡ min (before + offset) len }
{
    before.saturating_add(offset).min(len)
}

/// The text of a line. It is empty if the line is too long or not UTF-8.
pub(crate) fn text_or_none(line: &[u8]) -> &str
    ensures { result.now ≡ text_or_none line.now }
{
    match text_of_line(line) {
        Some(text) => text,
        None => "",
    }
}

// The lines below it: the line with carets, the rule and the help.
fn below(alloc: Global, end: &LineEnd, finding: &Finding) -> Result<String, AllocError> {
    let mut text = marked(alloc, end, finding.offset, finding.len)?;
    let margin = margin_of(alloc, end)?;
    add_remark(alloc, &mut text, margin.as_str(), "", &finding.rule)?;
    add_remark(alloc, &mut text, margin.as_str(), "help: ", &finding.help)?;
    Ok(text)
}

// As many blanks as the line's number has digits.
fn margin_of(alloc: Global, end: &LineEnd) -> Result<String, AllocError> {
    let number = format!(in alloc; "{}", end.number)?;
    repeated(alloc, " ", number.len())
}

/// A line, with carets below `len` bytes from this offset in its end on.
///
/// # Errors
/// Out of memory.
pub(crate) fn marked(
    alloc: Global,
    end: &LineEnd,
    offset: usize,
    len: usize,
) -> Result<String, AllocError> {
    let source = lossy(alloc, end.line)?;
    let line = source.as_str();
    let offset = end.before.saturating_add(offset);
    let begin = begin_of(line, offset);
    let excerpt = excerpt_of(alloc, line, begin, offset)?;
    let carets = carets_of(alloc, line, begin, offset, len)?;
    let margin = margin_of(alloc, end)?;
    let (number, margin) = (end.number, margin.as_str());
    let (excerpt, carets) = (excerpt.as_str(), carets.as_str());
    format!(in alloc; "{margin} |\n{number} | {excerpt}\n{margin} | {carets}\n")
}

// The carets for the finding, below a line that is shown from the byte `begin` on.
fn carets_of(
    alloc: Global,
    line: &str,
    begin: usize,
    offset: usize,
    len: usize,
) -> Result<String, AllocError> {
    let left = without_tabs(alloc, line.get(begin..offset).unwrap_or(""))?;
    let dots = if begin == 0 { 0 } else { 3 };
    let indent = repeated(alloc, " ", left.as_str().width().saturating_add(dots))?;
    let carets = repeated(alloc, "^", width_of(line, offset, len))?;
    format!(in alloc; "{}{}", indent.as_str(), carets.as_str())
}

// Adds a rule or a help, if there is one.
fn add_remark(
    alloc: Global,
    text: &mut String,
    margin: &str,
    what: &str,
    remark: &Option<String>,
) -> Result<(), AllocError> {
    if let Some(remark) = remark {
        let row = format!(in alloc; "{margin} = {what}{}\n", remark.as_str())?;
        text.push_str(row.as_str())?;
    }
    Ok(())
}

// The byte from which on a line is shown.
fn begin_of(line: &str, offset: usize) -> usize {
    if offset <= SIDE.saturating_add(SIDE) {
        return 0;
    }
    boundary_at(line, offset.saturating_sub(SIDE))
}

// The last place at or before this one at which a character begins, or the text ends.
fn boundary_at(line: &str, place: usize) -> usize {
    let place = place.min(line.len());
    for back in 0..4usize {
        let one = place.saturating_sub(back);
        if line.is_char_boundary(one) {
            return one;
        }
    }
    0
}

// The part of a line that is shown from the byte `begin` on, with dots where the line goes on.
fn excerpt_of(
    alloc: Global,
    line: &str,
    begin: usize,
    offset: usize,
) -> Result<String, AllocError> {
    let end = boundary_at(line, offset.saturating_add(SIDE));
    let part = without_tabs(alloc, line.get(begin..end).unwrap_or(""))?;
    let before = if begin == 0 { "" } else { "..." };
    let behind = if end < line.len() { "..." } else { "" };
    format!(in alloc; "{before}{}{behind}", part.as_str())
}

// How many carets mark a finding: at least one, and at most `SIDE`.
fn width_of(line: &str, offset: usize, len: usize) -> usize {
    let end = offset.saturating_add(len).min(line.len());
    let piece = line.get(offset..end).unwrap_or("");
    piece.width().max(1).min(SIDE)
}

fn repeated(alloc: Global, piece: &str, count: usize) -> Result<String, AllocError> {
    let mut text = String::new(alloc);
    for _ in 0..count {
        text.push_str(piece)?;
    }
    Ok(text)
}

fn without_tabs(alloc: Global, line: &str) -> Result<String, AllocError> {
    let mut text = String::new(alloc);
    for character in line.chars() {
        text.push(if character == '\t' { ' ' } else { character })?;
    }
    Ok(text)
}
