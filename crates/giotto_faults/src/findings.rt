//! Findings about a text, shown in the form of a compiler's messages.

ghost use Rattle.std.specs.Prelude.{◌≡◌, IfOk, length, min, string_bytes};
ghost use Rattle.giotto_faults.specs.Findings.{BeginsWith, head_at, head_of};
ghost use Rattle.giotto_faults.specs.Places.{place_of};

use crate::places::Place;
use std::alloc::{AllocError, Global};
use std::fmt;
use unicode_width::UnicodeWidthStr;

/// How severe a finding is.
#[derive(Clone, Copy, Debug, PartialEq, Eq)]
pub enum Severity {
    /// The text is refused because of it.
    Error,
    /// It belongs to the error above it, or is worth checking.
    Note,
}

impl fmt::Display for Severity {
    ghost use Rattle.std.specs.Prelude.{Some};
    ghost use Rattle.giotto_faults.specs.Findings.{word_of_severity};

    ghost output = { λ severity. Some (word_of_severity severity) };

    fn fmt<W: fmt::Write>(&self, f: &mut fmt::Formatter<W>) -> fmt::Result {
        f.write_str(match self {
            Severity::Error => "error",
            Severity::Note => "note",
        })
    }
}

/// Something that is reported about a text.
#[derive(Drop)]
pub struct Finding {
    pub severity: Severity,
    /// The offset in the text, in bytes, of what the finding is about.
    pub offset: usize,
    /// How many bytes of the text the finding is about: 0 at the text's end.
    pub len: usize,
    /// What is found, in one line.
    pub message: String,
    /// The rule that it breaks, in one line.
    pub rule: Option<String>,
    /// How to fix it, in one line.
    pub help: Option<String>,
}

impl Finding {
    /// The finding as text of several lines. The first line has `file`, the place and what is found. Below it are the text's
    /// line, with a caret below each column of what the finding is about, and the rule and the help, if there are any.
    ///
    /// A tab, like any other control character, is shown as one blank. If the text's line has more than 120 characters, only
    /// those around the place are shown, with `...` where some are left out.
    ///
    /// # Errors
    /// Out of memory.
    pub fn shown(&self, alloc: Global, file: &str, text: &str) -> Result<String, AllocError>
        ensures { IfOk result (λ shown. BeginsWith (head_of self.now file.now text.now) (string_bytes shown)) }
    {
        let place = Place::of(text, self.offset.min(text.len()));
        let head = self.head(alloc, file, place)?;
        let below = self.below(alloc, text, place)?;
        format!(in alloc; "{head}{below}")
    }

    // The first line: the file, the place and what is found.
    fn head(&self, alloc: Global, file: &str, place: Place) -> Result<String, AllocError>
        ensures { IfOk result (λ head. string_bytes head ≡ head_at self.now file.now place) }
    {
        let (line, column, severity) = (place.line, place.column, self.severity);
        let message = self.message.as_str();
        format!(in alloc; "{file}:{line}:{column}: {severity}: {message}\n")
    }

    // The lines below it: the text's line with carets, the rule and the help.
    fn below(&self, alloc: Global, text: &str, place: Place) -> Result<String, AllocError> {
        let line = line_of(text, place.line);
        let number = format!(in alloc; "{}", place.line)?;
        let margin = blanks(alloc, number.len())?;
        let start = bytes_before(text, self.offset);
        let excerpt = excerpt_of(alloc, line, start)?;
        let indent = blanks(alloc, excerpt.indent)?;
        let carets = carets(alloc, line, start, self.len)?;
        let mut shown = format!(in alloc; "{margin} |\n")?;
        push_parts(
            &mut shown,
            &[number.as_str(), " | ", excerpt.text.as_str(), "\n"],
        )?;
        push_parts(
            &mut shown,
            &[
                margin.as_str(),
                " | ",
                indent.as_str(),
                carets.as_str(),
                "\n",
            ],
        )?;
        if let Some(rule) = &self.rule {
            push_parts(&mut shown, &[margin.as_str(), " = ", rule.as_str(), "\n"])?;
        }
        if let Some(help) = &self.help {
            push_parts(
                &mut shown,
                &[margin.as_str(), " = help: ", help.as_str(), "\n"],
            )?;
        }
        Ok(shown)
    }
}

// How many bytes are before the offset in its line.
fn bytes_before(text: &str, offset: usize) -> usize {
    text.as_bytes()
        .iter()
        .take(offset)
        .rev()
        .take_while(|byte| **byte != b'\n')
        .count()
}

// The line with this number, counted from 1, without its line end.
fn line_of(text: &str, number: usize) -> &str {
    text.lines().nth(number.saturating_sub(1)).unwrap_or("")
}

// At most this many characters of a line are shown.
const WIDEST: usize = 120;

// The shown part of a line, and how many columns are before the place that the finding is about.
#[derive(Drop)]
struct Excerpt {
    text: String,
    indent: usize,
}

// The line, or if it is too long, the part around the byte at `start`.
fn excerpt_of(alloc: Global, line: &str, start: usize) -> Result<Excerpt, AllocError> {
    let before = line.get(..start).unwrap_or(line).chars().count();
    let count = line.chars().count();
    let from = if count > WIDEST {
        before.saturating_sub(WIDEST / 2).min(count - WIDEST)
    } else {
        0
    };
    let mut text = String::from_str(alloc, if from > 0 { "..." } else { "" })?;
    push_characters(&mut text, line, from, before.saturating_sub(from))?;
    let indent = text.as_str().width();
    let rest = WIDEST.saturating_sub(before.saturating_sub(from));
    push_characters(&mut text, line, before, rest)?;
    text.push_str(if count > from.saturating_add(WIDEST) {
        "..."
    } else {
        ""
    })?;
    Ok(Excerpt { text, indent })
}

// Adds `count` characters of the line, starting with character `from`. Control characters become blanks.
fn push_characters(
    text: &mut String,
    line: &str,
    from: usize,
    count: usize,
) -> Result<(), AllocError> {
    for character in line.chars().skip(from).take(count) {
        text.push(if character.is_control() {
            ' '
        } else {
            character
        })?;
    }
    Ok(())
}

// A caret for each column of these bytes of the line: at least one, and at most half of `WIDEST`.
fn carets(alloc: Global, line: &str, start: usize, len: usize) -> Result<String, AllocError> {
    let end = start.saturating_add(len).min(line.len());
    let width = line.get(start..end).unwrap_or("").width();
    repeated(alloc, "^", width.max(1).min(WIDEST / 2))
}

fn blanks(alloc: Global, count: usize) -> Result<String, AllocError> {
    repeated(alloc, " ", count)
}

fn repeated(alloc: Global, piece: &str, count: usize) -> Result<String, AllocError> {
    let mut text = String::new(alloc);
    for _ in 0..count {
        text.push_str(piece)?;
    }
    Ok(text)
}

fn push_parts(text: &mut String, parts: &[&str]) -> Result<(), AllocError> {
    for part in parts {
        text.push_str(part)?;
    }
    Ok(())
}
