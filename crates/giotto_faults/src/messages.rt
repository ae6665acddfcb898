//! The messages that report a fault.

ghost use Rattle.std.specs.Prelude.{◌≡◌, IfOk, IsErr};
ghost use Rattle.giotto_faults.specs.Findings.{IsErrorAt, offset_told, shown_offset};
ghost use Rattle.giotto_faults.specs.declared.faults.ProgramFault.TheVariants.{Memory, TooMany};

use crate::faults::{ProgramFault, SyntaxFault};
use crate::findings::{Finding, Severity};
use crate::found::piece_at;
use crate::hints::hint;
use crate::kinds::TokenKind;
use crate::ports::CrowdedPort;
use giotto_read::text::lexer;
use std::alloc::{AllocError, Global};
use unicode_width::UnicodeWidthStr;

impl ProgramFault {
    /// The finding that reports the fault. `text` is the text that has the fault. `source` is that text as it is in its file,
    /// with the same bytes in the same places except for line ends and comments.
    ///
    /// # Errors
    /// Out of memory, and always if the fault is `Memory`.
    pub fn finding(&self, alloc: Global, text: &str, source: &str) -> Result<Finding, AllocError>
        ensures error { IfOk result (IsErrorAt (offset_told text.now self.now)) }
        ensures memory { self.now ≡ Memory → IsErr result }
    {
        match self {
            ProgramFault::Syntax(fault) => syntax_finding(alloc, text, source, fault),
            ProgramFault::TooDeep(offset) => too_deep_finding(alloc, *offset),
            ProgramFault::TooMany(port) => too_many_finding(alloc, text, port),
            ProgramFault::Memory => Err(AllocError),
        }
    }
}

fn syntax_finding(
    alloc: Global,
    text: &str,
    source: &str,
    fault: &SyntaxFault,
) -> Result<Finding, AllocError>
    ensures { IfOk result (IsErrorAt (shown_offset text.now fault.now.offset)) }
{
    let offset = shown_offset(text, fault.offset);
    let found = piece_at(text, fault.offset);
    let expected = fault.expected.as_slice();
    Ok(Finding {
        severity: Severity::Error,
        offset,
        len: found.len(),
        message: syntax_message(alloc, text, fault.offset, expected)?,
        rule: None,
        help: hint(alloc, text, source, fault.offset, expected)?,
    })
}

// A fault at the end of the text is shown after its last word.
fn shown_offset(text: &str, offset: usize) -> usize
    ensures { result ≡ shown_offset text.now offset }
{
    if offset < text.len() {
        offset
    } else {
        text.trim_end().len()
    }
}

fn syntax_message(
    alloc: Global,
    text: &str,
    offset: usize,
    expected: &[TokenKind],
) -> Result<String, AllocError> {
    let found = piece_at(text, offset);
    if found.is_empty() {
        let kinds = any_of(alloc, expected)?;
        return format!(in alloc; "expected {kinds}, found the end of the text");
    }
    if !is_token(alloc, found)? && (expected.is_empty() || is_run(found)) {
        return no_token_message(alloc, found);
    }
    let found = shown_piece(alloc, found)?;
    if !expected.is_empty() {
        let kinds = any_of(alloc, expected)?;
        return format!(in alloc; "expected {kinds}, found {found}");
    }
    if text.get(..offset).unwrap_or("").trim_end().ends_with(';') {
        return format!(in alloc; "expected the end of the text, found {found}");
    }
    format!(in alloc; "{found} isn't allowed here")
}

// The piece in backquotes, or for a character that can't be seen, its number.
fn shown_piece(alloc: Global, piece: &str) -> Result<String, AllocError> {
    match piece.chars().next() {
        Some(first) if first.is_control() || first.is_whitespace() || piece.width() == 0 => {
            let number = u32::from(first);
            format!(in alloc; "the character U+{number:04X}")
        }
        _ => format!(in alloc; "`{piece}`"),
    }
}

// Whether the piece is a token.
fn is_token(alloc: Global, piece: &str) -> Result<bool, AllocError> {
    match lexer::tokens(alloc, piece.as_bytes()) {
        Ok(_) => Ok(true),
        Err(giotto_read::ReadFault::Memory) => Err(AllocError),
        Err(_) => Ok(false),
    }
}

// Whether it is a run of letters and digits.
fn is_run(piece: &str) -> bool {
    matches!(
        piece.as_bytes(),
        [b'0'..=b'9' | b'a'..=b'z' | b'A'..=b'Z' | b'_', ..]
    )
}

fn no_token_message(alloc: Global, piece: &str) -> Result<String, AllocError> {
    let count = piece.len();
    match piece.as_bytes() {
        [b'0'..=b'9', ..] if count > 19 => {
            format!(in alloc; "a number has at most 19 digits, but this one has {count}")
        }
        [b'0'..=b'9', ..] => { String::from_str(alloc, "a number is at most 9223372036854775807") }
        [b'a'..=b'z' | b'A'..=b'Z' | b'_', ..] => {
            format!(in alloc; "a name has at most 32 bytes, but this one has {count}")
        }
        _ => {
            let piece = shown_piece(alloc, piece)?;
            format!(in alloc; "no word or mark begins with {piece}")
        }
    }
}

// The kinds in words, as in `a name, `;` or `,``. Several operators together are `an operator`.
fn any_of(alloc: Global, kinds: &[TokenKind]) -> Result<String, AllocError> {
    let words = words_of(alloc, kinds)?;
    let mut text = String::new(alloc);
    for (place, word) in words.iter().enumerate() {
        let left = words.len().saturating_sub(place);
        text.push_str(word.as_str())?;
        text.push_str(match left {
            0 | 1 => "",
            2 => " or ",
            _ => ", ",
        })?;
    }
    Ok(text)
}

fn words_of(alloc: Global, kinds: &[TokenKind]) -> Result<Vec<String>, AllocError> {
    let mut words = Vec::new(alloc);
    let operators = kinds.iter().filter(|kind| kind.is_operator()).count() > 1;
    if operators {
        words.push(String::from_str(alloc, "an operator")?)?;
    }
    for kind in kinds {
        if !(operators && kind.is_operator()) {
            words.push(format!(in alloc; "{kind}")?)?;
        }
    }
    Ok(words)
}

fn too_deep_finding(alloc: Global, offset: usize) -> Result<Finding, AllocError>
    ensures { IfOk result (IsErrorAt offset) }
{
    Ok(Finding {
        severity: Severity::Error,
        offset,
        len: 1,
        message: String::from_str(alloc, "more than 32 parentheses and braces are open here")?,
        rule: None,
        help: None,
    })
}

fn too_many_finding(
    alloc: Global,
    text: &str,
    port: &Option<CrowdedPort>,
) -> Result<Finding, AllocError>
    ensures { IfOk result (IsErrorAt (offset_told text.now (TooMany port.now))) }
{
    let Some(port) = port else {
        return Ok(Finding {
            severity: Severity::Error,
            offset: 0,
            len: 0,
            message: String::from_str(alloc, "a task has more than 16 inputs, outputs or states")?,
            rule: None,
            help: None,
        });
    };
    let task = port.task.as_str();
    let ports = port.group.as_str();
    Ok(Finding {
        severity: Severity::Error,
        offset: port.offset,
        len: piece_at(text, port.offset).len(),
        message: format!(in alloc; "the task `{task}` has more than 16 {ports}: this is the 17th")?,
        rule: None,
        help: None,
    })
}
