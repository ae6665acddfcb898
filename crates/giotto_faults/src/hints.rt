//! Hints on how to fix common mistakes of beginners: a file for each part of a program.

use crate::kinds::TokenKind;
use crate::places::Place;
use giotto_read::text::tokens::Symbol;
use spot::{Spot, is_keyword};
use std::alloc::{AllocError, Global};

mod bodies;
mod declarations;
mod ends;
mod marks;
mod modes;
mod similar;
mod spot;

/// A hint of one line for a text that has something unexpected at this offset. `None` if there is no hint for it.
///
/// # Errors
/// Out of memory.
pub(crate) fn hint(
    alloc: Global,
    text: &str,
    source: &str,
    offset: usize,
    expected: &[TokenKind],
) -> Result<Option<String>, AllocError> {
    let spot = Spot::of(text, offset, expected);
    let found = spot.found;
    if is_name_place(&spot) && is_keyword(found) {
        let words = format!(in alloc; "`{found}` is a keyword, not a name")?;
        return Ok(Some(words));
    }
    if let Some(words) = similar::hint(alloc, &spot)? {
        return Ok(Some(words));
    }
    if let Some(words) = fixed_hint(&spot) {
        return Ok(Some(String::from_str(alloc, words)?));
    }
    if ends::wants_semicolon(&spot, source) {
        return Ok(Some(semicolon_hint(alloc, &spot, source)?));
    }
    Ok(None)
}

// Whether only a name could come there, or only a name or the end of a list of names.
fn is_name_place(spot: &Spot) -> bool {
    spot.expects(TokenKind::Name)
        && !spot.expects(TokenKind::Number)
        && !spot.expects_mark(Symbol::CloseBrace)
}

// The hints whose words are the same for each text.
fn fixed_hint(spot: &Spot) -> Option<&'static str> {
    marks::file_hint(spot)
        .or(marks::character_hint(spot))
        .or(marks::comment_hint(spot))
        .or(marks::number_hint(spot))
        .or(declarations::hint(spot))
        .or(bodies::hint(spot))
        .or(modes::hint(spot))
        .or(marks::hint(spot))
        .or(ends::hint(spot))
}

// Asks about the `;` that may be missing before what is found. In the same line no number is needed: the text may be a part of a
// line of a script.
fn semicolon_hint(alloc: Global, spot: &Spot, source: &str) -> Result<String, AllocError> {
    let end = spot.before.len();
    let between = source.get(end..spot.offset).unwrap_or("");
    if !between.contains("\n") {
        return String::from_str(alloc, semicolon_hint_in_line(spot, between));
    }
    let line = Place::of(source, end.min(source.len())).line;
    let rest = between.lines().next();
    if rest.unwrap_or("").contains("//") {
        format!(in alloc; "is a `;` missing in line {line}, before the comment?")
    } else {
        format!(in alloc; "is a `;` missing at the end of line {line}?")
    }
}

// The same if what is found, or the end of the text, is in the line in which the last token ends.
fn semicolon_hint_in_line(spot: &Spot, between: &str) -> &'static str {
    if between.contains("//") {
        "is a `;` missing before the comment?"
    } else if spot.found.is_empty() {
        "is a `;` missing at the end?"
    } else {
        "is a `;` missing before this?"
    }
}
