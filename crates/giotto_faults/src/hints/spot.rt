//! A place at which a text has something unexpected.

use crate::found::piece_at;
use crate::kinds::TokenKind;
use giotto_read::text::name_bytes::{is_digit, is_letter, is_name_byte};
use giotto_read::text::tokens::{Keyword, Symbol};

/// A place at which a text has something other than what is expected there.
#[derive(Clone, Copy)]
pub(crate) struct Spot<'a> {
    /// Its offset in the text, in bytes.
    pub(crate) offset: usize,
    /// The text up to there, without the blanks at its end.
    pub(crate) before: &'a str,
    /// The text from there on.
    pub(crate) rest: &'a str,
    /// What is found there; nothing at the end of the text.
    pub(crate) found: &'a str,
    /// What comes last before it: a word, a number or a character.
    pub(crate) last: &'a str,
    /// The first word of the declaration, the statement or the line of a mode that it is in.
    pub(crate) opening: &'a str,
    /// What could come there.
    pub(crate) expected: &'a [TokenKind],
}

impl<'a> Spot<'a> {
    pub(crate) fn of(text: &'a str, offset: usize, expected: &'a [TokenKind]) -> Spot<'a> {
        let before = text.get(..offset).unwrap_or("").trim_end();
        Spot {
            offset,
            before,
            rest: text.get(offset..).unwrap_or(""),
            found: piece_at(text, offset),
            last: last_piece(before),
            opening: opening_of(before),
            expected,
        }
    }

    pub(crate) fn expects(&self, kind: TokenKind) -> bool {
        self.expected.contains(&kind)
    }

    pub(crate) fn expects_mark(&self, symbol: Symbol) -> bool {
        self.expects(TokenKind::Symbol(symbol))
    }

    pub(crate) fn expects_word(&self, keyword: Keyword) -> bool {
        self.expects(TokenKind::Keyword(keyword))
    }

    /// Whether only this mark could come there.
    pub(crate) fn expects_only(&self, symbol: Symbol) -> bool {
        self.expected.len() == 1 && self.expects_mark(symbol)
    }

    /// Whether an operator could come there.
    pub(crate) fn expects_operator(&self) -> bool {
        self.expects_mark(Symbol::Plus)
    }

    /// Whether an operand could come there.
    pub(crate) fn expects_operand(&self) -> bool {
        self.expects(TokenKind::Number) && self.expects_mark(Symbol::OpenParenthesis)
    }

    /// Whether a binary operator is found.
    pub(crate) fn finds_operator(&self) -> bool {
        matches!(
            self.found,
            "+" | "-" | "*" | "/" | "%" | "==" | "!=" | "<" | "<=" | ">" | ">=" | "&&" | "||"
        )
    }

    /// Whether a word is found.
    pub(crate) fn finds_word(&self) -> bool {
        begins_word(self.found)
    }

    /// Whether a number is found, or digits that are not a number.
    pub(crate) fn finds_number(&self) -> bool {
        begins_number(self.found)
    }

    /// Whether there is no blank before what is found.
    pub(crate) fn is_joined(&self) -> bool {
        self.before.len() == self.offset
    }

    /// Whether a word that is not a keyword comes last before it.
    pub(crate) fn is_behind_name(&self) -> bool {
        begins_word(self.last) && !is_keyword(self.last)
    }

    /// Whether a number comes last before it.
    pub(crate) fn is_behind_number(&self) -> bool {
        begins_number(self.last)
    }
}

fn begins_word(piece: &str) -> bool {
    matches!(piece.as_bytes(), [first, ..] if is_letter(*first))
}

fn begins_number(piece: &str) -> bool {
    matches!(piece.as_bytes(), [first, ..] if is_digit(*first))
}

// The last word, number or character of a text.
fn last_piece(text: &str) -> &str {
    let bytes = text.as_bytes();
    let run = bytes
        .iter()
        .rev()
        .take_while(|byte| is_name_byte(**byte))
        .count();
    let start = bytes.len().saturating_sub(run.max(1));
    text.get(start..).unwrap_or("")
}

// The first word after the last mark that ends a declaration or a statement.
fn opening_of(text: &str) -> &str {
    let bytes = text.as_bytes();
    let run = bytes
        .iter()
        .rev()
        .take_while(|byte| !matches!(byte, b';' | b'{' | b'}'))
        .count();
    let start = bytes.len().saturating_sub(run);
    piece_at(text.get(start..).unwrap_or("").trim_start(), 0)
}

/// Whether a word is a keyword.
pub(crate) fn is_keyword(word: &str) -> bool {
    matches!(
        word,
        "sensor"
            | "actuator"
            | "output"
            | "task"
            | "state"
            | "mode"
            | "period"
            | "actfreq"
            | "exitfreq"
            | "taskfreq"
            | "start"
            | "do"
            | "if"
            | "else"
            | "repeat"
            | "line"
            | "grant"
    )
}
