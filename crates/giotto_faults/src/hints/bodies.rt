//! Hints on statements and expressions.

use crate::hints::spot::Spot;
use crate::kinds::TokenKind;
use giotto_read::text::tokens::{Keyword, Symbol};

/// A hint on the body of a task, and on expressions.
pub(crate) fn hint(spot: &Spot) -> Option<&'static str> {
    block_hint(spot)
        .or(loop_hint(spot))
        .or(declaration_hint(spot))
        .or(call_hint(spot))
}

// Blocks without braces.
fn block_hint(spot: &Spot) -> Option<&'static str> {
    if !spot.expects_mark(Symbol::OpenBrace) {
        return None;
    }
    match (spot.last, spot.found) {
        ("else", "if") => Some("there is no `else if`: write `else { if a { } }`"),
        ("else", _) => Some("write the statements of an `else` in braces: `else { a := 1; }`"),
        (_, ":") => Some("write the statements of an `if` in braces: `if a { b := 1; }`"),
        _ if spot.opening == "if" && spot.finds_word() && !is_operator_word(spot) => {
            Some("write the statements of an `if` in braces: `if a { b := 1; }`")
        }
        _ => None,
    }
}

// Whether the word found, or the word before it, is an operator in other languages.
fn is_operator_word(spot: &Spot) -> bool {
    matches!(spot.found, "and" | "or" | "mod") || spot.last == "not"
}

// Loops, and other statements that begin with a word in other languages.
fn loop_hint(spot: &Spot) -> Option<&'static str> {
    match spot.last {
        "repeat" if spot.expects(TokenKind::Number) => {
            Some("a `repeat` has a fixed number of iterations, as in `repeat 3 { }`")
        }
        "while" | "for" | "loop" if spot.expects_mark(Symbol::Becomes) => {
            Some(
                "the only loop is `repeat` with a fixed number of iterations, as in `repeat 3 { }`",
            )
        }
        "return" if spot.expects_mark(Symbol::Becomes) => {
            Some("a task returns nothing: assign its outputs, as in `o := i + 1;`")
        }
        _ => None,
    }
}

// Declarations in the body of a task.
fn declaration_hint(spot: &Spot) -> Option<&'static str> {
    match spot.found {
        "sensor" | "actuator" | "output" | "state" if spot.expects_word(Keyword::Repeat) => Some(
            "a body has no declarations; make a value that only this task needs a state: `task T(i) state k := 0 { }`",
        ),
        _ => None,
    }
}

// What looks like a call of a function.
fn call_hint(spot: &Spot) -> Option<&'static str> {
    if spot.found == "(" && spot.expects_operator() && spot.is_behind_name() {
        return Some(
            "there are no functions; invoke a task in a `taskfreq` line, and read its outputs by their names",
        );
    }
    None
}
