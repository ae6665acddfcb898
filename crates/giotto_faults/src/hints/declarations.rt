//! Hints on sensors, actuators, outputs, and the heads of tasks.

use crate::hints::spot::{Spot, is_keyword};
use crate::kinds::TokenKind;
use giotto_read::text::tokens::{Keyword, Symbol};

/// A hint on declarations.
pub(crate) fn hint(spot: &Spot) -> Option<&'static str> {
    type_hint(spot)
        .or(initial_hint(spot))
        .or(line_hint(spot))
        .or(task_hint(spot))
}

// Words for types.
fn type_hint(spot: &Spot) -> Option<&'static str> {
    if is_type(spot.found) || (is_type(spot.last) && spot.finds_word()) {
        return Some("there are no types and no constants: each value is a whole number");
    }
    None
}

fn is_type(word: &str) -> bool {
    matches!(
        word,
        "int"
            | "long"
            | "short"
            | "unsigned"
            | "float"
            | "double"
            | "real"
            | "bool"
            | "boolean"
            | "const"
            | "var"
            | "let"
    )
}

// Initial values.
fn initial_hint(spot: &Spot) -> Option<&'static str> {
    if !is_declared(spot) {
        return None;
    }
    match spot.found {
        "line" | "grant" | ";" | "," | "{" if spot.expects_mark(Symbol::Becomes) => {
            Some("give each port an initial value, as in `:= 0`")
        }
        _
            if spot.expects(TokenKind::Number)
                && spot.expects_mark(Symbol::Minus)
                && !spot.expects_operand()
                && !spot.finds_number() => { Some("an initial value is a number") }
        "," if spot.opening != "task" => Some("write a declaration for each name"),
        _ if spot.finds_operator() && spot.is_behind_number() => {
            Some("an initial value is a number, not an expression")
        }
        _ => None,
    }
}

// Whether the place is in a declaration.
fn is_declared(spot: &Spot) -> bool {
    matches!(spot.opening, "sensor" | "actuator" | "output" | "task")
}

// Rig lines and grants.
fn line_hint(spot: &Spot) -> Option<&'static str> {
    match (spot.opening, spot.found) {
        (_, found) if spot.last == "line" && !is_keyword(found) && is_declared(spot) => {
            Some("a rig line is a number, 0 or more")
        }
        ("actuator" | "output", "grant") => Some(
            "only a sensor has a `grant`; offer an actuator with the host's command `offer`",
        ),
        ("output", "line") => Some(
            "an output has no rig line; an actuator has one, and an update writes the output's value to it",
        ),
        ("sensor", "line" | "grant") if spot.expects_mark(Symbol::Semicolon) => {
            Some("a sensor has either `line` and a number, or `grant`")
        }
        ("sensor", _) if spot.expects_word(Keyword::Grant) => {
            Some("write where the sensor's readings come from: `line` and a number, or `grant`")
        }
        _ => None,
    }
}

// The heads of tasks.
fn task_hint(spot: &Spot) -> Option<&'static str> {
    if spot.opening != "task" {
        return None;
    }
    match spot.found {
        _ if spot.expects_only(Symbol::OpenParenthesis) => {
            Some("write the parentheses of a task even without inputs: `task T()`")
        }
        ")" if spot.last == "," => Some("remove the `,` after the last input"),
        "(" if matches!(spot.last, "output" | "state") => {
            Some("write the outputs and states of a task without parentheses: `output o, p`")
        }
        ":=" if spot.expects_word(Keyword::State) => {
            Some("write the initial value of an output in its declaration: `output o := 0;`")
        }
        "output" if spot.expects_word(Keyword::State) => {
            Some("write all outputs of a task in one list: `output o, p`")
        }
        "output" if spot.expects_mark(Symbol::OpenBrace) => {
            Some("write the outputs of a task before its states")
        }
        ";" if spot.expects_mark(Symbol::OpenBrace) => {
            Some("a task needs a body, even an empty one: `{ }`")
        }
        _ => None,
    }
}
