//! Hints on marks, numbers, comments and words that other languages write differently.

use crate::hints::spot::Spot;
use crate::kinds::TokenKind;
use giotto_read::text::tokens::{Keyword, Symbol};

/// A hint on comments of other languages.
pub(crate) fn comment_hint(spot: &Spot) -> Option<&'static str> {
    if spot.found == "#" || spot.rest.starts_with("/*") || spot.before.contains("/*") {
        return Some("write comments as `// ..`, up to the end of the line");
    }
    None
}

/// A hint on a file that is named in place of a program.
pub(crate) fn file_hint(spot: &Spot) -> Option<&'static str> {
    let begin = if spot.before.is_empty() {
        spot.rest
    } else {
        spot.before
    };
    if begin.trim_start().starts_with("<") {
        return Some(
            "write the program itself, as `rig_host check --load` prints it; only `rig_host connect` reads `< FILE`",
        );
    }
    None
}

/// A hint on numbers.
pub(crate) fn number_hint(spot: &Spot) -> Option<&'static str> {
    if spot.found == "9223372036854775808" && spot.last == "-" {
        return Some("write the least value as `(-9223372036854775807) - 1` in an expression");
    }
    if spot.found == "9223372036854775808" && spot.expects(TokenKind::Number) {
        return Some("a number here is at most 9223372036854775807");
    }
    if spot.found == "." && spot.is_behind_number() {
        return Some("all values are whole numbers");
    }
    if spot.finds_word() && spot.is_behind_number() && spot.is_joined() {
        return Some("write a number with decimal digits only, without a unit");
    }
    None
}

/// A hint on operators, and on marks used in place of them.
pub(crate) fn hint(spot: &Spot) -> Option<&'static str> {
    value_hint(spot)
        .or(comparison_hint(spot))
        .or(word_hint(spot))
        .or(other_mark_hint(spot))
        .or(operand_hint(spot))
}

// Marks that give a value, and marks that compare two values.
fn value_hint(spot: &Spot) -> Option<&'static str> {
    match spot.found {
        "=" if matches!(spot.last, "+" | "-" | "*" | "/" | "%" | "&" | "|") => {
            Some("no operator assigns a value: write `k := k + 1;`")
        }
        "+" | "-" | "*" | "/" | "%" if spot.expects_mark(Symbol::Becomes) => {
            Some("assign a value with `:=`, as in `k := k + 1;`")
        }
        "=" | ":" | "==" if spot.expects_mark(Symbol::Becomes) || spot.expected.is_empty() => {
            Some("`:=` assigns a value; `==` compares two values")
        }
        _ => None,
    }
}

fn comparison_hint(spot: &Spot) -> Option<&'static str> {
    if spot.rest.starts_with("=<") || spot.rest.starts_with("=>") {
        return Some("write `<=` for at most, and `>=` for at least");
    }
    match (spot.last, spot.found) {
        ("<", ">") => Some("write `!=` for not equal"),
        ("<", "<") | (">", ">") => Some("there are no operators on bits"),
        (_, "=") if spot.expects_operator() => {
            Some("`==` compares two values; `:=` assigns one")
        }
        _ => None,
    }
}

// Words used as operators.
fn word_hint(spot: &Spot) -> Option<&'static str> {
    if !spot.expects_operator() && !is_behind_operation(spot) {
        return None;
    }
    match spot.found {
        "and" => Some("write `&&` for and"),
        "or" => Some("write `||` for or"),
        "mod" => Some("write `%` for the remainder"),
        _ if spot.last == "not" => Some("write `!` for not"),
        _ => None,
    }
}

fn other_mark_hint(spot: &Spot) -> Option<&'static str> {
    match spot.found {
        "&" => Some("write `&&` for and"),
        "|" => Some("write `||` for or"),
        "^" | "~" => Some("there are no operators for powers or on bits"),
        "?" => Some("there is no `?`: use an `if` in the body of a task"),
        "[" => Some("there are no arrays: declare a port for each value"),
        "\"" | "'" => Some("all values are whole numbers"),
        _ => None,
    }
}

// Operands that are operations.
fn operand_hint(spot: &Spot) -> Option<&'static str> {
    match spot.found {
        "-" if spot.expects_operand() => {
            Some("put an operation that is an operand in parentheses, as in `a < (-1)`")
        }
        "!" if spot.expects_operand() => {
            Some("put an operation that is an operand in parentheses, as in `a && (!b)`")
        }
        _ if spot.finds_operator() && is_behind_operation(spot) => Some(
            "no operator binds tighter than another: put an operand that is an operation in parentheses, as in `1 + (2 * 3)`",
        ),
        _ => None,
    }
}

// Whether an expression ends there, and no operator can continue it.
fn is_behind_operation(spot: &Spot) -> bool {
    !spot.expects_operator()
        && !spot.expects_operand()
        && (spot.expects_word(Keyword::Do)
            || [
                Symbol::Semicolon,
                Symbol::CloseParenthesis,
                Symbol::OpenBrace,
                Symbol::Comma,
            ]
            .iter()
            .any(|symbol| spot.expects_mark(*symbol)))
}

/// A hint on characters that are not ASCII.
pub(crate) fn character_hint(spot: &Spot) -> Option<&'static str> {
    match spot.found.chars().next() {
        Some('\u{feff}') => Some(
            "the file begins with a byte order mark: save it as UTF-8 without one",
        ),
        Some(first) if !first.is_ascii() => Some(
            "outside comments, write only blanks, letters, digits and marks of ASCII",
        ),
        _ => None,
    }
}
