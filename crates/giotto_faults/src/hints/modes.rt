//! Hints on modes and their lines.

use crate::hints::spot::Spot;
use giotto_read::text::tokens::{Keyword, Symbol};

/// A hint on a mode.
pub(crate) fn hint(spot: &Spot) -> Option<&'static str> {
    number_hint(spot)
        .or(order_hint(spot))
        .or(guard_hint(spot))
        .or(invocation_hint(spot))
}

// Periods and frequencies.
fn number_hint(spot: &Spot) -> Option<&'static str> {
    match spot.last {
        "actfreq" => Some(
            "a frequency is a number of times per period, as in `actfreq 1 do a := o;`",
        ),
        "exitfreq" => Some("a frequency is a number of times per period, as in `exitfreq 1 do m;`"),
        "taskfreq" => Some(
            "a frequency is a number of times per period, as in `taskfreq 1 do T(s);`",
        ),
        "period" if spot.opening == "mode" => {
            Some("a period is a number of ticks, as in `mode m period 10 {`")
        }
        _ if spot.found == "(" && spot.expects_word(Keyword::Period) => {
            Some("a mode has no parentheses, as in `mode m period 10 {`")
        }
        _ if spot.found == "{" && spot.expects_word(Keyword::Period) => {
            Some("a mode has a period, a number of ticks, as in `mode m period 10 {`")
        }
        _ => None,
    }
}

// The order of a mode's lines.
fn order_hint(spot: &Spot) -> Option<&'static str> {
    match spot.found {
        "actfreq" | "exitfreq" if spot.expects_word(Keyword::TaskFreq) => Some(
            "write the updates of a mode (`actfreq`) first, then its switches (`exitfreq`), then its invocations (`taskfreq`)",
        ),
        _ => None,
    }
}

fn is_line(spot: &Spot) -> bool {
    matches!(spot.opening, "actfreq" | "exitfreq" | "taskfreq")
}

// Guards after what they guard, and two updates in one line.
fn guard_hint(spot: &Spot) -> Option<&'static str> {
    match spot.found {
        "if" if is_line(spot) && spot.expects_mark(Symbol::Semicolon) => {
            Some("write the guard before `do`, as in `actfreq 1 if a do b := o;`")
        }
        "," if spot.opening == "actfreq" => {
            Some("an update has one actuator: add a line for each other actuator")
        }
        _ => None,
    }
}

fn invocation_hint(spot: &Spot) -> Option<&'static str> {
    if spot.opening != "taskfreq" {
        return None;
    }
    match spot.found {
        ":=" => Some("a `taskfreq` line names a task; its declaration lists its outputs"),
        ")" if spot.last == "," => Some("remove the `,` after the last argument"),
        _ if spot.expects_only(Symbol::OpenParenthesis) => {
            Some("write the parentheses of an invocation even without arguments: `T()`")
        }
        _ => None,
    }
}
