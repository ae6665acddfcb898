//! Hints on the ends of declarations, blocks and texts.

use crate::found::is_first_in_line;
use crate::hints::spot::{Spot, is_keyword};
use giotto_read::text::tokens::{Keyword, Symbol};

/// A hint on what is missing, or is too much, at the end of a block or a text.
pub(crate) fn hint(spot: &Spot) -> Option<&'static str> {
    match spot.found {
        "" if spot.expects_word(Keyword::Start) => {
            Some("a program ends with `start`, the name of a mode and `;`")
        }
        "sensor" | "actuator" | "output" | "task" if spot.expects_word(Keyword::Start) => Some(
            "write the sensors first, then actuators, outputs, tasks and modes, and `start` at the end",
        ),
        _ if spot.expected.is_empty() && spot.last == ";" => {
            Some("a program ends with its `start`")
        }
        ";" if spot.last == "}" => Some("remove the `;` after this `}`"),
        "}" if spot.expects_word(Keyword::Start) => Some("there is one `}` too many"),
        "" | "task" | "mode" | "start" if spot.expects_mark(Symbol::CloseBrace) => {
            Some("is a `}` missing before this?")
        }
        _ => None,
    }
}

/// Whether a `;` may be missing before what is found.
pub(crate) fn wants_semicolon(spot: &Spot, source: &str) -> bool {
    let found = spot.found;
    let ends = found.is_empty() || found == "}" || is_keyword(found);
    spot.expects_mark(Symbol::Semicolon) && (ends || is_first_in_line(source, spot.offset))
}
