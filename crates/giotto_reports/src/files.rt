//! Programs in files, with line ends and comments. A line of a session or a script can have neither.
//!
//! ```text
//! sensor s := 0 line 0;    // the pump's pressure
//! actuator a := 0;
//! ```
//!
//! [`one_line`] turns such a text into one line in which each byte of the program keeps its place. So the offset of a fault in
//! the line is its offset in the file. `specs/Comments.antt` defines what each byte turns into, and `proofs/CommentRows.antt` has
//! examples.

ghost use Rattle.std.specs.Prelude.{◌≡◌, ◌<◌, ℕ, IfOk, IsErr, drop, length, string_bytes, true};
ghost use Rattle.std.specs.List.{starts_with};
ghost use Rattle.giotto_reports.specs.Comments.{is_line_end, begins_comment, one_line};

use std::alloc::{AllocError, Global};

// Replaces a byte that is not part of the program.
const BLANK: u8 = b' ';

/// The text of a program's file as one line with the same number of bytes.
///
/// Each LF and CR becomes a blank, and so does each byte of a comment. A comment begins with `//` and goes up to the next LF or
/// CR, or to the end. All other bytes stay as they are.
///
/// # Errors
/// Out of memory, unless the text is empty.
pub fn one_line(alloc: Global, text: &str) -> Result<String, AllocError>
    ensures line { IfOk result (λ line. string_bytes line ≡ one_line text.now) }
    ensures memory { IsErr result → 0 < length text.now }
{
    let bytes = without_comments(alloc, text.as_bytes())?;
    let Ok(line) = String::from_utf8(bytes) else {
        unreachable!()
    };
    Ok(line)
}

// The same for bytes.
fn without_comments(alloc: Global, text: &[u8]) -> Result<Vec<u8>, AllocError>
    ensures line { IfOk result (λ line. line.items ≡ one_line text.now) }
    ensures memory { IsErr result → 0 < length text.now }
{
    let mut line = Vec::new(alloc);
    let mut in_comment = false;
    for (place, byte) in text.iter().enumerate() {
        if is_line_end(*byte) {
            in_comment = false;
            line.push(BLANK)?;
        } else {
            in_comment = in_comment || begins_comment(&text[place..]);
            line.push(if in_comment { BLANK } else { *byte })?;
        }
    }
    Ok(line)
}

// Whether a byte ends a line of a file: LF or CR.
fn is_line_end(byte: u8) -> bool
    ensures { result ≡ is_line_end byte }
{
    matches!(byte, b'\n' | b'\r')
}

// Whether a text begins with `//`.
fn begins_comment(text: &[u8]) -> bool
    ensures { result ≡ begins_comment text.now }
{
    matches!(text, [b'/', b'/', ..])
}
