//! What is at a place in a text.

use giotto_read::text::name_bytes::{is_digit, is_letter, is_name_byte};

/// The piece of text at this offset: a run of letters and digits that begins with a letter, a run of digits, a mark, or else one
/// character. It is empty at the end of the text.
pub(crate) fn piece_at(text: &str, offset: usize) -> &str {
    let rest = text.get(offset..).unwrap_or("");
    rest.get(..piece_len(rest)).unwrap_or("")
}

fn piece_len(text: &str) -> usize {
    let bytes = text.as_bytes();
    let Some(first) = bytes.first() else {
        return 0;
    };
    if is_letter(*first) {
        bytes.iter().take_while(|byte| is_name_byte(**byte)).count()
    } else if is_digit(*first) {
        bytes.iter().take_while(|byte| is_digit(**byte)).count()
    } else if is_long_mark(bytes) {
        2
    } else {
        text.chars().next().map_or(0, |first| first.len_utf8())
    }
}

fn is_long_mark(text: &[u8]) -> bool {
    matches!(
        text,
        [b':' | b'=' | b'!' | b'<' | b'>', b'=', ..] | [b'&', b'&', ..] | [b'|', b'|', ..]
    )
}

/// Whether only blanks come before this offset in its line.
pub(crate) fn is_first_in_line(text: &str, offset: usize) -> bool {
    text.as_bytes()
        .iter()
        .take(offset)
        .rev()
        .take_while(|byte| **byte != b'\n')
        .all(|byte| matches!(byte, b' ' | b'\t' | b'\r'))
}
