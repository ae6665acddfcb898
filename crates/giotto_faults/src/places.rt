//! Places in texts, as editors count them.

ghost use Rattle.std.specs.Prelude.{◌≡◌, ◌+◌, ◌<◌, ◌≤◌, length, take};
ghost use Rattle.std.specs.List.{count_by};
ghost use Rattle.giotto_faults.specs.Places.{begins_character, characters_back, ends_line};
ghost use Rattle.giotto_faults.specs.Places as spec;

/// A place in a text: a line and a column, both counted from 1, the column in characters.
#[derive(Clone, Copy, Debug, PartialEq, Eq)]
pub struct Place {
    pub line: usize,
    pub column: usize,
}

impl Place {
    /// The place of the byte with this offset. An LF ends a line. If the offset is the text's length, it is the place after the
    /// last character.
    pub fn of(text: &str, offset: usize) -> Place
        requires { offset ≤ length text.now }
        ensures { result ≡ spec.place_of text.now offset }
    {
        let before = &text.as_bytes()[..offset];
        Place {
            line: 1 + line_ends_in(before),
            column: 1 + characters_back(before),
        }
    }
}

// How many lines end in these bytes.
fn line_ends_in(bytes: &[u8]) -> usize
    ensures count { result ≡ count_by ends_line bytes.now }
    ensures bound { result ≤ length bytes.now }
{
    bytes.iter().filter(|byte| ends_line(**byte)).count()
}

// How many characters come after the last line end in these bytes.
fn characters_back(bytes: &[u8]) -> usize
    ensures count { result ≡ characters_back bytes.now }
    ensures bound { result ≤ length bytes.now }
{
    bytes
        .iter()
        .rev()
        .take_while(|byte| !ends_line(**byte))
        .filter(|byte| begins_character(**byte))
        .count()
}

fn ends_line(byte: u8) -> bool
    ensures { result ≡ ends_line byte }
{
    byte == b'\n'
}

// Whether a byte is the first byte of a character in UTF-8.
fn begins_character(byte: u8) -> bool
    ensures { result ≡ begins_character byte }
{
    byte < 128 || byte >= 192
}
