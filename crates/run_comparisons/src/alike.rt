//! When two replies count as the same answer.

ghost use Rattle.std.specs.Prelude.{◌≡◌, ◌≤◌, drop, length, take};
ghost use Rattle.run_comparisons.specs.Alike.{are_alike, are_alike_words, are_near, have_alike_words, is_mark, is_word_before_values, line_in, mark_end, shows_values};
ghost use Rattle.tenant_lines.specs.Words.{value_of_word};

use rig_model::lines::words::{behind_first_word, cut, first_word, is_word};

/// Whether two replies count as the same answer.
///
/// They do if they are the same bytes. If the tolerance isn't 0, replies to `show port`, `show all`, `trace` and `op lines` also do if only
/// values differ, each by at most the tolerance.
pub fn are_alike(tolerance: u64, reply: &str, other: &str) -> bool
    ensures { result ≡ are_alike tolerance reply.now other.now }
{
    if reply == other {
        return true;
    }
    let line = line_in(reply);
    tolerance > 0 && (shows_values(line) && have_alike_words(tolerance, line, line_in(other)))
}

// A reply without its LF.
fn line_in(reply: &str) -> &str
    ensures { result.now ≡ line_in reply.now }
{
    match reply.split_once('\n') {
        Some((line, _rest)) => line,
        None => reply,
    }
}

// Whether the line of a reply shows values.
fn shows_values(line: &str) -> bool
    ensures { result ≡ shows_values line.now }
{
    let rest = behind_first_word(line);
    is_word(first_word(rest), "ok") && is_word_before_values(first_word(behind_first_word(rest)))
}

// Whether the values of a reply follow this word.
fn is_word_before_values(word: &str) -> bool
    ensures { result ≡ is_word_before_values word.now }
{
    is_word(word, "port")
        || (is_word(word, "all") || (is_word(word, "trace") || is_word(word, "lines")))
}

// Whether the words of two lines are alike, one by one.
fn have_alike_words(tolerance: u64, line: &str, other: &str) -> bool
    ensures { result ≡ have_alike_words tolerance line.now other.now }
{
    let mut rest = line;
    let mut other_rest = other;
    loop {
        let (word, behind) = cut(rest);
        let (other_word, other_behind) = cut(other_rest);
        if word.is_empty() {
            return other_word.is_empty();
        }
        if other_word.is_empty() || !are_alike_words(tolerance, word, other_word) {
            return false;
        }
        rest = behind;
        other_rest = other_behind;
    }
}

// Whether two words are the same, or end with near values after the same.
fn are_alike_words(tolerance: u64, word: &str, other: &str) -> bool
    ensures { result ≡ are_alike_words tolerance word.now other.now }
{
    let (front, value) = cut_value(word);
    let (other_front, other_value) = cut_value(other);
    is_word(word, other)
        || (is_word(front, other_front)
            && are_near(tolerance, value_of_word(value), value_of_word(other_value)))
}

// A word up to its last mark, with that, and what follows it.
fn cut_value(word: &str) -> (&str, &str)
    ensures front { result.0.now ≡ take (mark_end word.now) word.now }
    ensures value { result.1.now ≡ drop (mark_end word.now) word.now }
{
    word.split_at(mark_end(word.as_bytes()))
}

// The length of a word up to its last mark, with that; 0 if it has none.
fn mark_end(word: &[u8]) -> usize
    ensures end { result ≡ mark_end word.now }
    ensures within { result ≤ length word.now }
{
    let mut end = word.len();
    while end > 0 && !is_mark(word[end - 1]) {
        end -= 1;
    }
    end
}

// Whether a value may follow this byte of a word.
fn is_mark(byte: u8) -> bool
    ensures { result ≡ is_mark byte }
{
    byte == b'=' || byte == b':'
}

// The value of a word, if it is one.
fn value_of_word(word: &str) -> Option<i64>
    ensures { result ≡ value_of_word word.now }
{
    let [first, ..] = word.as_bytes() else {
        return None;
    };
    if *first == b'+' {
        return None;
    }
    word.parse().ok()
}

// Whether there are two values that differ by at most the tolerance.
fn are_near(tolerance: u64, value: Option<i64>, other: Option<i64>) -> bool
    ensures { result ≡ are_near tolerance value other }
{
    match (value, other) {
        (Some(value), Some(other)) => value.abs_diff(other) <= tolerance,
        _ => false,
    }
}
