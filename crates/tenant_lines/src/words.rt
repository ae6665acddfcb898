//! Cuts lines into words. One or more blanks separate words; blanks at the ends mean nothing.

ghost use Rattle.std.specs.Prelude.{◌≡◌, ◌≤◌, ◌<◌, IfOk, IsErr, IsSomeAnd, is_some, length, nat_eq};
ghost use Rattle.std.specs.Cmp.Lexicographic.{pointwise};
ghost use Rattle.giotto_tasks.specs.Names.{same_name};
ghost use Rattle.std.specs.List.{prefix_len};
ghost use Rattle.std.specs.Option.{option_map};
ghost use Rattle.tenant_lines.specs.Words.{is_blank_of_line, is_word_byte, words_of, from_first_word, first_word_of, behind_first_word, value_of_word, values_of_words};

use smallvec::SmallVec;
use std::alloc::{AllocError, Global};

/// The values of a line's words. Up to eight take no memory.
pub type Values = SmallVec<i64, 8>;

/// The first word of a line, and what follows it, blanks included. Both are empty if the line is blank.
pub fn cut(line: &str) -> (&str, &str)
    ensures word { result.0.now ≡ first_word_of line.now }
    ensures rest { result.1.now ≡ behind_first_word line.now }
{
    let rest = skip_blanks(line);
    rest.split_at(word_len(rest.as_bytes()))
}

/// The first word of a line. Empty if the line is blank.
pub fn first_word(line: &str) -> &str
    ensures { result.now ≡ first_word_of line.now }
{
    cut(line).0
}

/// What follows the first word of a line, blanks included.
pub fn behind_first_word(line: &str) -> &str
    ensures { result.now ≡ behind_first_word line.now }
{
    cut(line).1
}

/// Whether two words are equal.
#[inline(always)]
pub fn is_word(word: &str, other: &str) -> bool
    ensures { result ≡ same_name word.now other.now }
{
    are_same(word.as_bytes(), other.as_bytes())
}

// Whether these bytes are the same.
#[inline(always)]
#[tactic(auto, using(crate::proofs::SameBytes::same_at, crate::proofs::SameBytes::none_left, crate::proofs::SameBytes::other_lengths))]
fn are_same(bytes: &[u8], others: &[u8]) -> bool
    ensures { result ≡ pointwise nat_eq bytes.now others.now }
{
    if bytes.len() != others.len() {
        return false;
    }
    for i in 0..others.len() {
        if bytes[i] != others[i] {
            return false;
        }
    }
    true
}

// Whether a byte of a line is a blank: space, tab or CR. A line has no LF.
fn is_blank(byte: u8) -> bool
    ensures { result ≡ is_blank_of_line byte }
{
    matches!(byte, b' ' | b'\t' | b'\r')
}

// The value of a word: an optional `-`, then digits, leading zeros allowed. `None` if the word has another shape, or if its
// value doesn't fit an i64.
pub(crate) fn value_of_word(word: &str) -> Option<i64>
    ensures { result ≡ value_of_word word.now }
{
    let [first, ..] = word.as_bytes() else {
        return None;
    };
    if *first == b'+' {
        return None;
    }
    word.parse().ok()
}

/// The values of all words of a line, in order. `None` if a word has no value. Only more than eight values take memory.
///
/// # Errors
/// Out of memory. Only if there are more than eight words and each has a value: if one has none, the result is `None`, even if an
/// allocation failed.
#[inline(always)]
#[tactic(auto, using(crate::proofs::ValueLemmas::values_fault, crate::proofs::cited::WordLemmas::behind_shorter))]
pub fn values_of_words(alloc: Global, line: &str) -> Result<Option<Values>, AllocError>
    ensures values { IfOk result (λ values. option_map (λ v. v.items) values ≡ values_of_words (words_of line.now)) }
    ensures memory { IsErr result → IsSomeAnd (values_of_words (words_of line.now)) (λ values. 8 < length values) }
{
    let mut values = Values::new(alloc);
    let mut rest = line;
    loop {
        let (word, behind) = cut(rest);
        if word.is_empty() {
            return Ok(Some(values));
        }
        let Some(value) = value_of_word(word) else {
            return Ok(None);
        };
        // A word without a value is reported even if an allocation failed before it.
        if values.push(value).is_err() {
            return if are_values(rest) {
                Err(AllocError)
            } else {
                Ok(None)
            };
        }
        rest = behind;
    }
}

// Whether all words of a line have values.
#[tactic(auto, using(crate::proofs::cited::WordLemmas::behind_shorter))]
fn are_values(line: &str) -> bool
    ensures { result ≡ is_some (values_of_words (words_of line.now)) }
{
    let mut rest = line;
    loop {
        let word = first_word(rest);
        if word.is_empty() {
            return true;
        }
        if value_of_word(word).is_none() {
            return false;
        }
        rest = behind_first_word(rest);
    }
}

// The line from its first word on.
pub(crate) fn skip_blanks(line: &str) -> &str
    ensures { result.now ≡ from_first_word line.now }
{
    &line[blank_len(line.as_bytes())..]
}

// The number of blanks at the front.
#[tactic(auto, using(crate::proofs::cited::WordLemmas::prefix_more, crate::proofs::cited::WordLemmas::prefix_end))]
fn blank_len(line: &[u8]) -> usize
    ensures len { result ≡ prefix_len is_blank_of_line line.now }
    ensures within { result ≤ length line.now }
{
    for (i, byte) in line.iter().enumerate() {
        if !is_blank(*byte) {
            return i;
        }
    }
    line.len()
}

// The number of bytes before the first blank; all bytes if there is none.
#[tactic(auto, using(crate::proofs::cited::WordLemmas::prefix_more, crate::proofs::cited::WordLemmas::prefix_end))]
fn word_len(line: &[u8]) -> usize
    ensures len { result ≡ prefix_len is_word_byte line.now }
    ensures within { result ≤ length line.now }
{
    for (i, byte) in line.iter().enumerate() {
        if is_blank(*byte) {
            return i;
        }
    }
    line.len()
}
