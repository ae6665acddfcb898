//! Words that may be misspellings of others.
//!
//! ```text
//! if let Some(command) = nearest(alloc, "strat", &["start", "stop"])? {
//!     println!(rt; "did you mean `{command}`?")?;
//! }
//! ```
//!
//! `specs/Distances.antt` says how far apart two words are, and which are near.
#![tactic(auto)]

ghost use Rattle.std.specs.Prelude.{◌≡◌, IfOk, map};
ghost use Rattle.std.specs.Option.{option_map};
ghost use Rattle.similar_words.specs.Distances.{distance, is_near, nearer_of, nearest_of};

use std::alloc::{AllocError, Global};
use strsim::osa_distance;

/// Returns how far a word is from another one, in edits of a character: 0 if they differ at most in the case of ASCII letters.
///
/// # Errors
/// Out of memory.
pub fn distance(alloc: Global, word: &str, other: &str) -> Result<usize, AllocError>
    ensures { IfOk result (λ edits. edits ≡ distance word.now other.now) }
{
    if word.eq_ignore_ascii_case(other) {
        return Ok(0);
    }
    osa_distance(alloc, word, other)
}

/// Whether a word may be a misspelling of another one: whether it is at most one edit for each three bytes of that one away.
///
/// # Errors
/// Out of memory.
pub fn is_near(alloc: Global, word: &str, other: &str) -> Result<bool, AllocError>
    ensures { IfOk result (λ near. near ≡ is_near word.now other.now) }
{
    Ok(distance(alloc, word, other)? <= other.len() / 3)
}

/// Returns the word of which a word may be a misspelling: the nearest of these words, and the first if several are. `None` if none is near.
///
/// # Errors
/// Out of memory.
pub fn nearest<'a>(
    alloc: Global,
    word: &str,
    words: &[&'a str],
) -> Result<Option<&'a str>, AllocError>
    ensures { IfOk result (λ found. option_map (λ w. w.now) found ≡ nearest_of word.now (map (λ w. w.now) words.now)) }
{
    let mut found = None;
    for other in words.iter().rev() {
        found = nearer(alloc, word, other, found)?;
    }
    Ok(found)
}

// The word `other` if it is near and no farther than the one that was found, or else that one.
fn nearer<'a>(
    alloc: Global,
    word: &str,
    other: &'a str,
    found: Option<&'a str>,
) -> Result<Option<&'a str>, AllocError>
    ensures { IfOk result (λ nearer. option_map (λ w. w.now) nearer ≡ nearer_of word.now other.now (option_map (λ w. w.now) found.entry)) }
{
    if !is_near(alloc, word, other)? {
        return Ok(found);
    }
    match found {
        Some(best) if distance(alloc, word, best)? < distance(alloc, word, other)? => Ok(found),
        _ => Ok(Some(other)),
    }
}
