//! Hints on misspelled keywords.

use crate::hints::spot::{Spot, is_keyword};
use crate::kinds::TokenKind;
use std::alloc::{AllocError, Global};
use strsim::osa_distance;

/// A hint that names the keyword of which the word found may be a misspelling.
///
/// # Errors
/// Out of memory.
pub(crate) fn hint(alloc: Global, spot: &Spot) -> Result<Option<String>, AllocError> {
    if !spot.finds_word() || is_keyword(spot.found) {
        return Ok(None);
    }
    for kind in spot.expected {
        if let TokenKind::Keyword(keyword) = kind
            && is_similar(alloc, spot.found, keyword.as_str())?
        {
            let word = keyword.as_str();
            return Ok(Some(format!(in alloc; "did you mean `{word}`?")?));
        }
    }
    Ok(None)
}

// Whether a word is the keyword in a different case, or differs from it by at most one edit per three letters of the keyword.
fn is_similar(alloc: Global, word: &str, keyword: &str) -> Result<bool, AllocError> {
    if word.eq_ignore_ascii_case(keyword) {
        return Ok(true);
    }
    Ok(osa_distance(alloc, word, keyword)? <= keyword.len() / 3)
}
