//! The kinds of tokens that could follow a text.

ghost use Rattle.std.specs.Prelude.{◌≡◌, IfOk, filter};
ghost use Rattle.giotto_faults.specs.Expected as spec;

use crate::kinds::{KINDS, TokenKind};
use giotto_read::{ReadFault, read};
use std::alloc::{AllocError, Global};

/// The kinds of tokens that could follow a text, each once. These are the kinds with which the text begins some program that
/// nests at most 32 deep. There are none if the text itself begins no program.
///
/// Tries each kind with the reader itself, so it takes as long as reading the text 40 times.
///
/// # Errors
/// Out of memory.
#[tactic(auto, unfolding(crate::specs::Expected::expected_behind))]
pub fn expected_behind(alloc: Global, text: &str) -> Result<Vec<TokenKind>, AllocError>
    ensures { IfOk result (λ kinds. kinds.items ≡ spec.expected_behind text.now) }
{
    those_expected(alloc, text, &KINDS)
}

// Those of `kinds` that could follow the text.
fn those_expected(
    alloc: Global,
    text: &str,
    kinds: &[TokenKind],
) -> Result<Vec<TokenKind>, AllocError>
    ensures { IfOk result (λ those. those.items ≡ filter (λ kind. spec.begins_program (spec.with_token text.now kind)) kinds.now) }
{
    let mut those = Vec::new(alloc);
    for kind in kinds {
        if could_stand_behind(alloc, text, *kind)? {
            those.push(*kind)?;
        }
    }
    Ok(those)
}

// Whether the text followed by a token of this kind begins a program.
fn could_stand_behind(alloc: Global, text: &str, kind: TokenKind) -> Result<bool, AllocError>
    ensures { IfOk result (λ could. could ≡ spec.begins_program (spec.with_token text.now kind)) }
{
    let mut longer = String::from_str(alloc, text)?;
    longer.push_str(" ")?;
    longer.push_str(kind.sample())?;
    begins_program(alloc, longer.as_str())
}

/// Whether the tokens of a text are a prefix of some program's tokens, and nest at most 32 deep.
///
/// # Errors
/// Out of memory.
pub fn begins_program(alloc: Global, text: &str) -> Result<bool, AllocError>
    ensures { IfOk result (λ begins. begins ≡ spec.begins_program text.now) }
{
    match read(alloc, text) {
        Ok(_) | Err(ReadFault::TooMany) => Ok(true),
        Err(ReadFault::TooDeep) => Ok(false),
        Err(ReadFault::Syntax(offset)) => Ok(offset == text.len()),
        Err(ReadFault::Memory) => Err(AllocError),
    }
}
