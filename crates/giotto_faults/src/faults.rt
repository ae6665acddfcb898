//! Why a text is not a program: where the fault is, and which tokens could come there.

ghost use Rattle.std.specs.Prelude.{◌≡◌, IfOk, IfErr, Ok, Err};
ghost use Rattle.giotto_read.specs.text.Parsing.{parsed};
ghost use Rattle.giotto_read.specs.declared.text.faults.ReadFault.{ReadFault};
ghost use Rattle.giotto_faults.specs.Faults.{Tells};

use crate::expected::expected_behind;
use crate::kinds::TokenKind;
use crate::nesting::first_too_deep;
use crate::ports::{CrowdedPort, first_crowded};
use giotto_read::text::{laws, lexer};
use giotto_read::{Program, ReadFault, read};
use giotto_tasks::lists::List;
use std::alloc::Global;

/// Why a text is not a program. The reasons are those of `ReadFault`, and they are looked for in the reader's order.
#[derive(Drop)]
pub enum ProgramFault {
    /// The text spells no program.
    Syntax(SyntaxFault),
    /// Parentheses and braces nest more than 32 deep, first at the one with this offset.
    TooDeep(usize),
    /// A task has more than 16 inputs, outputs or states.
    TooMany(Option<CrowdedPort>),
    /// Out of memory.
    Memory,
}

/// Where a text spells no program, and which tokens could come there.
#[derive(Drop)]
pub struct SyntaxFault {
    /// The offset in bytes of the first byte at which no token begins. Or else that of the first token with which the tokens are
    /// not a prefix of any program. Or else the length of the text.
    pub offset: usize,
    /// Each kind of token with which the text up to there begins some program. There are none if the text up to there begins no
    /// program.
    pub expected: List<TokenKind>,
}

/// The program that a text spells, or why it spells none.
pub fn read_or_tell(alloc: Global, text: &str) -> Result<Program, ProgramFault>
    ensures program { IfOk result (λ p. parsed text.now ≡ Ok p) }
    ensures fault { IfErr result (Tells text.now) }
{
    match read(alloc, text) {
        Ok(program) => Ok(program),
        Err(ReadFault::Syntax(offset)) => Err(syntax_fault(alloc, text, offset)),
        Err(ReadFault::TooDeep) => Err(too_deep(alloc, text)),
        Err(ReadFault::TooMany) => Err(too_many(alloc, text)),
        Err(ReadFault::Memory) => Err(ProgramFault::Memory),
    }
}

// Finds which tokens could come where the text is refused.
fn syntax_fault(alloc: Global, text: &str, offset: usize) -> ProgramFault
    requires { parsed text.now ≡ Err (ReadFault.Syntax offset) }
    ensures { Tells text.now result }
{
    laws::parser();
    let Ok(expected) = expected_behind(alloc, &text[..offset]) else {
        return ProgramFault::Memory;
    };
    ProgramFault::Syntax(SyntaxFault {
        offset,
        expected: List::from_vec(expected),
    })
}

// Finds where the text nests too deep.
fn too_deep(alloc: Global, text: &str) -> ProgramFault
    requires { parsed text.now ≡ Err ReadFault.TooDeep }
    ensures { Tells text.now result }
{
    let Ok(tokens) = lexer::tokens(alloc, text.as_bytes()) else {
        return ProgramFault::Memory;
    };
    let Some(offset) = first_too_deep(&tokens) else {
        unreachable!()
    };
    ProgramFault::TooDeep(offset)
}

// Finds the port that is too many.
fn too_many(alloc: Global, text: &str) -> ProgramFault
    requires { parsed text.now ≡ Err ReadFault.TooMany }
    ensures { Tells text.now result }
{
    let Ok(tokens) = lexer::tokens(alloc, text.as_bytes()) else {
        return ProgramFault::Memory;
    };
    ProgramFault::TooMany(first_crowded(&tokens))
}
