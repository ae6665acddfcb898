//! Reads a program from a text.

ghost use Rattle.std.specs.Prelude.{◌≡◌, ◌≢◌, ◌≤◌, IfOk, Ok, Err};
ghost use Rattle.std.specs.List.{list_all};
ghost use Rattle.giotto_tasks.specs.Sound.{is_small};
ghost use Rattle.giotto_text.specs.Nesting.{nests_too_deep, open_behind};
ghost use Rattle.giotto_text.specs.Parsing.{parsed, read_all};
ghost use Rattle.giotto_text.specs.Program.{body_of};
ghost use Rattle.giotto_text.specs.ProgramTrees.{task_of};
ghost use Rattle.giotto_text.specs.Reading.{has_small_tasks};
ghost use Rattle.giotto_text.specs.Tokens.{bare};
ghost use Rattle.giotto_text.specs.declared.faults.ReadFault.{ReadFault};

use crate::reader::{Reader, Stop};
use giotto_text::faults::ReadFault;
use giotto_text::programs::{Parts, Program, Task};
use giotto_text::tokens::{PlacedToken, Symbol, Token};
use giotto_text::{laws, lexer};
use std::alloc::Global;

/// The program that a text spells.
///
/// Refuses a text that spells no program. The reasons are checked in this order:
/// - `Syntax` with the offset in bytes of the first byte at which no token begins.
/// - `TooDeep` if more than 32 parentheses and braces are open at once.
/// - `Syntax` with the offset of the first token with which the tokens are no prefix of a program. If the tokens end
///   too early, the offset is the length of the text, including blanks at its end.
/// - `TooMany` if a task has more than 16 inputs, outputs or states.
///
/// If an allocation fails, the fault is `Memory`.
pub fn read(alloc: Global, text: &str) -> Result<Program, ReadFault>
    ensures found { IfOk result (λ p. parsed text.now ≡ Ok p) }
    ensures fault { (f : ReadFault) → result ≡ Err f → f ≢ ReadFault.Memory → parsed text.now ≡ Err f }
{
    let tokens = lexer::tokens(alloc, text.as_bytes())?;
    let parts = read_tokens(alloc, &tokens, text.len())?;
    laws::printable();
    Ok(Program::new(parts))
}

// The parts of the program that the tokens of a text spell. `end` is the length of the text in bytes. Checks the
// nesting first, so that the reader, which recurses through nested parts, takes little of the stack.
fn read_tokens(alloc: Global, tokens: &[PlacedToken], end: usize) -> Result<Parts, ReadFault>
    ensures found { IfOk result (λ p. read_all end tokens.now ≡ Ok p) }
    ensures fault { (f : ReadFault) → result ≡ Err f → f ≢ ReadFault.Memory → read_all end tokens.now ≡ Err f }
{
    if nests_too_deep(tokens) {
        return Err(ReadFault::TooDeep);
    }
    let mut reader = Reader::new(alloc, tokens);
    let program = match reader.program() {
        Ok(program) => program,
        Err(Stop::Unexpected) => return Err(ReadFault::Syntax(reader.offset(end))),
        Err(Stop::Memory) => return Err(ReadFault::Memory),
    };
    if !reader.is_at_end() {
        return Err(ReadFault::Syntax(reader.offset(end)));
    }
    if !has_small_tasks(&program) {
        return Err(ReadFault::TooMany);
    }
    Ok(program)
}

// Whether more than 32 parentheses and braces are open at once.
fn nests_too_deep(tokens: &[PlacedToken]) -> bool
    ensures { result ≡ nests_too_deep (bare tokens.now) }
{
    let mut depth = 0;
    for placed in tokens {
        depth = depth_behind(depth, &placed.token);
        if depth > 32 {
            return true;
        }
    }
    false
}

// How many are open after the token, if `depth` are open before it.
fn depth_behind(depth: usize, token: &Token) -> usize
    requires { depth ≤ 32 }
    ensures { result ≡ open_behind depth token.now }
{
    match token {
        Token::Symbol(Symbol::OpenParenthesis | Symbol::OpenBrace) => depth + 1,
        Token::Symbol(Symbol::CloseParenthesis | Symbol::CloseBrace) => depth.saturating_sub(1),
        _ => depth,
    }
}

fn has_small_tasks(program: &Parts) -> bool
    ensures { result ≡ has_small_tasks program.now }
{
    are_small(program.tasks.as_slice())
}

fn are_small(tasks: &[Task]) -> bool
    ensures { result ≡ list_all (λ t. is_small (body_of (task_of t))) tasks.now }
{
    tasks.iter().all(|task| is_small(task))
}

fn is_small(task: &Task) -> bool
    ensures { result ≡ is_small (body_of (task_of task.now)) }
{
    task.body.is_small()
}
