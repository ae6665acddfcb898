//! Why a text is not a program.

use thiserror::Error;

/// Why a text is refused. The reasons are checked in this order: a byte at which no token begins, nesting, the grammar,
/// the number of a task's ports.
#[derive(Clone, Copy, Debug, PartialEq, Eq, Error)]
pub enum ReadFault {
    /// The text spells no program. The offset, in bytes, is the first byte at which no token begins; otherwise the
    /// first token with which the tokens are no prefix of any program; otherwise the length of the text.
    #[error("syntax fault at byte {0} of the program text")]
    Syntax(usize),
    /// Parentheses and braces nest more than 32 deep.
    #[error("parentheses and braces nest more than 32 deep")]
    TooDeep,
    /// A task has more than 16 inputs, 16 outputs or 16 states.
    #[error("a task has more than 16 inputs, outputs or states")]
    TooMany,
    /// Out of memory.
    #[error("no memory for the program")]
    Memory,
}
