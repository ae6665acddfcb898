//! Kinds of tokens.

ghost use Rattle.std.specs.Prelude.{◌≡◌};
ghost use Rattle.giotto_faults.specs.Kinds.{sample_of};

use giotto_read::text::tokens::{Keyword, Symbol};
use std::fmt;

/// A kind of token: names are one kind, numbers are one kind, and each keyword and each mark is a separate kind.
#[derive(Clone, Copy, Debug, PartialEq, Eq)]
pub enum TokenKind {
    Name,
    Number,
    Keyword(Keyword),
    Symbol(Symbol),
}

impl TokenKind {
    /// A token of this kind, as it is written.
    pub fn sample(self) -> &'static str
        ensures { result.now ≡ sample_of self }
    {
        match self {
            TokenKind::Name => "x",
            TokenKind::Number => "0",
            TokenKind::Keyword(keyword) => keyword.as_str(),
            TokenKind::Symbol(symbol) => symbol.as_str(),
        }
    }

    /// Whether it is a binary operator.
    pub(crate) fn is_operator(self) -> bool {
        matches!(
            self,
            TokenKind::Symbol(
                Symbol::Plus
                    | Symbol::Minus
                    | Symbol::Star
                    | Symbol::Slash
                    | Symbol::Percent
                    | Symbol::EqualEqual
                    | Symbol::NotEqual
                    | Symbol::Less
                    | Symbol::AtMost
                    | Symbol::Greater
                    | Symbol::AtLeast
                    | Symbol::AndAnd
                    | Symbol::OrOr
            )
        )
    }
}

impl fmt::Display for TokenKind {
    fn fmt<W: fmt::Write>(&self, f: &mut fmt::Formatter<W>) -> fmt::Result {
        match self {
            TokenKind::Name => f.write_str("a name"),
            TokenKind::Number => f.write_str("a number"),
            TokenKind::Keyword(keyword) => {
                let word = keyword.as_str();
                write!(f, "`{word}`")
            }
            TokenKind::Symbol(symbol) => {
                let mark = symbol.as_str();
                write!(f, "`{mark}`")
            }
        }
    }
}

/// Each kind of token, once.
pub const KINDS: [TokenKind; 40] = [
    TokenKind::Name,
    TokenKind::Number,
    TokenKind::Keyword(Keyword::Sensor),
    TokenKind::Keyword(Keyword::Actuator),
    TokenKind::Keyword(Keyword::Output),
    TokenKind::Keyword(Keyword::Task),
    TokenKind::Keyword(Keyword::State),
    TokenKind::Keyword(Keyword::Mode),
    TokenKind::Keyword(Keyword::Period),
    TokenKind::Keyword(Keyword::ActFreq),
    TokenKind::Keyword(Keyword::ExitFreq),
    TokenKind::Keyword(Keyword::TaskFreq),
    TokenKind::Keyword(Keyword::Start),
    TokenKind::Keyword(Keyword::Do),
    TokenKind::Keyword(Keyword::If),
    TokenKind::Keyword(Keyword::Else),
    TokenKind::Keyword(Keyword::Repeat),
    TokenKind::Keyword(Keyword::Line),
    TokenKind::Keyword(Keyword::Grant),
    TokenKind::Symbol(Symbol::Becomes),
    TokenKind::Symbol(Symbol::Plus),
    TokenKind::Symbol(Symbol::Minus),
    TokenKind::Symbol(Symbol::Star),
    TokenKind::Symbol(Symbol::Slash),
    TokenKind::Symbol(Symbol::Percent),
    TokenKind::Symbol(Symbol::EqualEqual),
    TokenKind::Symbol(Symbol::NotEqual),
    TokenKind::Symbol(Symbol::Less),
    TokenKind::Symbol(Symbol::AtMost),
    TokenKind::Symbol(Symbol::Greater),
    TokenKind::Symbol(Symbol::AtLeast),
    TokenKind::Symbol(Symbol::AndAnd),
    TokenKind::Symbol(Symbol::OrOr),
    TokenKind::Symbol(Symbol::Not),
    TokenKind::Symbol(Symbol::Semicolon),
    TokenKind::Symbol(Symbol::Comma),
    TokenKind::Symbol(Symbol::OpenParenthesis),
    TokenKind::Symbol(Symbol::CloseParenthesis),
    TokenKind::Symbol(Symbol::OpenBrace),
    TokenKind::Symbol(Symbol::CloseBrace),
];
