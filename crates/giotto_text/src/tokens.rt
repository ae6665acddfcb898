//! The tokens of a program text.

ghost use Rattle.std.specs.Prelude.{◌≡◌};
ghost use Rattle.giotto_text.specs.Tokens.{text_of_keyword, text_of_symbol};

use giotto_tasks::names::Name;

/// A word that is not a name.
#[derive(Clone, Copy, Debug, PartialEq, Eq)]
pub enum Keyword {
    Sensor,
    Actuator,
    Output,
    Task,
    State,
    Mode,
    Period,
    ActFreq,
    ExitFreq,
    TaskFreq,
    Start,
    Do,
    If,
    Else,
    Repeat,
    Line,
    Grant,
}

impl Keyword {
    /// The keyword as it is written.
    pub fn as_str(self) -> &'static str
        ensures { result.now ≡ text_of_keyword self }
    {
        match self {
            Keyword::Sensor => "sensor",
            Keyword::Actuator => "actuator",
            Keyword::Output => "output",
            Keyword::Task => "task",
            Keyword::State => "state",
            Keyword::Mode => "mode",
            Keyword::Period => "period",
            Keyword::ActFreq => "actfreq",
            Keyword::ExitFreq => "exitfreq",
            Keyword::TaskFreq => "taskfreq",
            Keyword::Start => "start",
            Keyword::Do => "do",
            Keyword::If => "if",
            Keyword::Else => "else",
            Keyword::Repeat => "repeat",
            Keyword::Line => "line",
            Keyword::Grant => "grant",
        }
    }
}

/// A symbol of one or two bytes.
#[derive(Clone, Copy, Debug, PartialEq, Eq)]
pub enum Symbol {
    /// `:=`
    Becomes,
    /// `;`
    Semicolon,
    /// `,`
    Comma,
    /// `(`
    OpenParenthesis,
    /// `)`
    CloseParenthesis,
    /// `{`
    OpenBrace,
    /// `}`
    CloseBrace,
    /// `+`
    Plus,
    /// `-`
    Minus,
    /// `*`
    Star,
    /// `/`
    Slash,
    /// `%`
    Percent,
    /// `==`
    EqualEqual,
    /// `!=`
    NotEqual,
    /// `<`
    Less,
    /// `<=`
    AtMost,
    /// `>`
    Greater,
    /// `>=`
    AtLeast,
    /// `&&`
    AndAnd,
    /// `||`
    OrOr,
    /// `!`
    Not,
}

impl Symbol {
    /// The symbol as it is written.
    pub fn as_str(self) -> &'static str
        ensures { result.now ≡ text_of_symbol self }
    {
        match self {
            Symbol::Becomes => ":=",
            Symbol::EqualEqual => "==",
            Symbol::NotEqual => "!=",
            Symbol::AtMost => "<=",
            Symbol::AtLeast => ">=",
            Symbol::AndAnd => "&&",
            Symbol::OrOr => "||",
            Symbol::Semicolon => ";",
            Symbol::Comma => ",",
            Symbol::OpenParenthesis => "(",
            Symbol::CloseParenthesis => ")",
            Symbol::OpenBrace => "{",
            Symbol::CloseBrace => "}",
            Symbol::Plus => "+",
            Symbol::Minus => "-",
            Symbol::Star => "*",
            Symbol::Slash => "/",
            Symbol::Percent => "%",
            Symbol::Less => "<",
            Symbol::Greater => ">",
            Symbol::Not => "!",
        }
    }
}

/// A token of a program text.
#[derive(Drop, PartialEq, Eq)]
pub enum Token {
    /// A name: 1 to 32 bytes, and not a keyword.
    Name(Name),
    /// A keyword.
    Keyword(Keyword),
    /// A number: 0 to 9223372036854775808, however many leading zeros were written.
    Number(u64),
    /// A symbol.
    Symbol(Symbol),
}

/// A token with its place.
#[derive(Drop, PartialEq, Eq)]
pub struct PlacedToken {
    pub token: Token,
    /// The offset of its first byte in the text, in bytes.
    pub offset: usize,
}
