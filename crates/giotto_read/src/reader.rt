//! Reads a program from its tokens: one function for each line of the grammar, from left to right, with one token of
//! lookahead.

ghost use Rattle.std.specs.Prelude.{◌≡◌, ℕ, false, pos, neg_ℤ, List, ◌≤◌, ◌^◌, ◌<◌, ◌↔◌, length, IsTrue, IfSome, IfNone, IfOk};
ghost use Rattle.std.specs.Bool.{OnTrue, OnFalse};
ghost use Rattle.giotto_text.specs.Nesting.{nests_too_deep};
ghost use Rattle.giotto_text.specs.Tokens.{bare};

mod declarations;
mod expressions;
mod modes;
mod statements;
mod tasks;

use giotto_tasks::names::Name;
use giotto_text::programs::Parts;
use giotto_text::tokens::{Keyword, PlacedToken, Symbol, Token};
use std::alloc::{AllocError, AllocFailed, Global};

/// Why a reader stopped at its token.
#[derive(Clone, Copy, Debug, PartialEq, Eq)]
pub(crate) enum Stop {
    /// The next token, or the end of the text, fits no grammar line here.
    Unexpected,
    /// Out of memory.
    Memory,
}

impl<T: Drop> From<AllocFailed<T>> for Stop {
    ghost use Rattle.std.specs.Prelude.{◌≡◌};
    ghost use Rattle.giotto_read.specs.declared.reader.Stop.TheVariants.{Memory};

    ghost from_gives = { λ _ e. e ≡ Memory };

    fn from(_failed: AllocFailed<T>) -> Stop {
        Stop::Memory
    }
}

impl From<AllocError> for Stop {
    ghost use Rattle.std.specs.Prelude.{◌≡◌};
    ghost use Rattle.giotto_read.specs.declared.reader.Stop.TheVariants.{Memory};

    ghost from_gives = { λ _ e. e ≡ Memory };

    fn from(_failed: AllocError) -> Stop {
        Stop::Memory
    }
}

/// The tokens of a text, nested at most 32 deep, and how many of them are read.
#[derive(Drop)]
pub(crate) struct Reader<'a> {
    alloc: Global,
    tokens: &'a [PlacedToken],
    at: usize,
    ghost within: { at ≤ length tokens.now },
    ghost shallow: { nests_too_deep (bare tokens.now) ≡ false },
}

impl<'a> Reader<'a> {
    /// A reader of these tokens, at the first one.
    pub(crate) fn new(alloc: Global, tokens: &'a [PlacedToken]) -> Reader<'a>
        requires { nests_too_deep (bare tokens.now) ≡ false }
        ensures tokens { result.tokens.now ≡ tokens.now }
        ensures start { result.at ≡ 0 }
    {
        Reader {
            alloc,
            tokens,
            at: 0,
        }
    }
}

impl Reader<'_> {
    ghost use Rattle.giotto_read.specs.inner.Doing.{ComesNext, Does, Takes, offset_at};
    ghost use Rattle.giotto_text.specs.Parsing.{end_mark, number_in, read_initial, read_int, read_name, read_one, read_program, read_start, read_token};
    ghost use Rattle.giotto_text.specs.declared.tokens.Symbol.{Symbol};
    ghost use Rattle.giotto_text.specs.declared.tokens.Token.TheVariants as token;

    // program = {sensor} {actuator} {output} {task} {mode} "start" NAME ";"
    pub(crate) fn program(&mut self) -> Result<Parts, Stop>
        ensures { Does (λ p. p) read_program self.old result self.new }
    {
        let sensors = self.sensors()?;
        let actuators = self.actuators()?;
        let outputs = self.outputs()?;
        let tasks = self.tasks()?;
        let modes = self.modes()?;
        let start = self.start()?;
        Ok(Parts {
            sensors,
            actuators,
            outputs,
            tasks,
            modes,
            start,
        })
    }

    /// Whether all tokens are read.
    pub(crate) fn is_at_end(&self) -> bool
        ensures { IsTrue result ↔ (self.now.at ≡ length self.now.tokens.now) }
    {
        self.at == self.tokens.len()
    }

    /// The offset of the next token, or `end` if there is none.
    pub(crate) fn offset(&self, end: usize) -> usize
        ensures { result ≡ offset_at self.now.tokens.now self.now.at end }
    {
        match self.tokens.get(self.at) {
            Some(token) => token.offset,
            None => end,
        }
    }

    // "start" NAME ";"
    fn start(&mut self) -> Result<Name, Stop>
        ensures { Does (λ x. x) read_start self.old result self.new }
    {
        self.keyword(Keyword::Start)?;
        let name = self.name()?;
        self.symbol(Symbol::Semicolon)?;
        Ok(name)
    }

    // The next token.
    fn next(&self) -> Option<&Token>
        ensures token { IfSome result (λ t. ComesNext self.now t.now) }
        ensures end { IfNone result (ComesNext self.now end_mark) }
    {
        match self.tokens.get(self.at) {
            Some(placed) => Some(&placed.token),
            None => None,
        }
    }

    fn next_is(&self, symbol: Symbol) -> bool
        ensures yes { OnTrue result (ComesNext self.now (token.Symbol symbol)) }
        ensures no { OnFalse result (¬ ComesNext self.now (token.Symbol symbol)) }
    {
        match self.next() {
            Some(Token::Symbol(found)) => *found == symbol,
            _ => false,
        }
    }

    fn next_is_keyword(&self, keyword: Keyword) -> bool
        ensures yes { OnTrue result (ComesNext self.now (token.Keyword keyword)) }
        ensures no { OnFalse result (¬ ComesNext self.now (token.Keyword keyword)) }
    {
        match self.next() {
            Some(Token::Keyword(found)) => *found == keyword,
            _ => false,
        }
    }

    fn next_name(&self) -> Option<&Name>
        ensures some { IfSome result (λ x. ComesNext self.now (token.Name x.now)) }
        ensures none { IfNone result ((x : List ℕ) → ¬ ComesNext self.now (token.Name x)) }
    {
        match self.next() {
            Some(Token::Name(name)) => Some(name),
            _ => None,
        }
    }

    fn next_number(&self) -> Option<u64>
        ensures some { IfSome result (λ n. ComesNext self.now (token.Number n)) }
        ensures none { IfNone result ((n : ℕ) → n ≤ 2 ^ 63 → ¬ ComesNext self.now (token.Number n)) }
    {
        match self.next() {
            Some(Token::Number(number)) => Some(*number),
            _ => None,
        }
    }

    fn next_symbol(&self) -> Option<Symbol>
        ensures some { IfSome result (λ s. ComesNext self.now (token.Symbol s)) }
        ensures none { IfNone result ((s : Symbol) → ¬ ComesNext self.now (token.Symbol s)) }
    {
        match self.next() {
            Some(Token::Symbol(symbol)) => Some(*symbol),
            _ => None,
        }
    }

    // Takes the symbol if it comes next.
    fn accept(&mut self, symbol: Symbol) -> bool
        ensures { Takes (token.Symbol symbol) self.old result self.new }
    {
        if !self.next_is(symbol) {
            return false;
        }
        self.at += 1;
        true
    }

    // Takes the keyword if it comes next.
    fn accept_keyword(&mut self, keyword: Keyword) -> bool
        ensures { Takes (token.Keyword keyword) self.old result self.new }
    {
        if !self.next_is_keyword(keyword) {
            return false;
        }
        self.at += 1;
        true
    }

    fn symbol(&mut self, symbol: Symbol) -> Result<(), Stop>
        ensures { Does (λ _. tt) (read_token (token.Symbol symbol)) self.old result self.new }
    {
        if !self.accept(symbol) {
            return Err(Stop::Unexpected);
        }
        Ok(())
    }

    fn keyword(&mut self, keyword: Keyword) -> Result<(), Stop>
        ensures { Does (λ _. tt) (read_token (token.Keyword keyword)) self.old result self.new }
    {
        if !self.accept_keyword(keyword) {
            return Err(Stop::Unexpected);
        }
        Ok(())
    }

    fn name(&mut self) -> Result<Name, Stop>
        ensures { Does (λ x. x) read_name self.old result self.new }
    {
        let Some(name) = self.next_name() else {
            return Err(Stop::Unexpected);
        };
        let name = name.copy();
        self.at += 1;
        Ok(name)
    }

    // INT: at most 9223372036854775807
    fn int(&mut self) -> Result<u64, Stop>
        ensures read { Does (λ n. n) read_int self.old result self.new }
        ensures small { IfOk result (λ n. n < 2 ^ 63) }
    {
        let Some(number) = self.next_number() else {
            return Err(Stop::Unexpected);
        };
        if number >= 1 << 63 {
            return Err(Stop::Unexpected);
        }
        self.at += 1;
        Ok(number)
    }

    // INT after "-": at most 9223372036854775808
    fn size(&mut self) -> Result<u64, Stop>
        ensures read { Does (λ n. n) (read_one (number_in (2 ^ 63))) self.old result self.new }
        ensures small { IfOk result (λ n. n ≤ 2 ^ 63) }
    {
        let Some(number) = self.next_number() else {
            return Err(Stop::Unexpected);
        };
        if number > 1 << 63 {
            return Err(Stop::Unexpected);
        }
        self.at += 1;
        Ok(number)
    }

    // init = ["-"] INT, after "-" up to 9223372036854775808
    fn initial(&mut self) -> Result<i64, Stop>
        ensures { Does (λ z. z) read_initial self.old result self.new }
    {
        if self.accept(Symbol::Minus) {
            let size = self.size()?;
            return Ok(negated(size));
        }
        let number = self.int()?;
        Ok(number as i64)
    }
}

// The number after a "-", negated.
fn negated(size: u64) -> i64
    requires { size ≤ 2 ^ 63 }
    ensures { result ≡ neg_ℤ (pos size) }
{
    if size == 1 << 63 {
        i64::MIN
    } else {
        -(size as i64)
    }
}
