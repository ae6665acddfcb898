//! The layout of a program over lines.

use giotto_text::tokens::{Keyword, PlacedToken, Symbol, Token};
use std::alloc::{AllocError, Global};

/// The tokens of a program, laid out over lines.
///
/// # Errors
/// Out of memory.
pub(crate) fn laid_out(alloc: Global, tokens: &[PlacedToken]) -> Result<String, AllocError> {
    let mut page = Page {
        alloc,
        text: String::new(alloc),
        depth: 0,
        switch: SwitchPart::Outside,
        gap: Gap::None,
        after_operand: false,
    };
    for (place, placed) in tokens.iter().enumerate() {
        let next = match tokens.get(place.saturating_add(1)) {
            Some(next) => Some(&next.token),
            None => None,
        };
        page.write(&placed.token, next)?;
    }
    page.text.push_str("\n")?;
    Ok(page.into_text())
}

// What is written between the last token and the next one.
#[derive(Clone, Copy, Debug, PartialEq, Eq)]
enum Gap {
    None,
    Blank,
    Line,
}

// Where in a switch the next token is. A switch's braces stay on its line.
#[derive(Clone, Copy, Debug, PartialEq, Eq)]
enum SwitchPart {
    Outside,
    Line,
    Braces,
}

// The text so far.
#[derive(Drop)]
struct Page {
    alloc: Global,
    text: String,
    // How many blocks are open.
    depth: usize,
    switch: SwitchPart,
    gap: Gap,
    // Whether the last token ends an operand.
    after_operand: bool,
}

impl Page {
    fn into_text(self) -> String {
        let Page {
            alloc: _,
            text,
            depth: _,
            switch: _,
            gap: _,
            after_operand: _,
        } = self;
        text
    }

    // Writes a token. `next` is the token after it.
    fn write(&mut self, token: &Token, next: Option<&Token>) -> Result<(), AllocError> {
        let in_line = self.switch != SwitchPart::Outside;
        if is_mark(token, Symbol::CloseBrace) && !in_line {
            self.depth = self.depth.saturating_sub(1);
        }
        self.write_gap(token)?;
        self.write_text(token)?;
        self.gap = self.gap_behind(token, next);
        if is_mark(token, Symbol::OpenBrace) && !in_line {
            self.depth = self.depth.saturating_add(1);
        }
        self.switch = switch_behind(self.switch, token);
        self.after_operand = matches!(
            token,
            Token::Name(_) | Token::Number(_) | Token::Symbol(Symbol::CloseParenthesis)
        );
        Ok(())
    }

    fn write_gap(&mut self, token: &Token) -> Result<(), AllocError> {
        let close = matches!(
            token,
            Token::Symbol(Symbol::Semicolon | Symbol::Comma | Symbol::CloseParenthesis)
        );
        let call = self.after_operand && is_mark(token, Symbol::OpenParenthesis);
        match self.gap {
            Gap::Blank if !close && !call => self.text.push_str(" ")?,
            Gap::Line => {
                self.text.push_str("\n")?;
                for _ in 0..self.depth {
                    self.text.push_str("    ")?;
                }
            }
            _ => {}
        }
        Ok(())
    }

    fn write_text(&mut self, token: &Token) -> Result<(), AllocError> {
        match token {
            Token::Name(name) => self.text.push_str(name.as_str()),
            Token::Keyword(keyword) => self.text.push_str(keyword.as_str()),
            Token::Symbol(symbol) => self.text.push_str(symbol.as_str()),
            Token::Number(number) => {
                let digits = format!(in self.alloc; "{number}")?;
                self.text.push_str(digits.as_str())
            }
        }
    }

    fn gap_behind(&self, token: &Token, next: Option<&Token>) -> Gap {
        let unary = !self.after_operand;
        let in_switch = self.switch != SwitchPart::Outside;
        match token {
            Token::Symbol(Symbol::OpenParenthesis) => Gap::None,
            Token::Symbol(Symbol::Minus | Symbol::Not) if unary => Gap::None,
            Token::Symbol(Symbol::Semicolon) if self.switch == SwitchPart::Braces => Gap::Blank,
            Token::Symbol(Symbol::Semicolon) => Gap::Line,
            Token::Symbol(Symbol::OpenBrace | Symbol::CloseBrace) if in_switch => Gap::Blank,
            Token::Symbol(Symbol::OpenBrace) if closes(next) => Gap::Blank,
            Token::Symbol(Symbol::OpenBrace) => Gap::Line,
            Token::Symbol(Symbol::CloseBrace) if is_else(next) => Gap::Blank,
            Token::Symbol(Symbol::CloseBrace) => Gap::Line,
            _ => Gap::Blank,
        }
    }
}

fn is_mark(token: &Token, symbol: Symbol) -> bool {
    matches!(token, Token::Symbol(found) if *found == symbol)
}

fn closes(next: Option<&Token>) -> bool {
    match next {
        Some(token) => is_mark(token, Symbol::CloseBrace),
        None => false,
    }
}

fn is_else(next: Option<&Token>) -> bool {
    matches!(next, Some(Token::Keyword(Keyword::Else)))
}

// Where in a switch the token after this one is.
fn switch_behind(part: SwitchPart, token: &Token) -> SwitchPart {
    match (part, token) {
        (_, Token::Keyword(Keyword::ExitFreq)) => SwitchPart::Line,
        (SwitchPart::Line, Token::Symbol(Symbol::OpenBrace)) => SwitchPart::Braces,
        (SwitchPart::Line, Token::Symbol(Symbol::Semicolon)) => SwitchPart::Outside,
        (SwitchPart::Braces, Token::Symbol(Symbol::CloseBrace)) => SwitchPart::Line,
        _ => part,
    }
}
