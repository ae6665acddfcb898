//! Prints a program as its canonical text.
//!
//! Each method of the printer writes what one definition of `Canonical` describes. Its grammar line is above it.

ghost use Rattle.std.specs.Prelude.{◌≡◌, ℕ, List, [], ◌∷◌, ◌++◌, Ok, IfOk, OnOk};
ghost use Rattle.std.specs.String.{string_bytes};
ghost use Rattle.giotto_text.specs.Canonical.{keyword, symbol, initial_tokens, canonical_of, canonical_tokens};
ghost use Rattle.giotto_text.specs.Parsing.{parsed};
ghost use Rattle.giotto_text.specs.declared.tokens.Token.TheVariants as tokens;
ghost use Rattle.giotto_read.specs.inner.Printing.{written, comma_before};

mod declarations;
mod expressions;
mod modes;
mod tasks;

use giotto_tasks::names::Name;
use giotto_text::laws;
use giotto_text::programs::{Parts, Program};
use giotto_text::tokens::{Keyword, Symbol};
use std::alloc::{AllocError, Global};
use std::fmt::Write;
use std::marker::Model;

/// The canonical text of a program: its tokens with one space between each two. Only an operand that is itself an
/// operation is in parentheses, there is no empty `else`, a switch without destinations has no braces, and no number
/// has leading zeros. The text reads as the program again.
///
/// # Errors
/// Out of memory.
pub fn print(alloc: Global, program: &Program) -> Result<String, AllocError>
    ensures text { IfOk result (λ text. string_bytes text ≡ canonical_of program.now) }
    ensures reads_back { IfOk result (λ text. parsed (string_bytes text) ≡ Ok program.now) }
{
    laws::canonical();
    let mut printer = Printer {
        text: String::new(alloc),
    };
    printer.program(program.parts())?;
    Ok(printer.into_text())
}

// The text so far: each token, followed by a space.
#[derive(Drop)]
struct Printer {
    text: String,
}

impl Model for Printer {
    ghost use Rattle.std.specs.Prelude.{List, ℕ};

    ghost Value = { List ℕ };

    ghost use Rattle.std.specs.String.{string_bytes};

    ghost view = { λ p. string_bytes p.text };
}

impl Printer {
    // program = {sensor} {actuator} {output} {task} {mode} "start" NAME ";"
    #[tactic(auto, using(crate::proofs::Writing::writing))]
    fn program(&mut self, program: &Parts) -> Result<(), AllocError>
        ensures { OnOk result (self.new ≡ written self.old (canonical_tokens program.now)) }
    {
        self.sensors(program.sensors.as_slice())?;
        self.actuators(program.actuators.as_slice())?;
        self.outputs(program.outputs.as_slice())?;
        self.tasks(program.tasks.as_slice())?;
        self.modes(program.modes.as_slice())?;
        self.keyword(Keyword::Start)?;
        self.name(&program.start)?;
        self.symbol(Symbol::Semicolon)
    }

    fn token(&mut self, token: &str) -> Result<(), AllocError>
        ensures { OnOk result (self.new ≡ self.old ++ (token.now ++ 32 ∷ [])) }
    {
        self.text.push_str(token)?;
        self.text.push(' ')
    }

    #[tactic(auto, unfolding(crate::specs::inner::Printing::written))]
    fn keyword(&mut self, word: Keyword) -> Result<(), AllocError>
        ensures { OnOk result (self.new ≡ written self.old (keyword word ∷ [])) }
    {
        self.token(word.as_str())
    }

    #[tactic(auto, unfolding(crate::specs::inner::Printing::written))]
    fn symbol(&mut self, mark: Symbol) -> Result<(), AllocError>
        ensures { OnOk result (self.new ≡ written self.old (symbol mark ∷ [])) }
    {
        self.token(mark.as_str())
    }

    #[tactic(auto, unfolding(crate::specs::inner::Printing::written))]
    fn name(&mut self, name: &Name) -> Result<(), AllocError>
        ensures { OnOk result (self.new ≡ written self.old (tokens.Name name.now ∷ [])) }
    {
        self.token(name.as_str())
    }

    #[tactic(auto, unfolding(crate::specs::inner::Printing::written))]
    fn number(&mut self, number: u64) -> Result<(), AllocError>
        ensures { OnOk result (self.new ≡ written self.old (tokens.Number number ∷ [])) }
    {
        write!(self.text, "{number} ")
    }

    // init = ["-"] INT
    #[tactic(auto, using(crate::proofs::Writing::writing))]
    fn initial(&mut self, value: i64) -> Result<(), AllocError>
        ensures { OnOk result (self.new ≡ written self.old (initial_tokens value)) }
    {
        if value < 0 {
            self.symbol(Symbol::Minus)?;
        }
        self.number(value.unsigned_abs())
    }

    // A comma, unless the element is the first of its list.
    #[tactic(auto, using(crate::proofs::Writing::writing, crate::proofs::Writing::comma_behind))]
    fn comma_before(&mut self, index: usize) -> Result<(), AllocError>
        ensures { OnOk result (self.new ≡ written self.old (comma_before index)) }
    {
        if index == 0 {
            return Ok(());
        }
        self.symbol(Symbol::Comma)
    }

    // The text without its last space.
    fn into_text(self) -> String
        ensures { (text : List ℕ) → self ≡ text ++ 32 ∷ [] → string_bytes result ≡ text }
    {
        let Printer { mut text } = self;
        text.pop();
        text
    }
}
