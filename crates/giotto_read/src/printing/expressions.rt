//! Expressions.
#![tactic(auto, using(crate::proofs::Writing::writing))]

ghost use Rattle.std.specs.Prelude.{◌≡◌, OnOk};
ghost use Rattle.giotto_tasks.specs.Trees.{expression_of, primary_of};
ghost use Rattle.giotto_text.specs.Canonical.{expression_tokens, operand_tokens, given_tokens};
ghost use Rattle.giotto_text.specs.Grammar.{symbol_of_unary, symbol_of_binary};
ghost use Rattle.giotto_read.specs.inner.Printing.{written};

use super::Printer;
use giotto_tasks::bodies::{Expr, Primary};
use giotto_tasks::names::Name;
use giotto_tasks::operators::{BinaryOperator, UnaryOperator};
use giotto_text::tokens::Symbol;
use std::alloc::AllocError;

impl Printer {
    // expr = unop prim | prim [binop prim]
    #[cycle(nest)]
    pub(super) fn expression(&mut self, expression: &Expr) -> Result<(), AllocError>
        ensures { OnOk result (self.new ≡ written self.old (expression_tokens (expression_of expression.now))) }
    {
        match expression {
            Expr::Number(value) => self.initial(*value),
            Expr::Port(name) => self.name(name),
            Expr::Unary(operator, a) => {
                self.symbol(symbol_of_unary(*operator))?;
                self.operand(a)
            }
            Expr::Binary(operator, a, b) => {
                self.operand(a)?;
                self.symbol(symbol_of_binary(*operator))?;
                self.operand(b)
            }
        }
    }

    // prim = INT | NAME | "(" expr ")"
    #[cycle(nest)]
    fn operand(&mut self, primary: &Primary) -> Result<(), AllocError>
        ensures { OnOk result (self.new ≡ written self.old (operand_tokens (primary_of primary.now) (expression_tokens (primary_of primary.now)))) }
    {
        match primary {
            Primary::Number(value) => self.initial(*value),
            Primary::Port(name) => self.name(name),
            Primary::Nested(e) => self.nested(e),
        }
    }

    // A number or a name needs no parentheses.
    #[cycle(nest)]
    fn nested(&mut self, expression: &Expr) -> Result<(), AllocError>
        ensures { OnOk result (self.new ≡ written self.old (operand_tokens (expression_of expression.now) (expression_tokens (expression_of expression.now)))) }
    {
        match expression {
            Expr::Number(_) | Expr::Port(_) => self.expression(expression),
            Expr::Unary(_, _) | Expr::Binary(_, _, _) => {
                self.symbol(Symbol::OpenParenthesis)?;
                self.expression(expression)?;
                self.symbol(Symbol::CloseParenthesis)
            }
        }
    }

    // NAME ":=" expr ";"
    pub(super) fn given(&mut self, name: &Name, value: &Expr) -> Result<(), AllocError>
        ensures { OnOk result (self.new ≡ written self.old (given_tokens name.now (expression_of value.now))) }
    {
        self.name(name)?;
        self.symbol(Symbol::Becomes)?;
        self.expression(value)?;
        self.symbol(Symbol::Semicolon)
    }
}

fn symbol_of_unary(operator: UnaryOperator) -> Symbol
    ensures { result ≡ symbol_of_unary operator }
{
    match operator {
        UnaryOperator::Negate => Symbol::Minus,
        UnaryOperator::Not => Symbol::Not,
    }
}

fn symbol_of_binary(operator: BinaryOperator) -> Symbol
    ensures { result ≡ symbol_of_binary operator }
{
    match operator {
        BinaryOperator::Add => Symbol::Plus,
        BinaryOperator::Subtract => Symbol::Minus,
        BinaryOperator::Multiply => Symbol::Star,
        BinaryOperator::Divide => Symbol::Slash,
        BinaryOperator::Remainder => Symbol::Percent,
        BinaryOperator::Equal => Symbol::EqualEqual,
        BinaryOperator::NotEqual => Symbol::NotEqual,
        BinaryOperator::Less => Symbol::Less,
        BinaryOperator::AtMost => Symbol::AtMost,
        BinaryOperator::Greater => Symbol::Greater,
        BinaryOperator::AtLeast => Symbol::AtLeast,
        BinaryOperator::And => Symbol::AndAnd,
        BinaryOperator::Or => Symbol::OrOr,
    }
}
