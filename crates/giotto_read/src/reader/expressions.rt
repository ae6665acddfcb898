//! Expressions and guards.

ghost use Rattle.std.specs.Prelude.{◌≡◌, map};
ghost use Rattle.giotto_read.specs.inner.Doing.{Does, TakesOne};
ghost use Rattle.giotto_tasks.specs.Trees.{expression_of, primary_of};
ghost use Rattle.giotto_text.specs.Parsing.{binary_in, read_expression, read_guard, read_list, read_operand_of, read_parentheses, unary_in};
ghost use Rattle.giotto_text.specs.ProgramTrees.{guard_of};
ghost use Rattle.giotto_text.specs.declared.tokens.Token.TheVariants as token;

use super::{Reader, Stop};
use giotto_tasks::bodies::{Expr, Primary};
use giotto_tasks::lists::List;
use giotto_tasks::operators::{BinaryOperator, UnaryOperator};
use giotto_text::tokens::{Keyword, Symbol};

impl Reader<'_> {
    // "(" [expr {"," expr}] ")"
    pub(super) fn arguments(&mut self) -> Result<List<Expr>, Stop>
        ensures { Does (map expression_of) (read_parentheses read_expression) self.old result self.new }
    {
        self.symbol(Symbol::OpenParenthesis)?;
        if self.accept(Symbol::CloseParenthesis) {
            return Ok(List::from_vec(Vec::new(self.alloc)));
        }
        let arguments = self.expressions()?;
        self.symbol(Symbol::CloseParenthesis)?;
        Ok(arguments)
    }

    // expr {"," expr}
    fn expressions(&mut self) -> Result<List<Expr>, Stop>
        ensures { Does (map expression_of) (read_list read_expression) self.old result self.new }
    {
        let mut expressions = Vec::new(self.alloc);
        let expression = self.expression()?;
        expressions.push(expression)?;
        while self.accept(Symbol::Comma) {
            let expression = self.expression()?;
            expressions.push(expression)?;
        }
        Ok(List::from_vec(expressions))
    }

    // ["if" expr]
    pub(super) fn guard(&mut self) -> Result<Option<Expr>, Stop>
        ensures { Does guard_of read_guard self.old result self.new }
    {
        if !self.accept_keyword(Keyword::If) {
            return Ok(None);
        }
        let guard = self.expression()?;
        Ok(Some(guard))
    }

    // expr = unop prim | prim [binop prim]
    #[cycle(nest)]
    pub(super) fn expression(&mut self) -> Result<Expr, Stop>
        ensures { Does expression_of read_expression self.old result self.new }
    {
        if let Some(operator) = self.accept_unary() {
            let operand = self.operand()?;
            return Ok(Expr::Unary(operator, operand));
        }
        let left = self.operand()?;
        let Some(operator) = self.accept_binary() else {
            return Ok(expression_alone(left));
        };
        let right = self.operand()?;
        Ok(Expr::Binary(operator, left, right))
    }

    // prim = INT | NAME | "(" expr ")"
    #[cycle(nest)]
    fn operand(&mut self) -> Result<Primary, Stop>
        ensures { Does primary_of (read_operand_of read_expression) self.old result self.new }
    {
        if self.next_name().is_some() {
            let name = self.name()?;
            return Ok(Primary::Port(name));
        }
        if self.accept(Symbol::OpenParenthesis) {
            let inner = self.expression()?;
            self.symbol(Symbol::CloseParenthesis)?;
            let inner = Box::new(self.alloc, inner)?;
            return Ok(Primary::Nested(inner));
        }
        let number = self.int()?;
        Ok(Primary::Number(number as i64))
    }

    // Takes an operator of one operand if it comes next.
    fn accept_unary(&mut self) -> Option<UnaryOperator>
        ensures { TakesOne unary_in self.old result self.new }
    {
        let symbol = self.next_symbol()?;
        let operator = unary_operator(symbol)?;
        self.at += 1;
        Some(operator)
    }

    // Takes an operator of two operands if it comes next.
    fn accept_binary(&mut self) -> Option<BinaryOperator>
        ensures { TakesOne binary_in self.old result self.new }
    {
        let symbol = self.next_symbol()?;
        let operator = binary_operator(symbol)?;
        self.at += 1;
        Some(operator)
    }
}

// An operand without an operator, as an expression.
fn expression_alone(primary: Primary) -> Expr
    ensures { expression_of result ≡ primary_of primary }
{
    match primary {
        Primary::Number(number) => Expr::Number(number),
        Primary::Port(name) => Expr::Port(name),
        Primary::Nested(inner) => Box::into_inner(inner),
    }
}

fn unary_operator(symbol: Symbol) -> Option<UnaryOperator>
    ensures { result ≡ unary_in (token.Symbol symbol) }
{
    match symbol {
        Symbol::Minus => Some(UnaryOperator::Negate),
        Symbol::Not => Some(UnaryOperator::Not),
        _ => None,
    }
}

fn binary_operator(symbol: Symbol) -> Option<BinaryOperator>
    ensures { result ≡ binary_in (token.Symbol symbol) }
{
    match symbol {
        Symbol::Plus => Some(BinaryOperator::Add),
        Symbol::Minus => Some(BinaryOperator::Subtract),
        Symbol::Star => Some(BinaryOperator::Multiply),
        Symbol::Slash => Some(BinaryOperator::Divide),
        Symbol::Percent => Some(BinaryOperator::Remainder),
        Symbol::EqualEqual => Some(BinaryOperator::Equal),
        Symbol::NotEqual => Some(BinaryOperator::NotEqual),
        Symbol::Less => Some(BinaryOperator::Less),
        Symbol::AtMost => Some(BinaryOperator::AtMost),
        Symbol::Greater => Some(BinaryOperator::Greater),
        Symbol::AtLeast => Some(BinaryOperator::AtLeast),
        Symbol::AndAnd => Some(BinaryOperator::And),
        Symbol::OrOr => Some(BinaryOperator::Or),
        _ => None,
    }
}
