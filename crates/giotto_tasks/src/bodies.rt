//! The trees of task bodies and of the expressions in drivers.

ghost use Rattle.std.specs.Prelude.{◌≡◌, ◌↔◌, ◌≤◌, ◌<◌, ◌++◌, length, Err, IsTrue, IfOk};
ghost use Rattle.giotto_tasks.specs.Depth.{depth_of_block};
ghost use Rattle.giotto_tasks.specs.inner.HasCode.{IsCompiled};
ghost use Rattle.giotto_tasks.specs.Sound.{is_small};
ghost use Rattle.giotto_tasks.specs.Syntax as syntax;
ghost use Rattle.giotto_tasks.specs.Trees.{expression_of, primary_of, statement_of, block_of, body_of};

use crate::code::compiled::Code;
use crate::code::ports::Ports;
use crate::faults::CodeFault;
use crate::lists::List;
use crate::names::Name;
use crate::operators::{BinaryOperator, UnaryOperator};
use crate::same::Same;
use std::alloc::Global;
use std::marker::Model;

/// An expression over the values of some ports: the function of a driver, a guard, or a part of a
/// task's body.
#[derive(Drop)]
#[cycle(expression)]
pub enum Expr {
    /// A number. In a program's text it is 0 to `i64::MAX`.
    Number(i64),
    /// The value of a port.
    Port(Name),
    /// An operation of one operand.
    Unary(UnaryOperator, Primary),
    /// An operation of two operands, both of which are evaluated.
    Binary(BinaryOperator, Primary, Primary),
}

/// An operand of an operation. A number or a name is stored in the operation itself.
#[derive(Drop)]
#[cycle(expression)]
pub enum Primary {
    /// A number, as in [`Expr`].
    Number(i64),
    /// The value of a port.
    Port(Name),
    /// An expression in parentheses.
    Nested(Box<Expr>),
}

/// A statement of a body.
#[derive(Drop)]
pub enum Stmt {
    /// Assigns the value of an expression to an output or a state.
    Assign(Name, Expr),
    /// Runs the first block if the expression isn't 0, otherwise the second.
    If(Expr, Vec<Stmt>, Vec<Stmt>),
    /// Runs a block this number of times.
    Repeat(u64, Vec<Stmt>),
}

/// The body of a task: the names of its ports, and its block. Contracts see it as this tree,
/// independent of where its parts are in memory.
///
/// Inputs and outputs are those of a Giotto task (Henzinger, Horowitz, Kirsch, Proc. IEEE 91(1),
/// 2003), and states are its private ports. Giotto leaves the task's function to other code; here
/// it is the block.
#[derive(Drop)]
pub struct Body {
    /// The names of the inputs, in the order of their declaration.
    pub inputs: List<Name>,
    /// The names of the outputs, in the order of the task's list.
    pub outputs: List<Name>,
    /// The names of the states, in the order of their declaration.
    pub states: List<Name>,
    /// The statements, in the order in which they run.
    pub block: Vec<Stmt>,
    code: Code,
}

impl Model for Body {
    ghost use Rattle.giotto_tasks.specs.Syntax.{TaskBody};
    ghost use Rattle.giotto_tasks.specs.cited.Codes.{body_code};
    ghost use Rattle.giotto_tasks.specs.inner.HasCode.{IsCompiled};
    ghost use Rattle.giotto_tasks.specs.Trees.{body_of};

    ghost Value = { TaskBody };

    ghost coded = { body_code };

    ghost view = { λ b. body_of b.inputs b.outputs b.states b.block.items };

    ghost invariant = { λ b. IsCompiled (body_of b.inputs b.outputs b.states b.block.items) b.code };
}

impl Body {
    /// The body with these ports and this block. Compiles its code too, so that the body is ready
    /// to run. A body with more than 16 inputs, outputs or states can't be evaluated and has no
    /// code.
    ///
    /// # Errors
    /// `Memory` if an allocation fails. `TooDeep` only if an expression has more than 32 nested
    /// operations; no program's text has such an expression.
    pub fn new(
        alloc: Global,
        inputs: List<Name>,
        outputs: List<Name>,
        states: List<Name>,
        block: Vec<Stmt>,
    ) -> Result<Body, CodeFault>
        ensures too_deep { result ≡ Err CodeFault.TooDeep → 32 < depth_of_block (block_of block.items) }
        ensures value { IfOk result (λ b. b ≡ body_of inputs outputs states block.items) }
    {
        let code = compiled(alloc, &inputs, &outputs, &states, &block)?;
        Ok(Body {
            inputs,
            outputs,
            states,
            block,
            code,
        })
    }

    /// The code of the body's block.
    pub(crate) fn code(&self) -> &Code
        ensures { IsCompiled self.now result.now }
    {
        &self.code
    }

    /// Whether the body has at most 16 inputs, 16 outputs and 16 states.
    pub fn is_small(&self) -> bool
        ensures { result ≡ is_small self.now }
    {
        self.inputs.as_slice().len() <= 16
            && self.outputs.as_slice().len() <= 16
            && self.states.as_slice().len() <= 16
    }
}

impl Same for Body {
    // The same names in the same order, and the same statements.
    fn is_same(&self, other: &Body) -> bool {
        same_names(&self.inputs, &other.inputs)
            && same_names(&self.outputs, &other.outputs)
            && same_names(&self.states, &other.states)
            && same_block(&self.block, &other.block)
    }
}

impl Expr {
    /// Whether both are the same expression, whatever parentheses they were written with. Takes no memory.
    pub fn is_same(&self, other: &Expr) -> bool
        ensures { IsTrue result ↔ (expression_of self.now ≡ expression_of other.now) }
    {
        same_expression(self, other)
    }
}

// The code over all ports: first the inputs, then the states, then the outputs.
fn compiled(
    alloc: Global,
    inputs: &List<Name>,
    outputs: &List<Name>,
    states: &List<Name>,
    block: &[Stmt],
) -> Result<Code, CodeFault>
    ensures too_deep { result ≡ Err CodeFault.TooDeep → 32 < depth_of_block (block_of block.now) }
    ensures code { IfOk result (λ c. IsCompiled (body_of inputs.now outputs.now states.now block.now) c) }
{
    if !are_few(inputs) || !are_few(outputs) || !are_few(states) {
        return Ok(Code::none(alloc));
    }
    let names = Ports::new(inputs.as_slice(), states.as_slice(), outputs.as_slice());
    Code::new(alloc, &names, block)
}

fn are_few(names: &List<Name>) -> bool
    ensures { IsTrue result ↔ (length names.now ≤ 16) }
{
    names.as_slice().len() <= 16
}

fn same_names(a: &List<Name>, b: &List<Name>) -> bool
    ensures { IsTrue result ↔ (a.now ≡ b.now) }
{
    a.as_slice() == b.as_slice()
}

#[cycle(same_expressions)]
fn same_expression(a: &Expr, b: &Expr) -> bool
    ensures { IsTrue result ↔ (expression_of a.now ≡ expression_of b.now) }
{
    match (a, b) {
        (Expr::Number(y), Expr::Number(z)) => y == z,
        (Expr::Port(x), Expr::Port(y)) => x == y,
        (Expr::Unary(o, a), Expr::Unary(p, b)) => o == p && same_primary(a, b),
        (Expr::Binary(o, a, b), Expr::Binary(p, c, d)) => {
            o == p && same_primary(a, c) && same_primary(b, d)
        }
        _ => false,
    }
}

#[cycle(same_expressions)]
fn same_primary(a: &Primary, b: &Primary) -> bool
    ensures { IsTrue result ↔ (primary_of a.now ≡ primary_of b.now) }
{
    match (a, b) {
        (Primary::Nested(a), Primary::Nested(b)) => same_expression(a, b),
        (_, Primary::Number(z)) => is_number(a, *z),
        (_, Primary::Port(y)) => is_port(a, y),
        (Primary::Number(y), _) => is_number(b, *y),
        (Primary::Port(x), _) => is_port(b, x),
    }
}

// Whether this is the number, in parentheses or not.
fn is_number(primary: &Primary, number: i64) -> bool
    ensures { IsTrue result ↔ (primary_of primary.now ≡ syntax.number number) }
{
    match primary {
        Primary::Number(z) => *z == number,
        Primary::Port(_) => false,
        Primary::Nested(e) => match &**e {
            Expr::Number(z) => *z == number,
            _ => false,
        },
    }
}

// Whether this is the port of the name, in parentheses or not.
fn is_port(primary: &Primary, name: &Name) -> bool
    ensures { IsTrue result ↔ (primary_of primary.now ≡ syntax.port name.now) }
{
    match primary {
        Primary::Number(_) => false,
        Primary::Port(x) => x == name,
        Primary::Nested(e) => match &**e {
            Expr::Port(x) => x == name,
            _ => false,
        },
    }
}

#[cycle(same)]
fn same_statement(s: &Stmt, t: &Stmt) -> bool
    ensures { IsTrue result ↔ (statement_of s.now ≡ statement_of t.now) }
{
    match (s, t) {
        (Stmt::Assign(x, a), Stmt::Assign(y, b)) => x == y && same_expression(a, b),
        (Stmt::If(c, a, b), Stmt::If(d, e, f)) => {
            same_expression(c, d) && same_block(a, e) && same_block(b, f)
        }
        (Stmt::Repeat(m, a), Stmt::Repeat(n, b)) => m == n && same_block(a, b),
        _ => false,
    }
}

#[cycle(same)]
fn same_block(a: &[Stmt], b: &[Stmt]) -> bool
    ensures { IsTrue result ↔ (block_of a.now ≡ block_of b.now) }
{
    if a.len() != b.len() {
        return false;
    }
    for i in 0..a.len() {
        if !same_statement(&a[i], &b[i]) {
            return false;
        }
    }
    true
}
