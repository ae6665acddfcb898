//! Upper bounds on the steps of bodies and drivers.

ghost use Rattle.std.specs.Prelude.{◌≡◌, ◌-◌, ◌^◌, min};
ghost use Rattle.giotto_tasks.specs.Cost.{operators_of, cost_of_statement, cost_of};
ghost use Rattle.giotto_tasks.specs.Trees.{expression_of, primary_of, statement_of, block_of};

use crate::bodies::{Body, Expr, Primary, Stmt};

/// An upper bound on the steps that a body takes, whatever its inputs and states, or `u64::MAX` if
/// that is less. An assignment costs 1 plus its operators. An `if` costs 1, plus the operators of
/// its condition and the cost of its more expensive branch. `repeat N` costs 1, plus N times one
/// more than the cost of its block.
pub fn cost(body: &Body) -> u64
    ensures { result ≡ min (cost_of body.now.block) (2 ^ 64 - 1) }
{
    block_cost(&body.block)
}

/// The number of operators of an expression, or `u64::MAX` if there are more. These are the steps
/// that it takes as part of a driver.
#[cycle(operators)]
pub fn driver_cost(e: &Expr) -> u64
    ensures { result ≡ min (operators_of (expression_of e.now)) (2 ^ 64 - 1) }
{
    match e {
        Expr::Number(_) => 0,
        Expr::Port(_) => 0,
        Expr::Unary(_, a) => primary_cost(a).saturating_add(1),
        Expr::Binary(_, a, b) => primary_cost(a)
            .saturating_add(primary_cost(b))
            .saturating_add(1),
    }
}

#[cycle(operators)]
#[inline(always)]
fn primary_cost(primary: &Primary) -> u64
    ensures { result ≡ min (operators_of (primary_of primary.now)) (2 ^ 64 - 1) }
{
    match primary {
        Primary::Number(_) => 0,
        Primary::Port(_) => 0,
        Primary::Nested(e) => driver_cost(e),
    }
}

#[cycle(cost)]
fn statement_cost(s: &Stmt) -> u64
    ensures { result ≡ min (cost_of_statement (statement_of s.now)) (2 ^ 64 - 1) }
{
    match s {
        Stmt::Assign(_, e) => driver_cost(e).saturating_add(1),
        Stmt::If(c, a, b) => driver_cost(c)
            .saturating_add(block_cost(a).max(block_cost(b)))
            .saturating_add(1),
        Stmt::Repeat(n, block) => n
            .saturating_mul(block_cost(block).saturating_add(1))
            .saturating_add(1),
    }
}

#[cycle(cost)]
fn block_cost(block: &[Stmt]) -> u64
    ensures { result ≡ min (cost_of (block_of block.now)) (2 ^ 64 - 1) }
{
    let mut total = 0u64;
    for s in block {
        total = total.saturating_add(statement_cost(s));
    }
    total
}
