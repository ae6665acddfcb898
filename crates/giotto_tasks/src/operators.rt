//! The operations of expressions.

ghost use Rattle.std.specs.Prelude.{◌≡◌, ◌+ℤ◌, ◌-ℤ◌, ◌*ℤ◌};
ghost use Rattle.giotto_tasks.specs.Arithmetic.{saturated, unary, binary, truncated_div, remainder};

/// An operation of one operand.
#[derive(Clone, Copy, Debug, PartialEq, Eq)]
pub enum UnaryOperator {
    /// `-x`
    Negate,
    /// `!x`
    Not,
}

/// An operation of two operands.
#[derive(Clone, Copy, Debug, PartialEq, Eq)]
pub enum BinaryOperator {
    /// `x + y`
    Add,
    /// `x - y`
    Subtract,
    /// `x * y`
    Multiply,
    /// `x / y`
    Divide,
    /// `x % y`
    Remainder,
    /// `x == y`
    Equal,
    /// `x != y`
    NotEqual,
    /// `x < y`
    Less,
    /// `x <= y`
    AtMost,
    /// `x > y`
    Greater,
    /// `x >= y`
    AtLeast,
    /// `x && y`
    And,
    /// `x || y`
    Or,
}

impl UnaryOperator {
    /// The value of the operation. `-x` is exact, except that it is `i64::MAX` for `i64::MIN`,
    /// whose negation doesn't fit. `!x` is 1 if x is 0, and 0 otherwise.
    #[inline]
    pub fn apply(self, x: i64) -> i64
        ensures { result ≡ unary self x }
    {
        match self {
            UnaryOperator::Negate => 0i64.saturating_sub(x),
            UnaryOperator::Not => i64::from(x == 0),
        }
    }
}

impl BinaryOperator {
    /// The value of the operation.
    ///
    /// Sums, differences and products are exact, or the nearest of `i64::MIN` and `i64::MAX` if
    /// they don't fit. `x / y` is rounded towards zero, and `x % y` is the remainder, with the sign
    /// of x. Both are 0 if y is 0, and `i64::MIN / -1` is `i64::MAX`. Comparisons, `&&` and `||`
    /// are 1 for true and 0 for false, and any value except 0 counts as true.
    #[inline(always)]
    pub fn apply(self, x: i64, y: i64) -> i64
        ensures { result ≡ binary self x y }
    {
        match self {
            BinaryOperator::Add => saturating_sum(x, y),
            BinaryOperator::Subtract => saturating_difference(x, y),
            BinaryOperator::Multiply => saturating_product(x, y),
            BinaryOperator::Divide => divided(x, y),
            BinaryOperator::Remainder => remainder_of(x, y),
            BinaryOperator::Equal => i64::from(x == y),
            BinaryOperator::NotEqual => i64::from(x != y),
            BinaryOperator::Less => i64::from(x < y),
            BinaryOperator::AtMost => i64::from(x <= y),
            BinaryOperator::Greater => i64::from(x > y),
            BinaryOperator::AtLeast => i64::from(x >= y),
            BinaryOperator::And => i64::from(x != 0 && y != 0),
            BinaryOperator::Or => i64::from(x != 0 || y != 0),
        }
    }
}

// Exact in 128 bits, then cut to the range: LLVM turns this form into its own saturating sums and
// differences.

#[inline]
fn saturating_sum(x: i64, y: i64) -> i64
    ensures { result ≡ saturated (x +ℤ y) }
{
    saturate(i128::from(x) + i128::from(y))
}

#[inline]
fn saturating_difference(x: i64, y: i64) -> i64
    ensures { result ≡ saturated (x -ℤ y) }
{
    saturate(i128::from(x) - i128::from(y))
}

#[inline]
fn saturating_product(x: i64, y: i64) -> i64
    ensures { result ≡ saturated (x *ℤ y) }
{
    match x.checked_mul(y) {
        Some(product) => product,
        None => saturate(i128::from(x) * i128::from(y)),
    }
}

#[inline]
fn saturate(z: i128) -> i64
    ensures { result ≡ saturated z }
{
    if z < i128::from(i64::MIN) {
        i64::MIN
    } else if z > i128::from(i64::MAX) {
        i64::MAX
    } else {
        z as i64
    }
}

// Only `i64::MIN / -1` doesn't fit.
fn divided(x: i64, y: i64) -> i64
    ensures { result ≡ truncated_div x y }
{
    if y == 0 {
        return 0;
    }
    x.checked_div(y).unwrap_or(i64::MAX)
}

fn remainder_of(x: i64, y: i64) -> i64
    ensures { result ≡ remainder x y }
{
    if y == 0 {
        return 0;
    }
    x.wrapping_rem(y)
}
