//! Where parentheses and braces nest too deep.

ghost use Rattle.std.specs.Prelude.{◌≡◌, ◌≤◌};
ghost use Rattle.giotto_read.specs.text.Nesting.{open_behind};
ghost use Rattle.giotto_faults.specs.Nesting.{first_too_deep};

use giotto_read::text::tokens::{PlacedToken, Symbol, Token};

/// The offset of the first token after which more than 32 parentheses and braces are open.
pub(crate) fn first_too_deep(tokens: &[PlacedToken]) -> Option<usize>
    ensures { result ≡ first_too_deep 0 tokens.now }
{
    let mut depth = 0;
    for placed in tokens {
        depth = depth_behind(depth, &placed.token);
        if depth > 32 {
            return Some(placed.offset);
        }
    }
    None
}

// How many are open after the token if `depth` are open before it.
fn depth_behind(depth: usize, token: &Token) -> usize
    requires { depth ≤ 32 }
    ensures { result ≡ open_behind depth token.now }
{
    match token {
        Token::Symbol(Symbol::OpenParenthesis | Symbol::OpenBrace) => depth + 1,
        Token::Symbol(Symbol::CloseParenthesis | Symbol::CloseBrace) => depth.saturating_sub(1),
        _ => depth,
    }
}
