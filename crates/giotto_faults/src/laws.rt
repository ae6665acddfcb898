//! Laws of the definitions. The functions do nothing: each contract is a law.

ghost use Rattle.std.specs.Prelude.{◌≡◌, ◌↔◌, ℕ, List, Contains, true};
ghost use Rattle.giotto_faults.specs.Expected.{BeginsProgram, begins_program, expected_behind, with_token};
ghost use Rattle.giotto_faults.specs.declared.kinds.TokenKind.{TokenKind};

use giotto_read::text::laws;

/// A text begins a program, according to the reader, exactly if its tokens are a prefix of some program's tokens and nest at most
/// 32 deep.
pub fn beginnings()
    ensures { (text : List ℕ) → (begins_program text ≡ true) ↔ BeginsProgram text }
{
    laws::parser();
    laws::prefixes();
}

/// The kinds of tokens expected after a text are exactly those with which it begins a program.
pub fn expected_kinds()
    ensures { (text : List ℕ) (kind : TokenKind) → Contains (expected_behind text) kind ↔ BeginsProgram (with_token text kind) }
{
    beginnings();
}
