//! Laws of the definitions: what holds for program texts and programs, whichever code reads them.
//!
//! The functions do nothing: each contract is a law.

ghost use Rattle.std.specs.Prelude.{◌≡◌, ◌≤◌, ℕ, false, List, ◌++◌, Result, Ok, IsTrue};
ghost use Rattle.giotto_tasks.specs.Depth.{depth_of_block};
ghost use Rattle.giotto_tasks.specs.Syntax.{Block};
ghost use Rattle.giotto_text.specs.declared.faults.ReadFault.{ReadFault};
ghost use Rattle.giotto_text.specs.declared.tokens.PlacedToken.{PlacedToken};
ghost use Rattle.giotto_text.specs.declared.tokens.Token.{Token};
ghost use Rattle.giotto_text.specs.Canonical.{canonical_of, canonical_tokens};
ghost use Rattle.giotto_text.specs.Depth.{is_shallow_program};
ghost use Rattle.giotto_text.specs.Grammar.{Part};
ghost use Rattle.giotto_text.specs.Nesting.{nests_too_deep};
ghost use Rattle.giotto_text.specs.Parsing.{got, parsed, read_block};
ghost use Rattle.giotto_text.specs.Program.{GiottoProgram};
ghost use Rattle.giotto_text.specs.Reading.{Reads};
ghost use Rattle.giotto_text.specs.Sound.{IsPrintable};
ghost use Rattle.giotto_text.specs.Spelling.{SpellsParts, BeginsParts, Spells, IsPrefix};
ghost use Rattle.giotto_text.specs.Tokens.{bare};

/// The first tokens of a spelled token list are a prefix, and so are the first tokens of a prefix. Each prefix can be
/// completed to a whole program, so the prefixes are exactly the first tokens of programs.
pub fn prefixes()
    ensures of_spelled { (ts us : List Token) (ps : List Part) → SpellsParts (ts ++ us) ps → BeginsParts ts ps }
    ensures of_prefix { (ts us : List Token) (ps : List Part) → BeginsParts (ts ++ us) ps → BeginsParts ts ps }
    ensures completed { (ts : List Token) → IsPrefix ts → (us : List Token) × (p : GiottoProgram) × Spells (ts ++ us) p }
{}

/// Tokens spell at most one program.
pub fn one_program()
    ensures { (ts : List Token) (p q : GiottoProgram) → Spells ts p → Spells ts q → p ≡ q }
{}

/// The parser computes what a text reads as: it reads each text as the definition says, and a text reads as nothing
/// else.
pub fn parser()
    ensures reads { (text : List ℕ) → Reads text (parsed text) }
    ensures only { (text : List ℕ) (r : Result GiottoProgram ReadFault) → Reads text r → r ≡ parsed text }
{}

/// A program that a text reads as can be printed.
pub fn printable()
    ensures { (text : List ℕ) (p : GiottoProgram) → parsed text ≡ Ok p → IsPrintable p }
{}

/// Each expression of a program that can be printed, in its bodies and drivers, has at most 32 nested operations: an
/// operand that is an operation is in parentheses. The same holds for each block that tokens begin with, if these
/// tokens don't nest too deep.
pub fn shallow()
    ensures program { (p : GiottoProgram) → IsPrintable p → IsTrue (is_shallow_program p) }
    ensures block { (ts rest : List PlacedToken) (b : Block) → nests_too_deep (bare ts) ≡ false → read_block ts ≡ got b rest → depth_of_block b ≤ 32 }
{}

/// The canonical tokens of a program spell it, if any tokens do. The canonical text of a program that can be printed
/// reads as that program.
pub fn canonical()
    ensures spells { (ts : List Token) (p : GiottoProgram) → Spells ts p → Spells (canonical_tokens p) p }
    ensures reads { (p : GiottoProgram) → IsPrintable p → parsed (canonical_of p) ≡ Ok p }
{}
